//! A law of boards.

ghost use Rattle.audit_board.specs.Growing.{StayingMembersGrow};

use crate::board::Board;

/// The law that over findings told one after another, the list of each member that stays and tells one grew by exactly these, in their
/// order. It is a law of the members that boards such as this one may have.
pub fn staying_members_grow(_board: &Board)
    ensures { StayingMembersGrow (λ s. list s.member) (λ s. faults s.member) }
{}
