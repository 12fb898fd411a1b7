//! The members that are told of findings.

ghost use Rattle.std.specs.Prelude.{◌≡◌, ◌+◌, ◌<◌, ◌↔◌, IsTrue, IsFalse, IsSome, IfSome, IfOk, IfErr, [], ◌∷◌, ◌++◌, length};
ghost use Rattle.reply_rewrite.specs.declared.finding.Finding.{Finding};
ghost use Rattle.jute_core.specs.Faults.{HasCause, Rose};
ghost use Rattle.audit_board.specs.Observers.{TakesFinding};
ghost use Rattle.audit_board.specs.Telling.{IsNoted, Told, IsToldAs, AreNumbered, AreNumbered-prop, HasNumber, HasNumberAt, IsWithout};

use crate::observer::Observer;
use crate::sinks::Failed;
use crate::teller::Teller;
use reply_rewrite::Finding;
use std::alloc::Global;

/// A member of a board, with its number.
#[derive(Drop)]
pub struct Seat {
    /// The number, which no other member has had.
    pub number: u32,
    /// The member.
    pub member: Box<dyn Observer + Send>,
}

// Has a member note the finding.
fn note_in(member: &mut Box<dyn Observer + Send>, finding: &Finding) -> Result<(), Failed>
    ensures list { TakesFinding (list member.old) (list member.new) finding.now result }
    ensures cause { HasCause (faults member.old) (faults member.new) result }
    ensures same { member.new.vtable ≡ member.old.vtable }
{
    member.note(finding)
}

impl Seat {
    // Tells the member, and answers whether it stays.
    fn note(&mut self, finding: &Finding) -> bool
        ensures number { self.new.number ≡ self.old.number }
        ensures same { self.new.member.vtable ≡ self.old.member.vtable }
        ensures noted { IsNoted (list self.old.member) (faults self.old.member) finding.now (list self.new.member) (faults self.new.member) }
        ensures stayed { IsTrue result → Rose (faults self.old.member) (faults self.new.member) → ⊥ }
        ensures went { IsFalse result → Rose (faults self.old.member) (faults self.new.member) }
    {
        let before = self.member.faults();
        let _ = note_in(&mut self.member, finding);
        self.member.faults() < before.saturating_add(1)
    }
}

/// There was no memory for a member, which is handed back.
#[derive(Drop)]
pub struct NotAdded {
    /// The member.
    pub member: Box<dyn Observer + Send>,
}

/// The members that are told of findings, in the order in which they were added, and how many were added so far.
///
/// The number of a member is given to no other.
#[derive(Drop)]
pub struct Board {
    seats: Vec<Seat>,
    added: u32,
    ghost numbered: { AreNumbered 0 seats.items added } by { AreNumbered-prop 0 seats.items added },
    ghost counted: { added < 4294967296 },
}

impl Board {
    /// A board without members.
    pub fn new(alloc: Global) -> Board
        ensures seats { result.seats.items ≡ [] }
        ensures added { result.added ≡ 0 }
    {
        Board {
            seats: Vec::new(alloc),
            added: 0,
        }
    }

    /// Adds a member, and gives its number: the members are numbered from 0, in the order in which they are added. A member that is not
    /// added for want of memory is handed back.
    pub fn add(&mut self, member: Box<dyn Observer + Send>) -> Result<u32, NotAdded>
        requires { self.old.added < 4294967295 }
        ensures added { IfOk result (λ number.
            (number ≡ self.old.added)
            × (self.new.seats.items ≡ self.old.seats.items ++ record { number = number; member = member } ∷ [])
            × (self.new.added ≡ self.old.added + 1)) }
        ensures refused { IfErr result (λ refused.
            (refused.member ≡ member) × (self.new.seats.items ≡ self.old.seats.items) × (self.new.added ≡ self.old.added)) }
    {
        let number = self.added;
        if let Err(refused) = self.seats.push(Seat { number, member }) {
            return Err(NotAdded {
                member: refused.value.member,
            });
        }
        self.added = number + 1;
        Ok(number)
    }

    /// Takes the member of this number out, if it is in. The others stay in order, as they are.
    pub fn remove(&mut self, number: u32) -> Option<Box<dyn Observer + Send>>
        ensures found { IsSome result ↔ HasNumber number self.old.seats.items }
        ensures taken { IfSome result (λ member. IsWithout (λ s. s.member) number member self.old.seats.items self.new.seats.items) }
        ensures same { result ≡ None → self.new.seats.items ≡ self.old.seats.items }
        ensures added { self.new.added ≡ self.old.added }
    {
        let place = place_of(&self.seats, number)?;
        Some(self.seats.remove(place).member)
    }

    /// How many members there are.
    pub fn members(&self) -> usize
        ensures { result ≡ length self.now.seats.items }
    {
        self.seats.len()
    }
}

// The place of the member of this number.
fn place_of(seats: &[Seat], number: u32) -> Option<usize>
    ensures found { IsSome result ↔ HasNumber number seats.now }
    ensures place { IfSome result (λ place. HasNumberAt number seats.now place) }
{
    for (place, seat) in seats.iter().enumerate() {
        if seat.number == number {
            return Some(place);
        }
    }
    None
}

// Tells each member, and drops those whose count rose.
fn tell_all(seats: &mut Vec<Seat>, finding: &Finding)
    ensures { Told (λ s. list s.member) (λ s. faults s.member) seats.old.items finding.now seats.new.items }
{
    let stays = |seat: &mut Seat| -> bool
        ensures { IsToldAs (λ s. list s.member) (λ s. faults s.member) seat.entry.now finding.entry.now seat.exit.now result }
    { seat.note(finding) };
    seats.retain_mut(stays);
}

// Each member is told in order, in time linear in their number and without memory of the board's own. One whose count of faults rose is
// dropped, and the others stay in order.
impl Teller for Board {
    ghost Told = { λ old finding new.
        Told (λ s. (Observer-box s.member).list s.member.value) (λ s. (Observer-box s.member).faults s.member.value)
        old.seats.items finding new.seats.items
        × (new.added ≡ old.added) };

    fn tell(&mut self, finding: &Finding) -> u32
        ensures told { Told (λ s. list s.member) (λ s. faults s.member) self.old.seats.items finding.now self.new.seats.items
            × (self.new.added ≡ self.old.added) }
        ensures gone { result + length self.new.seats.items ≡ length self.old.seats.items }
    {
        let before = self.seats.len();
        tell_all(&mut self.seats, finding);
        (before - self.seats.len()) as u32
    }
}
