//! What a seat of the table knows, and what the table's one slot holds.

use crate::act::Call;
use std::collections::LinkedList;
use std::snapshot::Snapshot;

/// One item of the history: who called, and the call. No value of it is made.
pub struct Item {
    pub by: u64,
    pub call: Call,
}

/// What a seat is at. No value of it is made.
pub enum Role {
    /// Its pass was met, and it stands for none.
    Gone,
    Idle,
    /// It has a ticket.
    Waits(u64),
    /// Its ticket is served, and it has the store.
    Has(u64),
    /// The same, and its call stands in the history.
    Told(u64),
    /// It has a number for one more pass.
    Splits(u64),
    /// It met a pass that had seen this history.
    Meets(LinkedList<Item>),
    /// So many passes were met, or more.
    Counts(u64),
    /// No other seat stands for a pass.
    Alone,
}

/// What a seat knows. No value of it is made.
pub struct View {
    pub number: u64,
    pub role: Role,
    pub seen: LinkedList<Item>,
    pub mine: LinkedList<Item>,
}

/// The store, with the last call, which only proofs read.
#[derive(Drop)]
pub struct Desk<S> {
    pub store: S,
    pub call: Snapshot<Call>,
}
