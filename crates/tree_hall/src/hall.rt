//! The hall itself.
ghost use Rattle.std.specs.Prelude.{◌≡◌, ◌<◌, List, [], ◌∷◌, ◌++◌, IfOk, IfErr, IsOk};
ghost use Rattle.store_side.specs.Past.{Past as Went};
ghost use Rattle.tree_hall.specs.declared.view.Item.{Item};
ghost use Rattle.tree_hall.specs.Histories.{Answers, IsPlayed, LeadsTo, StartsWith, Named, IsTimely, calls_by};
ghost use Rattle.tree_hall.specs.Passes.{IsPassOf, IsWhole, seen_by, calls_of, number_of, call_of, view_of};

use crate::act::{Act, Answer, Call};
use crate::bells::Bells;
use crate::pass::Pass;
use crate::serving::room;
use crate::sleepers::Sleepers;
use crate::turns::{Place, Turns, gather, look_round, part, take_turn};
use crate::view::{Desk, View};
use atomic_table::{Badge, Table};
use jute_core::Memory;
use std::alloc::Global;
use std::marker::Brand;
use std::mem;
use std::snapshot::Snapshot;
use std::sync::Wait;
use store_side::{StoreEnding, StoreSide};

/// A store that several threads share.
#[derive(Drop)]
pub struct Hall<S: StoreSide + Drop, B: Bells + Drop> {
    pub(crate) table: Table<Option<Desk<S>>, View, Snapshot<S>, Turns, Global>,
    pub(crate) sleepers: Sleepers,
    bells: B,
    alloc: Global,
    ghost wide: { (table.shared.table_id.words ≡ 5) × (table.shared.table_id.slots ≡ 1) },
}

// The desk of a new hall has no call; this stands in for it.
fn first_call() -> Call {
    Call {
        act: Act::Admit,
        result: Ok(Answer::Gone),
    }
}

impl<S: StoreSide + Drop, B: Bells + Drop> Hall<S, B> {
    /// A hall with this store, and its first pass, which has number 0.
    ///
    /// # Errors
    /// `Memory`.
    pub fn new(alloc: Global, store: S, bells: B) -> Result<(Hall<S, B>, Pass), Memory>
        ensures store { IfOk result (λ h. h.0.table.shared.key.value ≡ store) }
        ensures pass { IfOk result (λ h. IsPassOf h.0.table.shared.table_id h.1 × (number_of h.1 ≡ 0)) }
        ensures seen { IfOk result (λ h. seen_by h.1 ≡ []) }
        ensures calls { IfOk result (λ h. calls_of h.1 ≡ []) }
    {
        let sleepers = Sleepers::new(alloc)?;
        let about = Snapshot::of(&store);
        let call = first_call();
        let mut slots = Vec::with_capacity(alloc, 1)?;
        slots.push(Some(Desk {
            store,
            call: Snapshot::of(&call),
        }))?;
        let words = [0u64, 0, 0, 1, 0];
        match Table::new(alloc, &words, slots, &about) {
            Ok((table, seat)) => {
                let hall = Hall {
                    table,
                    sleepers,
                    bells,
                    alloc,
                };
                let badge = seat.into_badge();
                Ok((hall, Pass { badge }))
            }
            Err(_) => Err(Memory),
        }
    }

    /// The store's answer at one point of one history, which begins with what the pass has seen and ends with this call. Waits for
    /// its turn. The bytes of a `Feed` are moved in, and those of a `Pull` out.
    ///
    /// # Errors
    /// Those of the store's call. A call that is answered `Memory` stands in the history too.
    pub fn act<R: Wait>(&self, rt: &R, pass: &mut Pass, act: Act) -> Result<Answer, StoreEnding>
        requires pass { IsPassOf self.now.table.shared.table_id pass.old }
        requires named { Named (seen_by pass.old) act }
        requires time { IsTimely act }
        ensures kind { Answers act result }
        ensures same { IsPassOf self.now.table.shared.table_id pass.new × (number_of pass.new ≡ number_of pass.old) }
        ensures seen { (between : List Item) × (seen_by pass.new ≡ (seen_by pass.old ++ between) ++ call_of pass.old act result ∷ []) }
        ensures calls { calls_of pass.new ≡ calls_of pass.old ++ call_of pass.old act result ∷ [] }
        ensures once { calls_by (number_of pass.new) (seen_by pass.new) ≡ calls_by (number_of pass.new) (calls_of pass.new) }
        ensures played { IsPlayed (S.stands self.now.table.shared.key.value) (seen_by pass.new) }
    {
        let own = act.connection();
        let into = room(self.alloc, &act);
        let mut seat: Place<S> = mem::replace(&mut pass.badge, Badge::blank()).into_seat();
        let board = &self.table.shared;
        let (result, heard) = take_turn::<Brand, S, R>(
            rt,
            board,
            &self.sleepers,
            &mut seat,
            act,
            into,
        );
        pass.badge = seat.into_badge();
        heard.ring(&self.bells, own);
        result
    }

    /// One more pass, which has seen what this one has, and has made no calls. Takes no memory, and waits only where the numbers of
    /// passes are used up.
    ///
    /// # Errors
    /// None.
    pub fn split<R: Wait>(&self, rt: &R, pass: &mut Pass) -> Result<Pass, Memory>
        requires { IsPassOf self.now.table.shared.table_id pass.old }
        ensures given { IsOk result }
        ensures same { IsPassOf self.now.table.shared.table_id pass.new × (view_of pass.new ≡ view_of pass.old) }
        ensures new { IfOk result (λ p. IsPassOf self.now.table.shared.table_id p) }
        ensures seen { IfOk result (λ p. seen_by p ≡ seen_by pass.old) }
        ensures calls { IfOk result (λ p. calls_of p ≡ []) }
    {
        let mut seat: Place<S> = mem::replace(&mut pass.badge, Badge::blank()).into_seat();
        let (_, other) = part(rt, &self.table.shared, &mut seat);
        pass.badge = seat.into_badge();
        Ok(Pass {
            badge: other.into_badge(),
        })
    }

    /// From here on the pass has seen what both have, and the calls of both are its own. Takes no memory.
    pub fn meet(&self, pass: &mut Pass, other: Pass)
        requires pass { IsPassOf self.now.table.shared.table_id pass.old }
        requires other { IsPassOf self.now.table.shared.table_id other }
        ensures same { IsPassOf self.now.table.shared.table_id pass.new × (number_of pass.new ≡ number_of pass.old) }
        ensures seen { StartsWith (seen_by pass.new) (seen_by pass.old) × StartsWith (seen_by pass.new) (seen_by other) }
        ensures played { IsPlayed (S.stands self.now.table.shared.key.value) (seen_by pass.new) }
        ensures calls { calls_of pass.new ≡ calls_of pass.old ++ calls_of other }
    {
        let Pass { badge } = other;
        let mut seat: Place<S> = mem::replace(&mut pass.badge, Badge::blank()).into_seat();
        gather::<Brand, S>(&self.table.shared, &mut seat, badge.into_seat());
        pass.badge = seat.into_badge();
    }

    /// The store, after a history of which the calls of this pass are all. Takes no memory.
    ///
    /// # Errors
    /// `StillOut` where other passes are out; then hall and pass come back.
    pub fn close(self, pass: Pass) -> Result<S, StillOut<S, B>>
        requires { IsPassOf self.table.shared.table_id pass }
        ensures closed { IfOk result (λ store. (history : List Item) × LeadsTo (S.stands self.table.shared.key.value) history (S.stands store)
            × StartsWith history (seen_by pass) × IsWhole history (calls_of pass)) }
        ensures missing { IfErr result (λ e. 0 < e.missing) }
        ensures hall { IfErr result (λ e. (e.hall.table.shared.table_id ≡ self.table.shared.table_id) × (e.hall.table.shared.key ≡ self.table.shared.key)) }
        ensures pass { IfErr result (λ e. IsPassOf self.table.shared.table_id e.pass × (view_of e.pass ≡ view_of pass)) }
    {
        let Pass { badge } = pass;
        let mut seat: Place<S> = badge.into_seat();
        let missing = look_round(&self.table.shared, &mut seat);
        if missing > 0 {
            return Err(StillOut {
                hall: self,
                pass: Pass {
                    badge: seat.into_badge(),
                },
                missing,
            });
        }
        let Hall { table, .. } = self;
        let mut closed = table.close_with(seat);
        let desk = closed.take(0);
        closed.free();
        let Desk { store, call: _ } = desk.unwrap();
        Ok(store)
    }
}

/// The hall is still shared: so many passes beside this one were split and not met.
#[derive(Drop)]
pub struct StillOut<S: StoreSide + Drop, B: Bells + Drop> {
    pub hall: Hall<S, B>,
    pub pass: Pass,
    pub missing: u64,
}
