//! What each step on the table tells.
ghost use Rattle.store_side.specs.Past.{Past as Went};
ghost use Rattle.tree_hall.specs.Turns.{drawn, taken, told, passed_on, numbered, looked, compared, counted, posed, newcomer, spare_of, both, nobody};
ghost use Rattle.tree_hall.specs.declared.view.Role.TheVariants.{Idle};

use crate::view::{Desk, View};
use atomic_table::{Join, Play, Split};
use std::marker::{Brand, PhantomData};
use store_side::StoreSide;

/// At which pasts the hall's first store stood. A play cannot read the table's key, so each call of a hall picks this for its steps.
pub(crate) trait Opening {
    ghost opened: { Went → Type 0 };
}

impl Opening for Brand {
    ghost opened = { λ past. Unit {0} };
}

pub(crate) struct Draw;

impl<S> Play<Option<Desk<S>>, View> for Draw {
    ghost then = { drawn };
}

pub(crate) struct Take<J: Opening> {
    of: PhantomData<J>,
}

impl<S: StoreSide, J: Opening> Play<Option<Desk<S>>, View> for Take<J> {
    ghost then = { taken S.stands J.opened };
}

pub(crate) struct Tell<J: Opening> {
    of: PhantomData<J>,
}

impl<S, J: Opening> Play<Option<Desk<S>>, View> for Tell<J> {
    ghost then = { told J.opened };
}

pub(crate) struct PassOn;

impl<S> Play<Option<Desk<S>>, View> for PassOn {
    ghost then = { passed_on };
}

pub(crate) struct Number;

impl<S> Play<Option<Desk<S>>, View> for Number {
    ghost then = { numbered };
}

pub(crate) struct LookMet;

impl<S> Play<Option<Desk<S>>, View> for LookMet {
    ghost then = { looked };
}

pub(crate) struct LookMade;

impl<S> Play<Option<Desk<S>>, View> for LookMade {
    ghost then = { compared };
}

pub(crate) struct CountMet<J: Opening> {
    of: PhantomData<J>,
}

impl<S, J: Opening> Play<Option<Desk<S>>, View> for CountMet<J> {
    ghost then = { counted J.opened };
}

pub(crate) struct Newcomer;

impl Split<View> for Newcomer {
    ghost left = { λ v. posed v Idle };

    ghost right = { λ v. newcomer v (spare_of v.role) };
}

pub(crate) struct Both;

impl Join<View> for Both {
    ghost both = { both };

    ghost spent = { nobody };
}
