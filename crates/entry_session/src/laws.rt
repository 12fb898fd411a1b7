//! Laws of sessions. Each is the contract of a function that does nothing, so that whoever needs one can cite it.

ghost use Rattle.entry_session.specs.Laws.{LeadsToOne, HandsUpVeiled, HandsDownOneForOne, GoesOn, HandsUpThirtyfold, HaveOwnIvs, NeverWantsMemory, TakesWhatWasSent};

/// The law that what a session heard leads to one stand.
pub fn leads_to_one()
    ensures { LeadsToOne }
{}

/// The law that a session hands up what it kept of what its client sent, veiled, with the IVs of its connection counted from 0.
pub fn hands_up_veiled()
    ensures { HandsUpVeiled }
{}

/// The law that a session hands down one frame for each frame of the store that it heard, but for one at which it ended: as one
/// that is malformed, has another xid, answers nothing, or tells a bad event.
pub fn hands_down_one_for_one()
    ensures { HandsDownOneForOne }
{}

/// The law that a session that hears more goes on from where it stood: what it handed up and down and its findings stay.
pub fn goes_on()
    ensures { GoesOn }
{}

/// The law that each body that a session hands up has at most 30 times the bytes of the client's body for which it is.
pub fn hands_up_thirtyfold()
    ensures { HandsUpThirtyfold }
{}

/// The law that nothing that a session hears ends it for want of memory: where it ended so, no list of what it heard leads there.
pub fn never_wants_memory()
    ensures { NeverWantsMemory }
{}

/// The law that no two payloads that the sessions of one boot seal have the same IV.
pub fn have_own_ivs()
    ensures { HaveOwnIvs }
{}

/// The law that a session keeps the first of the items that its client's bytes spell, and all of them where it goes on and has
/// taken all bytes.
pub fn takes_what_was_sent()
    ensures { TakesWhatWasSent }
{}
