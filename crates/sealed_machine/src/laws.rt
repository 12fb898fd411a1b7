//! Laws of the machine on both sides. Each is the contract of a function that does nothing, so that whoever needs one can cite it.

ghost use Rattle.sealed_machine.specs.Laws.{HasSealedNaming, VeilsWhatIsAsked, KeepsWhatIsAsked, StaysInStep, FitsPlain};

/// The law that the names of an enclave are a naming: whether a text is a sealed stem can be decided.
pub fn sealed_naming()
    ensures { HasSealedNaming }
{}

/// The law that the veiled form of a request asks for the sealed form of what the request asks for.
pub fn veils_what_is_asked()
    ensures { VeilsWhatIsAsked }
{}

/// The law that what is kept of a request for its reply is what its command asks.
pub fn keeps_what_is_asked()
    ensures { KeepsWhatIsAsked }
{}

/// The law that a store that takes the sealed forms of acts stays in step with the plain machine, and that what it tells a
/// connection stands message by message beside what the plain machine sends.
pub fn stays_in_step()
    ensures { StaysInStep }
{}

/// The law that what the plain machine sends can be written where what a store tells can, in frames that are no longer.
pub fn fits_plain()
    ensures { FitsPlain }
{}
