//! The law, and a rule by which a program meets one of its premises: that frames of the store come after what it had taken.

ghost use Rattle.session_law.specs.Law.{HoldsOverSessions};
ghost use Rattle.session_law.specs.Laws.{StaysBehind};

/// The law over many sessions. Over a store that follows the plain machine under the names of a counter enclave, and for every connection that is
/// joined to it:
///
/// - the order in which the store took the requests, filled with what the clients sent, is legal for the plain machine;
/// - each client received the first of the bytes that this machine sends it, and all of them once nothing waits, or its session was closed;
/// - each session handed up what its client sent, with every name and payload sealed, and the store's entries are the first of that;
/// - nothing was found wrong with a reply, and a session ended at a limit, at its client's or its caller's doing, or at its close alone.
pub fn holds_over_sessions()
    ensures { HoldsOverSessions }
{}

/// Frames of the store that came after what it had taken did so, whatever it takes and sends later.
pub fn stays_behind()
    ensures { StaysBehind }
{}
