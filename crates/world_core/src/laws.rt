//! Laws of every world. Each is the contract of a function that does nothing, so that whoever needs one can cite it.

ghost use Rattle.world_core.specs.Laws.{HasAllOnceDrained, HoldsAtEach, LeavesNothing, SpellItems};

/// At each moment at which a world stands, what its clients received is the first of what the plain machine sends them over the order
/// in which the store took their requests, and what was handed to the store is that, with every name and payload sealed.
pub fn holds_at_each()
    ensures { HoldsAtEach }
{}

/// Once a world is drained, nothing is under way to or from a connection whose session goes on, and nothing waits for it.
pub fn leaves_nothing()
    ensures { LeavesNothing }
{}

/// Where nothing is under way to or from a connection whose session goes on, its client received all that the plain machine sends it, all
/// that the client sent was handed up, and the store took all of it.
pub fn has_all_once_drained()
    ensures { HasAllOnceDrained }
{}

/// Whatever bytes a client sends, they spell items.
pub fn spell_items()
    ensures { SpellItems }
{}
