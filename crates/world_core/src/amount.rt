//! How many bytes a call moves.

ghost use Rattle.std.specs.Prelude.{◌≡◌};
ghost use Rattle.world_core.specs.Steps.{count_of};

/// How many of the bytes that are there are moved.
#[derive(Clone, Copy, Debug, Drop, PartialEq, Eq)]
pub enum Amount {
    /// As many as the lesser of this number and what is there.
    AtMost(u32),
    /// All of them.
    All,
}

impl Amount {
    /// Returns how many of `there` bytes are moved.
    #[tactic(auto, unfolding(crate::specs::Steps::count_of))]
    pub(crate) fn of(self, there: usize) -> usize
        ensures { result ≡ count_of self there }
    {
        match self {
            Amount::AtMost(number) => there.min(number as usize),
            Amount::All => there,
        }
    }
}
