//! Names in byte order.

ghost use Rattle.std.specs.Prelude.{◌≡◌, ◌⊎◌, ◌↔◌, ◌+◌, ℕ, List, [], length, string_bytes, IfOk, OnOk, IsTrue};
ghost use Rattle.std.specs.List.Sorted.{IsStrictlySortedBy};
ghost use Rattle.reply_rewrite.specs.Children.{IsOneOf, byte_order};

use jute_core::{Memory, Text, Texts};
use std::alloc::Global;
use std::collections::BTreeSet;
use std::marker::Model;

/// A set of names. Contracts see the list of them, in byte order.
#[derive(Drop)]
pub(crate) struct NameSet {
    held: BTreeSet<String>,
}

impl Model for NameSet {
    ghost use Rattle.std.specs.Prelude.{ℕ, List, map, string_bytes};

    ghost Value = { List (List ℕ) };

    ghost view = { λ s. map string_bytes s.held.keys };
}

impl NameSet {
    /// No names. Takes no memory.
    pub(crate) fn new(alloc: Global) -> NameSet
        ensures { result ≡ [] }
    {
        NameSet {
            held: BTreeSet::new(alloc),
        }
    }

    /// Puts a name in, and says whether it was not there.
    #[tactic(auto, using(crate::proofs::Sets::sets))]
    pub(crate) fn insert(&mut self, name: String) -> Result<bool, Memory>
        ensures added { IfOk result (λ added. IsTrue added ↔ (IsOneOf (string_bytes name) self.old → ⊥)) }
        ensures counted { IfOk result (λ added. IsTrue added → length self.new ≡ length self.old + 1) }
        ensures names { OnOk result ((other : List ℕ) → IsOneOf other self.new ↔ ((other ≡ string_bytes name) ⊎ IsOneOf other self.old)) }
    {
        let added = self.held.insert(name)?;
        Ok(added)
    }

    /// The names, in order.
    #[tactic(auto, using(crate::proofs::Sets::sets))]
    pub(crate) fn into_texts(self, alloc: Global) -> Result<Texts, Memory>
        ensures names { IfOk result (λ texts. texts ≡ self) }
        ensures ascending { IfOk result (λ texts. IsStrictlySortedBy byte_order texts) }
    {
        let mut texts = Vec::with_capacity(alloc, self.held.len())?;
        for name in self.held {
            texts.push(Text::of(name))?;
        }
        Ok(Texts::of(texts))
    }
}
