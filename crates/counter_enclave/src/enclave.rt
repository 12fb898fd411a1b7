//! The enclave and its count.

ghost use Rattle.std.specs.Prelude.{◌≡◌, ℕ, List, pos, ◌≤ℤ◌, ◌≤◌, length, IfOk, OnOk, OnErr, unsigned_abs};
ghost use Rattle.path_seal.specs.Sealed.{OpensStem};
ghost use Rattle.counter_enclave.specs.Enclave.{IsSealedName, after_one};

use crate::naming::sealed_name;
use jute_core::{Memory, Text};
use path_seal::NameKeys;
use std::alloc::Global;
use std::marker::Model;
use zk_path::{CannotNumber, Numberer};

/// Numbers sealed stems, and counts the numbers that it gave.
///
/// What an operator has to know. The enclave holds the keys of names and does no input or output.
/// From its answers a store learns sealed names: by them the shape of the tree, the length of each
/// name, and which names at one place are equal. It learns each number as it is given, for it asks
/// for it. It may ask for any number under any stem whose sealed text it has, as often as it likes,
/// and the count rises each time. No name is handed to it in plain text. That a sealed name hides
/// the plain one rests on the cipher, and that the keys stay out of a store's reach on how it is
/// run: neither is proved.
///
/// It is not `Copy`, since two copies would count apart, and there is no `Debug`: it would print the
/// keys.
#[derive(Drop)]
pub struct CounterEnclave {
    keys: NameKeys,
    issued: u64,
}

impl Model for CounterEnclave {
    ghost use Rattle.counter_enclave.specs.Enclave.{Enclave};

    ghost Value = { Enclave };

    ghost view = { λ e. record { keys = e.keys; issued = e.issued } };
}

impl CounterEnclave {
    /// The enclave with these keys, which has given no number. Takes no memory.
    pub fn new(keys: NameKeys) -> CounterEnclave
        ensures { result ≡ record { keys = keys; issued = 0 } }
    {
        CounterEnclave { keys, issued: 0 }
    }

    /// How many numbers were given; at 18,446,744,073,709,551,615 it stays. Takes no memory.
    pub fn issued(&self) -> u64
        ensures { result ≡ self.now.issued }
    {
        self.issued
    }
}

impl Numberer for CounterEnclave {
    ghost use Rattle.counter_enclave.specs.Enclave.{IsSealedName};
    ghost use Rattle.counter_enclave.specs.SealedStems.{sealed_name_keeps, one_sealed_name};

    ghost named = { λ e. IsSealedName e.keys };

    /// The sealed text of the stem's path with the number. CannotOpen exactly where no legal stem is
    /// sealed to the text.
    fn number(&mut self, alloc: Global, stem: &str, number: i32) -> Result<Text, CannotNumber>
        requires not_negative { pos 0 ≤ℤ number }
        requires short { length stem.now ≤ 134217728 }
        ensures named { IfOk result (IsSealedName self.old.keys stem.now (unsigned_abs number)) }
        ensures cannot_open { result ≡ Err CannotNumber.CannotOpen → (parts : List (List ℕ)) → OpensStem self.old.keys stem.now parts → ⊥ }
        ensures keys { self.new.keys ≡ self.old.keys }
        ensures counted { OnOk result (self.new ≡ after_one self.old) }
        ensures unchanged { OnErr result (self.new ≡ self.old) }
    {
        match sealed_name(alloc, &self.keys, stem, number) {
            Ok(Some(text)) => {
                self.issued = self.issued.saturating_add(1);
                Ok(text)
            }
            Ok(None) => Err(CannotNumber::CannotOpen),
            Err(Memory) => Err(CannotNumber::Memory),
        }
    }

    ghost keeps = { λ e. sealed_name_keeps e.keys };

    ghost one = { λ e. one_sealed_name e.keys };
}
