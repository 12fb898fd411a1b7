//! The name of a sealed stem and a number.

ghost use Rattle.std.specs.Prelude.{◌≡◌, ℕ, List, ◌∷◌, ◌++◌, pos, ◌≤ℤ◌, ◌≤◌, ◌^◌, length, IfOk, IfSome, IfNone, unsigned_abs};
ghost use Rattle.zk_path.specs.Paths.{text_of};
ghost use Rattle.zk_path.specs.Numbers.{IsPlainName};
ghost use Rattle.path_seal.specs.Sealed.{SealName, OpensStem};
ghost use Rattle.counter_enclave.specs.Enclave.{IsSealedName};

use jute_core::{Memory, Text};
use path_seal::{NameKeys, NamesUnder, open_stem};
use std::alloc::Global;
use zk_path::{Numberer, Path, PlainNumberer};

// A component with the ten digits of a number.
fn with_digits(alloc: Global, name: &str, number: i32) -> Result<Text, Memory>
    requires not_negative { pos 0 ≤ℤ number }
    requires short { length name.now ≤ 134217728 }
    ensures { IfOk result (IsPlainName name.now (unsigned_abs number)) }
{
    match PlainNumberer.number(alloc, name, number) {
        Ok(text) => Ok(text),
        // The plain numberer has a name for every text.
        Err(_) => Err(Memory),
    }
}

// The sealed text of a name under a path, behind the text that the path is sealed to.
fn sealed_under(
    alloc: Global,
    keys: &NameKeys,
    parent: &Path,
    above: &str,
    name: &str,
) -> Result<Text, Memory>
    requires parent { length (text_of parent.now) ≤ 2 ^ 28 }
    requires name { length name.now ≤ 2 ^ 28 }
    ensures { IfOk result (λ text. text ≡ above.now ++ 47 ∷ SealName keys.now parent.now name.now) }
{
    let mut text = String::from_str(alloc, above)?;
    text.push('/')?;
    NamesUnder::new(keys, parent).seal(alloc, keys, name, &mut text)?;
    Ok(Text::of(text))
}

/// The sealed text of a stem's path with the number, for the sealed text of the stem. None exactly
/// where no legal stem is sealed to the text.
///
/// The whole stem is opened. Its last component alone is sealed again: what stands before it stays.
pub(crate) fn sealed_name(
    alloc: Global,
    keys: &NameKeys,
    stem: &str,
    number: i32,
) -> Result<Option<Text>, Memory>
    requires not_negative { pos 0 ≤ℤ number }
    requires short { length stem.now ≤ 134217728 }
    ensures some { IfOk result (λ found. IfSome found (IsSealedName keys.now stem.now (unsigned_abs number))) }
    ensures none { IfOk result (λ found. IfNone found ((parts : List (List ℕ)) → OpensStem keys.now stem.now parts → ⊥)) }
{
    // The name's definition asks for it.
    keys.are_keys();
    let Some(plain) = open_stem(alloc, keys, stem)? else {
        return Ok(None);
    };
    let Some(parent) = plain.parent()? else {
        return Ok(None);
    };
    let Some(last) = plain.last() else {
        return Ok(None);
    };
    let Some((above, _)) = stem.rsplit_once('/') else {
        return Ok(None);
    };
    let name = with_digits(alloc, last, number)?;
    let text = sealed_under(alloc, keys, &parent, above, name.as_str())?;
    Ok(Some(text))
}
