//! The parts of requests that are sealed, and the list of ACLs that is not.

ghost use Rattle.std.specs.Prelude.{◌≡◌, ◌∷◌, [], ◌↔◌, true, IfOk, IsTrue};
ghost use Rattle.std.specs.Option.{option_copied};
ghost use Rattle.zk_path.specs.Paths.{IsNamed, IsPathText, IsStemText, IsTextOf};
ghost use Rattle.path_seal.specs.Sealed.{SealPath};
ghost use Rattle.zk_messages.specs.Refuses.{IsNameFor, IsSequential, open_acl};
ghost use Rattle.zk_messages.specs.Short.{IsShort};
ghost use Rattle.request_rewrite.specs.Names.{IsNameOf};

use jute_core::{Bytes, Memory, Text};
use path_seal::{NameKeys, seal_path};
use std::alloc::Global;
use zk_path::{NotPath, Path, read_path, read_stem};
use zk_records::{Acl, Acls, CreateRequest};

/// A path and the text that it is sealed to.
#[derive(Drop)]
pub(crate) struct Named {
    pub(crate) veiled: Text,
    pub(crate) path: Path,
}

// The path of a legal path's text.
fn legal_path(alloc: Global, text: &Text) -> Result<Path, Memory>
    requires legal { IsPathText text.now }
    requires short { IsShort text.now }
    ensures { IfOk result (λ path. IsTextOf text.now path) }
{
    match read_path(alloc, text.as_str()) {
        Ok(path) => Ok(path),
        Err(NotPath::BadPath { place: _ }) => unreachable!(),
        Err(NotPath::Memory) => Err(Memory),
    }
}

// The stem of a legal stem's text.
#[tactic(auto, unfolding(zk_path::specs::Paths::IsNamed))]
fn legal_stem(alloc: Global, text: &Text) -> Result<Path, Memory>
    requires legal { IsStemText text.now }
    requires short { IsShort text.now }
    ensures { IfOk result (λ stem. IsNamed true text.now stem) }
{
    match read_stem(alloc, text.as_str()) {
        Ok(stem) => Ok(stem),
        Err(NotPath::BadPath { place: _ }) => unreachable!(),
        Err(NotPath::Memory) => Err(Memory),
    }
}

/// The path of a legal path's text, and what it is sealed to.
#[tactic(auto, using(crate::proofs::Naming::names))]
pub(crate) fn veil_path(alloc: Global, keys: &NameKeys, text: &Text) -> Result<Named, Memory>
    requires legal { IsPathText text.now }
    requires short { IsShort text.now }
    ensures named { IfOk result (λ name. IsTextOf text.now name.path) }
    ensures is_sealed { IfOk result (λ name. name.veiled ≡ SealPath keys.now name.path) }
{
    let path = legal_path(alloc, text)?;
    let veiled = seal_path(alloc, keys, &path)?;
    Ok(Named { veiled, path })
}

/// Whether a number will follow the text of a create.
pub(crate) fn is_sequential(create: &CreateRequest) -> bool
    ensures { IsTrue result ↔ IsSequential create.now.flags }
{
    create.flags == 2 || create.flags == 3
}

/// The stem of a sequential create, and the path of another one.
#[tactic(auto, using(crate::proofs::Naming::names))]
pub(crate) fn name_of(
    alloc: Global,
    create: &CreateRequest,
    sequential: bool,
) -> Result<Path, Memory>
    requires legal { IsNameFor create.now.flags create.now.path }
    requires sequential { IsTrue sequential ↔ IsSequential create.now.flags }
    requires short { IsShort create.now.path }
    ensures { IfOk result (λ path. IsNameOf create.now.flags create.now.path sequential path) }
{
    if sequential {
        let stem = legal_stem(alloc, &create.path)?;
        return Ok(stem);
    }
    let path = legal_path(alloc, &create.path)?;
    Ok(path)
}

/// The bytes of a content, or none of null.
pub(crate) fn bytes_of(content: &Option<Bytes>) -> Option<&[u8]>
    ensures { option_copied result ≡ content.now }
{
    match content {
        Some(bytes) => Some(bytes.as_slice()),
        None => None,
    }
}

/// The one list of ACLs that is not refused: anyone may do anything.
pub(crate) fn open_acls(alloc: Global) -> Result<Acls, Memory>
    ensures { IfOk result (λ acls. acls ≡ open_acl ∷ []) }
{
    let acl = Acl {
        perms: 31,
        scheme: Text::copy_of(alloc, "world")?,
        id: Text::copy_of(alloc, "anyone")?,
    };
    Ok(Acls::of(vec![in alloc; acl]?))
}
