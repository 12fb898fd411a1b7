//! The records of requests, sealed.

ghost use Rattle.std.specs.Prelude.{◌≡◌, ◌<◌, ◌∷◌, [], None, length, IfOk};
ghost use Rattle.payload_seal.specs.Keys.{epoch_of};
ghost use Rattle.payload_seal.specs.Payload.{SealData};
ghost use Rattle.path_seal.specs.Sealed.{SealPath};
ghost use Rattle.zk_path.specs.Paths.{IsPathText, IsTextOf};
ghost use Rattle.zk_messages.specs.Refuses.{RefusesCreate, RefusesSetAcl};
ghost use Rattle.request_rewrite.specs.Names.{IsNameOf};
ghost use Rattle.zk_messages.specs.Short.{IsShort, IsShortContent};
ghost use Rattle.request_rewrite.specs.Veil.{VeilsCreate, VeilsSetContent, VeilsDelete, VeilsCheck};
ghost use Rattle.request_rewrite.specs.Veil.{VeilsPathWatch, VeilsPathOnly, VeilsSetAcl};

use crate::names::{bytes_of, is_sequential, name_of, open_acls, veil_path};
use jute_core::{Bytes, Memory, Text};
use path_seal::{NameKeys, seal_path};
use payload_seal::{EntryKeys, seal_data};
use std::alloc::Global;
use zk_path::Path;
use zk_records::{
    CheckRequest, CreateRequest, DeleteRequest, PathOnly, PathWatch, SetAclRequest,
    SetContentRequest,
};

/// A create or a create2 that is sealed, and what it was to make: a stem where it is sequential.
#[derive(Drop)]
pub(crate) struct VeiledCreate {
    pub(crate) create: CreateRequest,
    pub(crate) path: Path,
    pub(crate) sequential: bool,
}

// What a create or a create2 was to make, a stem where it is sequential; the sealed text of that, and the sealed content.
#[derive(Drop)]
struct SealedParts {
    veiled: Text,
    content: Bytes,
    path: Path,
    sequential: bool,
}

// Under this IV. A null content is sealed too, so that a store cannot tell.
#[tactic(auto, using(crate::proofs::Naming::names, crate::proofs::Allowed::allowed))]
fn seal_parts(
    alloc: Global,
    keys: &EntryKeys,
    iv: [u8; 12],
    create: &CreateRequest,
) -> Result<SealedParts, Memory>
    requires epoch { epoch_of iv < length keys.now.payloads }
    requires allowed { RefusesCreate create.now None }
    requires path { IsShort create.now.path }
    requires content { IsShortContent create.now.content }
    ensures named { IfOk result (λ x. IsNameOf create.now.flags create.now.path x.sequential x.path) }
    ensures veiled { IfOk result (λ x. x.veiled ≡ SealPath keys.now.names x.path) }
    ensures content { IfOk result (λ x. x.content ≡ SealData keys.now.payloads iv x.path x.sequential create.now.content) }
{
    let sequential = is_sequential(create);
    let path = name_of(alloc, create, sequential)?;
    let plain = bytes_of(&create.content);
    let content = seal_data(alloc, &keys.payloads, iv, &path, sequential, plain)?;
    let veiled = seal_path(alloc, &keys.names, &path)?;
    Ok(SealedParts {
        veiled,
        content,
        path,
        sequential,
    })
}

/// A create or a create2 sealed under this IV. Its ACLs move.
#[tactic(auto, using(crate::proofs::Sealing::sealings))]
pub(crate) fn veil_create(
    alloc: Global,
    keys: &EntryKeys,
    iv: [u8; 12],
    create: CreateRequest,
) -> Result<VeiledCreate, Memory>
    requires epoch { epoch_of iv < length keys.now.payloads }
    requires allowed { RefusesCreate create None }
    requires path { IsShort create.path }
    requires content { IsShortContent create.content }
    ensures veiled { IfOk result (λ x. VeilsCreate keys.now (iv ∷ []) create x.create) }
    ensures named { IfOk result (λ x. IsNameOf create.flags create.path x.sequential x.path) }
{
    let parts = seal_parts(alloc, keys, iv, &create)?;
    let veiled = CreateRequest {
        path: parts.veiled,
        content: Some(parts.content),
        acls: create.acls,
        flags: create.flags,
    };
    Ok(VeiledCreate {
        create: veiled,
        path: parts.path,
        sequential: parts.sequential,
    })
}

/// The same of one that stays where it is, as those of a multi.
#[tactic(auto, using(crate::proofs::Allowed::allowed, crate::proofs::Sealing::sealings))]
pub(crate) fn veil_create_op(
    alloc: Global,
    keys: &EntryKeys,
    iv: [u8; 12],
    request: &CreateRequest,
) -> Result<VeiledCreate, Memory>
    requires epoch { epoch_of iv < length keys.now.payloads }
    requires allowed { RefusesCreate request.now None }
    requires path { IsShort request.now.path }
    requires content { IsShortContent request.now.content }
    ensures veiled { IfOk result (λ x. VeilsCreate keys.now (iv ∷ []) request.now x.create) }
    ensures named { IfOk result (λ x. IsNameOf request.now.flags request.now.path x.sequential x.path) }
{
    let parts = seal_parts(alloc, keys, iv, request)?;
    let veiled = CreateRequest {
        path: parts.veiled,
        content: Some(parts.content),
        acls: Some(open_acls(alloc)?),
        flags: request.flags,
    };
    Ok(VeiledCreate {
        create: veiled,
        path: parts.path,
        sequential: parts.sequential,
    })
}

/// A setData sealed under this IV, and its path.
#[tactic(auto, using(crate::proofs::Naming::names, crate::proofs::Sealing::sealings))]
pub(crate) fn veil_set_content(
    alloc: Global,
    keys: &EntryKeys,
    iv: [u8; 12],
    request: &SetContentRequest,
) -> Result<(SetContentRequest, Path), Memory>
    requires epoch { epoch_of iv < length keys.now.payloads }
    requires legal { IsPathText request.now.path }
    requires path { IsShort request.now.path }
    requires content { IsShortContent request.now.content }
    ensures veiled { IfOk result (λ x. VeilsSetContent keys.now (iv ∷ []) request.now x.0) }
    ensures named { IfOk result (λ x. IsTextOf request.now.path x.1) }
{
    let name = veil_path(alloc, &keys.names, &request.path)?;
    let plain = bytes_of(&request.content);
    let content = seal_data(alloc, &keys.payloads, iv, &name.path, false, plain)?;
    let veiled = SetContentRequest {
        path: name.veiled,
        content: Some(content),
        version: request.version,
    };
    Ok((veiled, name.path))
}

#[tactic(auto, using(crate::proofs::Naming::names, crate::proofs::Sealing::sealings))]
pub(crate) fn veil_delete(
    alloc: Global,
    keys: &NameKeys,
    request: &DeleteRequest,
) -> Result<DeleteRequest, Memory>
    requires legal { IsPathText request.now.path }
    requires short { IsShort request.now.path }
    ensures { IfOk result (VeilsDelete keys.now request.now) }
{
    let name = veil_path(alloc, keys, &request.path)?;
    Ok(DeleteRequest {
        path: name.veiled,
        version: request.version,
    })
}

#[tactic(auto, using(crate::proofs::Naming::names, crate::proofs::Sealing::sealings))]
pub(crate) fn veil_check(
    alloc: Global,
    keys: &NameKeys,
    request: &CheckRequest,
) -> Result<CheckRequest, Memory>
    requires legal { IsPathText request.now.path }
    requires short { IsShort request.now.path }
    ensures { IfOk result (VeilsCheck keys.now request.now) }
{
    let name = veil_path(alloc, keys, &request.path)?;
    Ok(CheckRequest {
        path: name.veiled,
        version: request.version,
    })
}

/// An exists, getData, getChildren or getChildren2 sealed, and its path.
#[tactic(auto, using(crate::proofs::Naming::names, crate::proofs::Sealing::sealings))]
pub(crate) fn veil_path_watch(
    alloc: Global,
    keys: &NameKeys,
    request: &PathWatch,
) -> Result<(PathWatch, Path), Memory>
    requires legal { IsPathText request.now.path }
    requires short { IsShort request.now.path }
    ensures veiled { IfOk result (λ x. VeilsPathWatch keys.now request.now x.0) }
    ensures named { IfOk result (λ x. IsTextOf request.now.path x.1) }
{
    let name = veil_path(alloc, keys, &request.path)?;
    let veiled = PathWatch {
        path: name.veiled,
        watch: request.watch,
    };
    Ok((veiled, name.path))
}

/// A getACL or a sync sealed, and its path.
#[tactic(auto, using(crate::proofs::Naming::names, crate::proofs::Sealing::sealings))]
pub(crate) fn veil_path_only(
    alloc: Global,
    keys: &NameKeys,
    request: &PathOnly,
) -> Result<(PathOnly, Path), Memory>
    requires legal { IsPathText request.now.path }
    requires short { IsShort request.now.path }
    ensures veiled { IfOk result (λ x. VeilsPathOnly keys.now request.now x.0) }
    ensures named { IfOk result (λ x. IsTextOf request.now.path x.1) }
{
    let name = veil_path(alloc, keys, &request.path)?;
    let veiled = PathOnly { path: name.veiled };
    Ok((veiled, name.path))
}

/// A setACL sealed, and its path. Its ACLs move.
#[tactic(auto, using(crate::proofs::Naming::names, crate::proofs::Allowed::allowed, crate::proofs::Sealing::sealings))]
pub(crate) fn veil_set_acl(
    alloc: Global,
    keys: &NameKeys,
    request: SetAclRequest,
) -> Result<(SetAclRequest, Path), Memory>
    requires allowed { RefusesSetAcl request None }
    requires short { IsShort request.path }
    ensures veiled { IfOk result (λ x. VeilsSetAcl keys.now request x.0) }
    ensures named { IfOk result (λ x. IsTextOf request.path x.1) }
{
    let name = veil_path(alloc, keys, &request.path)?;
    let veiled = SetAclRequest {
        path: name.veiled,
        acls: request.acls,
        version: request.version,
    };
    Ok((veiled, name.path))
}
