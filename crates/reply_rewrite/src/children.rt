//! The names of a node's children.

ghost use Rattle.std.specs.Prelude.{◌≡◌, ◌⊎◌, ◌↔◌, ◌<◌, ◌^◌, ℕ, List, length, All, IfOk, IfErr, IfSome, IfNone};
ghost use Rattle.path_seal.specs.Sealed.{OpensName};
ghost use Rattle.path_seal.specs.Under.{IsUnder};
ghost use Rattle.reply_rewrite.specs.Caused.{IsCausedBy};
ghost use Rattle.reply_rewrite.specs.Children.{AreGoodBefore, AreOpened, IsNamesCause, IsListCause, IsPlainList};
ghost use Rattle.reply_rewrite.specs.Turns.{IsAdded};
ghost use Rattle.request_queue.specs.Short.{IsShortPath};
ghost use Rattle.zk_messages.specs.Short.{IsShort};
ghost use Rattle.reply_rewrite.specs.Short.{AreShortNames};

use crate::finding::{Cause, NotPlain};
use crate::name_set::NameSet;
use jute_core::{Memory, Text, Texts};
use path_seal::{NameKeys, NamesUnder};
use std::alloc::Global;
use zk_path::Path;

// What became of a stored name.
#[derive(Clone, Copy, Drop)]
enum Added {
    // It opens to a name that the set did not have.
    New,
    // It opens to a name that the set has.
    Known,
    // It does not open.
    Unopened,
}

// The name that a text opens to under the path for which `under` was made.
#[tactic(auto, using(crate::proofs::Under::unders))]
fn open_under(
    alloc: Global,
    keys: &NameKeys,
    path: &Path,
    under: &NamesUnder,
    text: &str,
) -> Result<Option<Text>, Memory>
    requires under { IsUnder keys.now path.now under.now }
    requires path { IsShortPath path.now }
    requires text { IsShort text.now }
    ensures some { IfOk result (λ found. IfSome found (OpensName keys.now path.now text.now)) }
    ensures none { IfOk result (λ found. IfNone found ((n : List ℕ) → OpensName keys.now path.now text.now n → ⊥)) }
{
    let found = under.open(alloc, keys, text)?;
    Ok(found)
}

// Opens a name, and puts it into the set.
#[tactic(auto, using(crate::proofs::Opening::opening))]
fn add_opened(
    alloc: Global,
    keys: &NameKeys,
    path: &Path,
    under: &NamesUnder,
    text: &Text,
    names: &mut NameSet,
) -> Result<Added, Memory>
    requires under { IsUnder keys.now path.now under.now }
    requires path { IsShortPath path.now }
    requires text { IsShort text.now }
    ensures { IfOk result (IsAdded keys.now path.now text.now names.old names.new) }
{
    let Some(name) = open_under(alloc, keys, path, under, text.as_str())? else {
        return Ok(Added::Unopened);
    };
    if names.insert(String::from_str(alloc, name.as_str())?)? {
        Ok(Added::New)
    } else {
        Ok(Added::Known)
    }
}

// The names that the stored ones open to.
#[tactic(auto, using(crate::proofs::Opening::opening))]
fn opened_set(
    alloc: Global,
    keys: &NameKeys,
    path: &Path,
    under: &NamesUnder,
    stored: &[Text],
) -> Result<NameSet, NotPlain>
    requires under { IsUnder keys.now path.now under.now }
    requires path { IsShortPath path.now }
    requires few { length stored.now < 2 ^ 32 }
    requires short { All IsShort stored.now }
    ensures good { IfOk result (λ names. AreGoodBefore keys.now path.now stored.now (length stored.now)) }
    ensures opened { IfOk result (AreOpened keys.now path.now stored.now (length stored.now)) }
    ensures cause { IfErr result (IsCausedBy (IsNamesCause keys.now path.now stored.now)) }
{
    keys.are_keys();
    let mut names = NameSet::new(alloc);
    for (index, text) in stored.iter().enumerate() {
        let index = index as u32;
        match add_opened(alloc, keys, path, under, text, &mut names)? {
            Added::New => {}
            Added::Known => return Err(NotPlain::Caused(Cause::Doubled { index })),
            Added::Unopened => return Err(NotPlain::Caused(Cause::Child { index })),
        }
    }
    Ok(names)
}

/// The plain names of children, in byte order. What depends on the path alone is made once, and each name is opened once, in
/// time linear in the name; to order n of them takes time n log n.
#[tactic(auto, using(crate::proofs::Opening::opening), unfolding(crate::specs::Children::IsPlainList, crate::specs::Children::IsListCause))]
pub(crate) fn unveil_children(
    alloc: Global,
    keys: &NameKeys,
    path: &Path,
    stored: &Option<Texts>,
) -> Result<Option<Texts>, NotPlain>
    requires path { IsShortPath path.now }
    requires short { AreShortNames stored.now }
    ensures plain { IfOk result (IsPlainList keys.now path.now stored.now) }
    ensures cause { IfErr result (IsCausedBy (IsListCause keys.now path.now stored.now)) }
{
    let Some(stored) = stored else {
        return Err(NotPlain::Caused(Cause::NullChildren));
    };
    let under = NamesUnder::new(keys, path);
    let names = opened_set(alloc, keys, path, &under, stored.as_slice())?;
    let names = names.into_texts(alloc)?;
    Ok(Some(names))
}
