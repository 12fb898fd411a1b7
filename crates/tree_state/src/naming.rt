//! The row of create and create2, which asks a numberer for the names of sequential nodes.

ghost use Rattle.std.specs.Prelude.{◌≡◌, ◌<◌, ◌≤◌, ◌↔◌, ℕ, List, length, Bool, Option, IfOk, IfSome, IsTrue, OnOk, OnErr};
ghost use Rattle.zk_messages.specs.Refuses.{IsSequential};
ghost use Rattle.tree_state.specs.Commands.{IsCreate, IsEphemeral, create};
ghost use Rattle.tree_state.specs.Nodes.{Path, greatest_int};
ghost use Rattle.tree_state.specs.State.{State};
ghost use Rattle.tree_state.specs.Changes.{Naming, perform};
ghost use Rattle.tree_state.specs.Places.{text_limit};
ghost use Rattle.tree_state.specs.Trees.{Means, Stays, Performs, HasRoom, RefusesQuietly, IsMoment, IsNaming, IsNamedTo, name_at};
ghost use Rattle.zk_messages.specs.Short.{IsShort, IsShortContent};

use crate::held::{Held, NotDone};
use crate::message::Output;
use crate::node::Moment;
use crate::texts::parts;
use jute_core::{Memory, Text};
use std::alloc::Global;
use zk_messages::OpResult;
use zk_path::{CannotNumber, Numberer};
use zk_records::CreateRequest;

const BAD_ARGUMENTS: i32 = -8;

impl Held {
    // The row of create, and with a Stat of create2. The numberer may give a number also where nothing is made.
    pub(crate) fn make<N: Numberer>(
        &mut self,
        alloc: Global,
        numberer: &mut N,
        asked: &CreateRequest,
        stat: bool,
        at: &Moment,
        outputs: &mut Vec<Output>,
    ) -> Result<OpResult, NotDone>
        requires path { IsShort asked.now.path }
        requires content { IsShortContent asked.now.content }
        ensures performs { (naming : Naming) (s : State) (p : Path) (n : List ℕ) (content : Option (List ℕ)) (sequential ephemeral : Bool) → Means self.old s → IsMoment s at.now
            → IsNaming (N.named numberer.old) naming → IsCreate asked.now p n content sequential ephemeral
            → Performs s (perform naming at.now s (create p n content sequential ephemeral stat)) self.new outputs.old outputs.new result }
        ensures room { OnOk result (HasRoom outputs.new) }
        ensures kept { OnErr result (Stays self.old self.new) }
        ensures quiet { RefusesQuietly result outputs.old outputs.new }
        ensures names { (stem : List ℕ) (number : ℕ) (text : List ℕ) → N.named numberer.new stem number text ↔ N.named numberer.old stem number text }
    {
        let (parent, _) = parts(asked.path.as_str());
        let creations = match self.may_create(parent) {
            Ok(creations) => creations,
            Err(code) => return Err(NotDone::Refused { code }),
        };
        let Some(path) = name(alloc, numberer, asked, creations)? else {
            return Err(NotDone::Refused {
                code: BAD_ARGUMENTS,
            });
        };
        let ephemeral = is_ephemeral(asked);
        self.create(
            alloc,
            path.as_str(),
            &asked.content,
            ephemeral,
            stat,
            at,
            outputs,
        )
    }
}

// The path of a new node; None where the numberer has no name.
fn name<N: Numberer>(
    alloc: Global,
    numberer: &mut N,
    asked: &CreateRequest,
    creations: u32,
) -> Result<Option<Text>, Memory>
    requires path { IsShort asked.now.path }
    requires room { creations < greatest_int }
    ensures named { IfOk result (λ path. (naming : Naming) (p : Path) (n : List ℕ) (content : Option (List ℕ)) (sequential ephemeral : Bool)
        → IsNaming (N.named numberer.old) naming → IsCreate asked.now p n content sequential ephemeral
        → IsNamedTo p path (name_at naming p n sequential creations)) }
    ensures short { IfOk result (λ path. IfSome path (λ text. length text ≤ text_limit)) }
    ensures names { (stem : List ℕ) (number : ℕ) (text : List ℕ) → N.named numberer.new stem number text ↔ N.named numberer.old stem number text }
{
    let path = asked.path.as_str();
    if !is_sequential(asked) {
        return Ok(Some(Text::copy_of(alloc, path)?));
    }
    match numberer.number(alloc, path, creations as i32) {
        Ok(text) => Ok(Some(text)),
        Err(CannotNumber::CannotOpen) => Ok(None),
        Err(CannotNumber::Memory) => Err(Memory),
    }
}

// Whether a number is asked for.
fn is_sequential(asked: &CreateRequest) -> bool
    ensures { IsTrue result ↔ IsSequential asked.now.flags }
{
    asked.flags == 2 || asked.flags == 3
}

// Whether the node will belong to its session.
fn is_ephemeral(asked: &CreateRequest) -> bool
    ensures { IsTrue result ↔ IsEphemeral asked.now.flags }
{
    asked.flags == 1 || asked.flags == 3
}
