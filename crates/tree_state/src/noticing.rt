//! setWatches: at each path an event, where the node changed since what the client has seen, or a watch.

ghost use Rattle.std.specs.Prelude.{◌≡◌, ℤ, not, List, OnOk, OnErr, IfOk};
ghost use Rattle.std.specs.List.{list_any};
ghost use Rattle.std.specs.Option.{option_copied};
ghost use Rattle.zk_path.specs.Paths.{IsTextOf};
ghost use Rattle.tree_state.specs.declared.message.Output.{Output as PlainOutput};
ghost use Rattle.tree_state.specs.declared.node.Moment.{Moment as At};
ghost use Rattle.tree_state.specs.Commands.{AreTextsOf, set_watches};
ghost use Rattle.tree_state.specs.Nodes.{Path, Place};
ghost use Rattle.tree_state.specs.State.{State, Watch, watching, is_same_watch};
ghost use Rattle.tree_state.specs.Changes.{Naming};
ghost use Rattle.tree_state.specs.Step.{Noticed, answer};
ghost use Rattle.tree_state.specs.Places.{Holds};
ghost use Rattle.tree_state.specs.Watches.{Watching, unwatching};
ghost use Rattle.tree_state.specs.Noticing.{watch_of, notice_of, notice_with, plain_node, Forgets, AreNoticed, CanForget, Notices, one_noticed, list_noticed};
ghost use Rattle.tree_state.specs.declared.noticing.Interest.TheVariants.{Content, Existence, Children};
ghost use Rattle.tree_state.specs.Trees.{Means, Answers, HasRoom};

use crate::events::{EventKind, event, make_room};
use crate::held::Held;
use crate::message::Output;
use crate::node::Node;
use crate::places::Places;
use crate::watches::Watches;
use jute_core::{Memory, Texts};
use std::alloc::Global;
use zk_messages::Outcome;
use zk_records::SetWatches;

/// What a client asks of the paths of a list.
#[derive(Clone, Copy, Drop)]
pub enum Interest {
    /// Whether the content is still what it has seen.
    Content,
    /// Whether there is still no node.
    Existence,
    /// Whether the children are still those that it has seen.
    Children,
}

/// A watch that was added.
#[derive(Clone, Copy, Drop)]
pub struct Added<'a> {
    pub interest: Interest,
    pub path: &'a str,
}

// Who asks, and the zxid that it has seen.
#[derive(Clone, Copy, Drop)]
struct Asker {
    alloc: Global,
    connection: u32,
    seen: i64,
}

impl Held {
    // setWatches: the paths of contents, then those of existence, then those of children, in the order of their lists. Room for a
    // reply is made. The cost is that of its paths alone. Without memory all is as it was.
    pub(crate) fn set_watches(
        &mut self,
        alloc: Global,
        asked: &SetWatches,
        connection: u32,
        outputs: &mut Vec<Output>,
    ) -> Result<Outcome, Memory>
        ensures { (naming : Naming) (at : At) (s : State) (contents exist childs : List Path) → Means self.old s
            → AreTextsOf asked.now.content_paths contents → AreTextsOf asked.now.exist_paths exist → AreTextsOf asked.now.child_paths childs
            → Answers s (answer naming at connection s (set_watches asked.now.seen contents exist childs)) self.new outputs.old outputs.new result }
    {
        let asker = Asker {
            alloc,
            connection,
            seen: asked.seen,
        };
        let mut added = Vec::new(alloc);
        match notice_all(
            &self.places,
            &mut self.watches,
            &asker,
            asked,
            outputs,
            &mut added,
        ) {
            Ok(()) => Ok(Outcome::Empty),
            Err(memory) => {
                forget(&mut self.watches, &asker, added);
                Err(memory)
            }
        }
    }
}

// The notices of all paths, and room for a reply. The watches that are new are added to the list.
fn notice_all<'a>(
    places: &Places,
    watches: &mut Watches,
    asker: &Asker,
    asked: &'a SetWatches,
    outputs: &mut Vec<Output>,
    added: &mut Vec<Added<'a>>,
) -> Result<(), Memory>
    ensures notices { (es : List Place) (start : List Watch) (told : List PlainOutput) (t : Noticed) (contents exist childs : List Path) → Holds places.now es
        → AreTextsOf asked.now.content_paths contents → AreTextsOf asked.now.exist_paths exist → AreTextsOf asked.now.child_paths childs
        → AreNoticed asker.now.connection start told t watches.old added.old.items outputs.old.items
        → Notices asker.now.connection start told
        (list_noticed Children asker.now.seen es asker.now.connection childs
        (list_noticed Existence asker.now.seen es asker.now.connection exist
        (list_noticed Content asker.now.seen es asker.now.connection contents t)))
        watches.new added.new.items outputs.new.items result }
    ensures room { OnOk result (HasRoom outputs.new) }
{
    let contents = &asked.content_paths;
    let exist = &asked.exist_paths;
    let children = &asked.child_paths;
    notice_list(
        places,
        watches,
        asker,
        Interest::Content,
        contents,
        outputs,
        added,
    )?;
    notice_list(
        places,
        watches,
        asker,
        Interest::Existence,
        exist,
        outputs,
        added,
    )?;
    notice_list(
        places,
        watches,
        asker,
        Interest::Children,
        children,
        outputs,
        added,
    )?;
    make_room(outputs)?;
    Ok(())
}

// The notices of the paths of a list.
fn notice_list<'a>(
    places: &Places,
    watches: &mut Watches,
    asker: &Asker,
    interest: Interest,
    paths: &'a Option<Texts>,
    outputs: &mut Vec<Output>,
    added: &mut Vec<Added<'a>>,
) -> Result<(), Memory>
    ensures { (es : List Place) (start : List Watch) (told : List PlainOutput) (t : Noticed) (ps : List Path) → Holds places.now es
        → AreTextsOf paths.now ps → AreNoticed asker.now.connection start told t watches.old added.old.items outputs.old.items
        → Notices asker.now.connection start told (list_noticed interest asker.now.seen es asker.now.connection ps t) watches.new added.new.items outputs.new.items result }
{
    let Some(paths) = paths else {
        return Ok(());
    };
    for path in paths.as_slice() {
        notice_path(
            places,
            watches,
            asker,
            interest,
            path.as_str(),
            outputs,
            added,
        )?;
    }
    Ok(())
}

// The notice of one path.
fn notice_path<'a>(
    places: &Places,
    watches: &mut Watches,
    asker: &Asker,
    interest: Interest,
    path: &'a str,
    outputs: &mut Vec<Output>,
    added: &mut Vec<Added<'a>>,
) -> Result<(), Memory>
    ensures { (es : List Place) (start : List Watch) (told : List PlainOutput) (t : Noticed) (p : Path) → Holds places.now es
        → IsTextOf path.now p → AreNoticed asker.now.connection start told t watches.old added.old.items outputs.old.items
        → Notices asker.now.connection start told (one_noticed interest asker.now.seen es asker.now.connection p t) watches.new added.new.items outputs.new.items result }
{
    match notice(interest, places.find(path), asker) {
        Some(kind) => {
            outputs.push(event(asker.alloc, kind, path, asker.connection)?)?;
            Ok(())
        }
        None => {
            add(watches, asker, interest, path, added)?;
            Ok(())
        }
    }
}

// What is told of a node, or none where it is watched.
fn notice(interest: Interest, node: Option<&Node>, asker: &Asker) -> Option<EventKind>
    ensures { notice_with result ≡ notice_of interest asker.now.seen (plain_node (option_copied node.entry)) }
{
    match interest {
        Interest::Content => content_notice(node, asker),
        Interest::Existence => exist_notice(node),
        Interest::Children => child_notice(node, asker),
    }
}

// What is told of a content: that the node is missing, or was changed since what the client has seen; else it is watched.
#[tactic(auto, unfolding(crate::specs::Noticing::notice_with, crate::specs::Noticing::notice_of, crate::specs::Noticing::plain_node, crate::specs::Watches::number_of, crate::specs::Places::node_of, crate::specs::Step::content_notice))]
fn content_notice(node: Option<&Node>, asker: &Asker) -> Option<EventKind>
    ensures { notice_with result ≡ notice_of Content asker.now.seen (plain_node (option_copied node.entry)) }
{
    match node {
        None => Some(EventKind::Deleted),
        Some(node) if asker.seen < node.numbers.mzxid => Some(EventKind::ContentChanged),
        Some(_) => None,
    }
}

// What is told of a node that was missing: that it is there; else it is watched.
#[tactic(auto, unfolding(crate::specs::Noticing::notice_with, crate::specs::Noticing::notice_of, crate::specs::Noticing::plain_node, crate::specs::Watches::number_of, crate::specs::Places::node_of, crate::specs::Step::exist_notice))]
fn exist_notice(node: Option<&Node>) -> Option<EventKind>
    ensures { (seen : ℤ) → notice_with result ≡ notice_of Existence seen (plain_node (option_copied node.entry)) }
{
    match node {
        None => None,
        Some(_) => Some(EventKind::Created),
    }
}

// What is told of children: that the node is missing, or that its children changed since what the client has seen; else they are
// watched.
#[tactic(auto, unfolding(crate::specs::Noticing::notice_with, crate::specs::Noticing::notice_of, crate::specs::Noticing::plain_node, crate::specs::Watches::number_of, crate::specs::Places::node_of, crate::specs::Step::child_notice))]
fn child_notice(node: Option<&Node>, asker: &Asker) -> Option<EventKind>
    ensures { notice_with result ≡ notice_of Children asker.now.seen (plain_node (option_copied node.entry)) }
{
    match node {
        None => Some(EventKind::Deleted),
        Some(node) if asker.seen < node.numbers.pzxid => Some(EventKind::ChildrenChanged),
        Some(_) => None,
    }
}

// A watch, which is listed where it is new. Without memory all is as it was.
fn add<'a>(
    watches: &mut Watches,
    asker: &Asker,
    interest: Interest,
    path: &'a str,
    added: &mut Vec<Added<'a>>,
) -> Result<(), Memory>
    ensures ok { OnOk result ((ws : List Watch) (p : Path) → Watching watches.old ws → IsTextOf path.now p
        → Watching watches.new (watching (watch_of interest p asker.now.connection) ws)) }
    ensures back { OnOk result ((ws start : List Watch) (p : Path) → Watching watches.old ws → IsTextOf path.now p
        → Forgets asker.now.connection added.old.items ws start
        → Forgets asker.now.connection added.new.items (watching (watch_of interest p asker.now.connection) ws) start) }
    ensures err { OnErr result ((ws : List Watch) → Watching watches.old ws → Watching watches.new ws) }
    ensures list { OnErr result (added.new.items ≡ added.old.items) }
{
    added.reserve(1)?;
    if watch(watches, asker, interest, path)? {
        added.push_reserved(Added { interest, path });
    }
    Ok(())
}

// A watch. The answer says whether it is new. Without memory all is as it was.
#[tactic(auto, unfolding(crate::specs::Noticing::aspect_of))]
fn watch(
    watches: &mut Watches,
    asker: &Asker,
    interest: Interest,
    path: &str,
) -> Result<bool, Memory>
    ensures ok { OnOk result ((ws : List Watch) (p : Path) → Watching watches.old ws → IsTextOf path.now p
        → Watching watches.new (watching (watch_of interest p asker.now.connection) ws)) }
    ensures new { IfOk result (λ new. (ws : List Watch) (p : Path) → Watching watches.old ws → IsTextOf path.now p
        → new ≡ not (list_any (is_same_watch (watch_of interest p asker.now.connection)) ws)) }
    ensures err { OnErr result ((ws : List Watch) → Watching watches.old ws → Watching watches.new ws) }
{
    match interest {
        Interest::Content | Interest::Existence => watches.watch_content(
            asker.alloc,
            path,
            asker.connection,
        ),
        Interest::Children => watches.watch_children(asker.alloc, path, asker.connection),
    }
}

// Takes out the watches that were added, the last of them first. Takes no memory.
fn forget(watches: &mut Watches, asker: &Asker, added: Vec<Added<'_>>)
    ensures { (start : List Watch) → CanForget asker.now.connection start watches.old added.entry.items → Watching watches.new start }
{
    let mut rest = added;
    while let Some(watch) = rest.pop() {
        unwatch(watches, asker, &watch);
    }
}

// Takes out a watch. Takes no memory.
#[tactic(auto, unfolding(crate::specs::Noticing::aspect_of))]
fn unwatch(watches: &mut Watches, asker: &Asker, added: &Added<'_>)
    ensures { (ws : List Watch) (p : Path) → Watching watches.old ws → IsTextOf added.now.path.now p
        → Watching watches.new (unwatching (watch_of added.now.interest p asker.now.connection) ws) }
{
    match added.interest {
        Interest::Content | Interest::Existence => watches.forget_content(
            added.path,
            asker.connection,
        ),
        Interest::Children => watches.forget_children(added.path, asker.connection),
    }
}
