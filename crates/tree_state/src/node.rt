//! What is kept of a node.

ghost use Rattle.std.specs.Prelude.{◌≡◌, ◌<◌, pos, min, map, IfOk};
ghost use Rattle.std.specs.String.{string_bytes};
ghost use Rattle.tree_state.specs.Nodes.{greatest_int};
ghost use Rattle.tree_state.specs.Changes.{fresh_numbers, with_content, with_acl};
ghost use Rattle.tree_state.specs.Places.{node_of, IsSmall, IsRoot, kept_stat, counted_length};

use jute_core::{Bytes, Memory, Text, Texts};
use std::alloc::Global;
use std::collections::BTreeSet;
use zk_records::Stat;

/// The zxid and the time in milliseconds of a change, and the session that asked for it.
#[derive(Clone, Copy, Debug, Drop)]
pub struct Moment {
    pub zxid: i64,
    pub time: i64,
    pub session: i64,
}

/// The numbers of a node.
#[derive(Clone, Copy, Debug, Drop)]
pub struct Numbers {
    /// The zxid of its creation.
    pub czxid: i64,
    /// The zxid of the last change of its content.
    pub mzxid: i64,
    /// The zxid of the last change of its children.
    pub pzxid: i64,
    /// The time of its creation, in milliseconds.
    pub ctime: i64,
    /// The time of the last change of its content, in milliseconds.
    pub mtime: i64,
    /// How often its content was changed.
    pub version: u32,
    /// How many children were made.
    pub creations: u32,
    /// How many of them were removed.
    pub deletions: u32,
    /// How often its ACL was changed.
    pub aversion: u32,
    /// The session of an ephemeral, else 0.
    pub owner: i64,
}

/// A node: its content, its numbers and the names of its children.
#[derive(Drop)]
pub struct Node {
    pub content: Option<Bytes>,
    pub numbers: Numbers,
    pub names: BTreeSet<String>,
}

impl Node {
    /// The Stat of the node. Takes no memory.
    #[tactic(auto, unfolding(crate::specs::Places::kept_stat, crate::specs::Nodes::size_of))]
    pub(crate) fn stat(&self) -> Stat
        ensures { IsSmall self.now → result ≡ kept_stat self.now }
    {
        let changes = self
            .numbers
            .creations
            .saturating_add(self.numbers.deletions);
        let length = match &self.content {
            Some(content) => content.len(),
            None => 0,
        };
        Stat {
            czxid: self.numbers.czxid,
            mzxid: self.numbers.mzxid,
            ctime: self.numbers.ctime,
            mtime: self.numbers.mtime,
            version: int(self.numbers.version as usize),
            cversion: int(changes as usize),
            aversion: int(self.numbers.aversion as usize),
            owner: self.numbers.owner,
            length: int(length),
            children: int(self.names.len()),
            pzxid: self.numbers.pzxid,
        }
    }

    /// Takes this content at this moment, and counts that.
    #[tactic(auto, unfolding(crate::specs::Places::node_of, crate::specs::Changes::with_content))]
    pub(crate) fn set_content(&mut self, content: Option<Bytes>, at: &Moment)
        ensures plain { self.old.numbers.version < greatest_int → node_of self.new ≡ with_content at.now content (node_of self.old) }
        ensures names { self.new.names.keys ≡ self.old.names.keys }
    {
        self.content = content;
        self.numbers.mzxid = at.zxid;
        self.numbers.mtime = at.time;
        self.numbers.version = self.numbers.version.saturating_add(1);
    }

    /// Counts a change of the ACL.
    #[tactic(auto, unfolding(crate::specs::Places::node_of, crate::specs::Changes::with_acl))]
    pub(crate) fn count_acl(&mut self)
        ensures plain { self.old.numbers.aversion < greatest_int → node_of self.new ≡ with_acl (node_of self.old) }
        ensures names { self.new.names.keys ≡ self.old.names.keys }
    {
        self.numbers.aversion = self.numbers.aversion.saturating_add(1);
    }

    /// A copy of the content.
    pub(crate) fn content(&self, alloc: Global) -> Result<Option<Bytes>, Memory>
        ensures { IfOk result (λ content. content ≡ self.now.content) }
    {
        match &self.content {
            Some(content) => Ok(Some(Bytes::copy_of(alloc, content.as_slice())?)),
            None => Ok(None),
        }
    }

    /// A copy.
    #[tactic(auto, using(crate::proofs::CopiedMaps::same_texts), unfolding(crate::specs::Places::node_of))]
    pub(crate) fn copy(&self, alloc: Global) -> Result<Node, Memory>
        ensures plain { IfOk result (λ n. node_of n ≡ node_of self.now) }
        ensures names { IfOk result (λ n. map string_bytes n.names.keys ≡ map string_bytes self.now.names.keys) }
    {
        Ok(Node {
            content: self.content(alloc)?,
            numbers: self.numbers,
            names: self.names.clone()?,
        })
    }

    /// The names of the children, in byte order. The cost is linear in their bytes.
    pub(crate) fn child_names(&self, alloc: Global) -> Result<Texts, Memory>
        ensures { IfOk result (λ names. names ≡ map string_bytes self.now.names.keys) }
    {
        let mut names = Vec::new(alloc);
        for name in &self.names {
            names.push(Text::copy_of(alloc, name)?)?;
        }
        Ok(Texts::of(names))
    }

    /// How many bytes these names take in a reply, up to the last `u64`. The cost is linear in their number.
    pub(crate) fn names_length(&self) -> u64
        ensures { result ≡ counted_length (map string_bytes self.now.names.keys) }
    {
        let mut length: u64 = 0;
        for name in &self.names {
            length = length
                .saturating_add(4)
                .saturating_add(name.as_str().len() as u64);
        }
        length
    }
}

// A count as an int, which ends at the greatest one.
fn int(count: usize) -> i32
    ensures { result ≡ pos (min count greatest_int) }
{
    i32::try_from(count).unwrap_or(i32::MAX)
}

// The root, which has had so many creations.
#[tactic(auto, unfolding(crate::specs::Places::node_of, crate::specs::State::first_numbers, crate::specs::Changes::fresh_numbers))]
pub(crate) fn root(alloc: Global, creations: u32) -> Node
    ensures { IsRoot result creations }
{
    let at = Moment {
        zxid: 0,
        time: 0,
        session: 0,
    };
    let mut numbers = fresh(&at, false);
    numbers.creations = creations;
    Node {
        content: None,
        numbers,
        names: BTreeSet::new(alloc),
    }
}

// The numbers of a node that is made at this moment.
#[tactic(auto, unfolding(crate::specs::Changes::fresh_numbers))]
pub(crate) fn fresh(at: &Moment, ephemeral: bool) -> Numbers
    ensures { result ≡ fresh_numbers at.now ephemeral }
{
    let owner = if ephemeral { at.session } else { 0 };
    Numbers {
        czxid: at.zxid,
        mzxid: at.zxid,
        pzxid: at.zxid,
        ctime: at.time,
        mtime: at.time,
        version: 0,
        creations: 0,
        deletions: 0,
        aversion: 0,
        owner,
    }
}
