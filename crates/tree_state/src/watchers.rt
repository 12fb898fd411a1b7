//! The watches of one aspect.

ghost use Rattle.std.specs.Prelude.{◌≡◌, ◌==◌, List, [], not, OnOk, OnErr, IfOk};
ghost use Rattle.std.specs.List.{list_any};
ghost use Rattle.std.specs.Option.{option_copied};
ghost use Rattle.zk_path.specs.Paths.{IsTextOf};
ghost use Rattle.tree_state.specs.Nodes.{Path};
ghost use Rattle.tree_state.specs.State.{Aspect, Watch, told, left, left_of_others, watching, is_same_watch};
ghost use Rattle.tree_state.specs.OneWatch.{IsConnectionIn, IsConnectionOut, IsPathIn, IsPathOut, IsSeenAs};
ghost use Rattle.tree_state.specs.Watches.{Ascend, Watched, members, unwatching, watchers_of};

use jute_core::Memory;
use std::alloc::Global;
use std::collections::{BTreeMap, BTreeSet};

/// Who watches which path: the connections of each path, and the paths of each connection. Both are found in time that grows with
/// the logarithm of their number.
#[derive(Drop)]
pub struct Watchers {
    pub by_path: BTreeMap<String, BTreeSet<u32>>,
    pub by_connection: BTreeMap<u32, BTreeSet<String>>,
}

impl Watchers {
    /// No watch. Takes no memory.
    pub(crate) fn new(alloc: Global) -> Watchers
        ensures { (a : Aspect) → Watched result a [] }
    {
        Watchers {
            by_path: BTreeMap::new(alloc),
            by_connection: BTreeMap::new(alloc),
        }
    }

    /// A copy. The cost is linear in what is kept.
    pub(crate) fn copy(&self) -> Result<Watchers, Memory>
        ensures { IfOk result (λ t. (a : Aspect) (ws : List Watch) → Watched self.now a ws → Watched t a ws) }
    {
        Ok(Watchers {
            by_path: self.by_path.clone()?,
            by_connection: self.by_connection.clone()?,
        })
    }

    /// The connections that watch the path with this text. Takes no memory.
    pub(crate) fn of(&self, path: &str) -> Option<&BTreeSet<u32>>
        ensures { (a : Aspect) (ws : List Watch) (p : Path) → Watched self.now a ws → IsTextOf path.now p → members (option_copied result) ≡ told a p ws }
    {
        self.by_path.get(path)
    }

    /// A connection watches the path with this text. The answer says whether it did not before. Without memory all is as it was.
    pub(crate) fn add(&mut self, alloc: Global, path: &str, connection: u32) -> Result<bool, Memory>
        ensures ok { OnOk result ((a : Aspect) (ws : List Watch) (p : Path) → Watched self.old a ws → Ascend ws → IsTextOf path.now p
            → Watched self.new a (watching (record { aspect = a; path = p; connection = connection }) ws)) }
        ensures new { IfOk result (λ new. (a : Aspect) (ws : List Watch) (p : Path) → Watched self.old a ws → IsTextOf path.now p
            → new ≡ not (list_any (is_same_watch (record { aspect = a; path = p; connection = connection })) ws)) }
        ensures err { OnErr result ((a : Aspect) (ws : List Watch) → Watched self.old a ws → Watched self.new a ws) }
    {
        if self.has(path, connection) {
            return Ok(false);
        }
        self.add_path(alloc, path, connection)?;
        match self.add_connection(alloc, path, connection) {
            Ok(()) => Ok(true),
            Err(memory) => {
                self.remove_path(path, connection);
                Err(memory)
            }
        }
    }

    // Whether the connection is among those of the path. Takes no memory.
    fn has(&self, path: &str, connection: u32) -> bool
        ensures { result ≡ list_any (λ d. d == connection) (watchers_of self.now path.now) }
    {
        match self.by_path.get(path) {
            Some(connections) => connections.contains(&connection),
            None => false,
        }
    }

    // The path is among those of the connection.
    fn add_path(&mut self, alloc: Global, path: &str, connection: u32) -> Result<(), Memory>
        ensures ok { OnOk result (IsPathIn self.old self.new path.now connection) }
        ensures err { OnErr result (IsSeenAs self.old self.new) }
    {
        let text = path.to_string(alloc)?;
        if let Some(paths) = self.by_connection.get_mut(&connection) {
            paths.insert(text)?;
            return Ok(());
        }
        let mut paths = BTreeSet::new(alloc);
        paths.insert(text)?;
        self.by_connection.insert(connection, paths)?;
        Ok(())
    }

    // The connection is among those of the path.
    fn add_connection(&mut self, alloc: Global, path: &str, connection: u32) -> Result<(), Memory>
        ensures ok { OnOk result (IsConnectionIn self.old self.new path.now connection) }
        ensures err { OnErr result (IsSeenAs self.old self.new) }
    {
        if let Some(connections) = self.by_path.get_mut(path) {
            connections.insert(connection)?;
            return Ok(());
        }
        let mut connections = BTreeSet::new(alloc);
        connections.insert(connection)?;
        self.by_path.insert(path.to_string(alloc)?, connections)?;
        Ok(())
    }

    // The path is not among those of the connection. Takes no memory.
    fn remove_path(&mut self, path: &str, connection: u32)
        ensures { IsPathOut self.old self.new path.now connection }
    {
        if let Some(paths) = self.by_connection.get_mut(&connection) {
            paths.remove(path);
        }
    }

    // The connection is not among those of the path. A path without connections is not kept. Takes no memory.
    fn remove_connection(&mut self, path: &str, connection: u32)
        ensures { IsConnectionOut self.old self.new path.now connection }
    {
        let Some(connections) = self.by_path.get_mut(path) else {
            return;
        };
        connections.remove(&connection);
        if connections.is_empty() {
            self.by_path.remove(path);
        }
    }

    /// A connection does not watch the path with this text. Takes no memory.
    pub(crate) fn remove(&mut self, path: &str, connection: u32)
        ensures { (a : Aspect) (ws : List Watch) (p : Path) → Watched self.old a ws → IsTextOf path.now p
            → Watched self.new a (unwatching (record { aspect = a; path = p; connection = connection }) ws) }
    {
        self.remove_path(path, connection);
        self.remove_connection(path, connection);
    }

    /// The watches of the path with this text go. The cost is that of its watches alone. Takes no memory.
    pub(crate) fn fire(&mut self, path: &str)
        ensures { (a : Aspect) (ws : List Watch) (p : Path) → Watched self.old a ws → IsTextOf path.now p → Watched self.new a (left a p ws) }
    {
        let Some(connections) = self.by_path.remove(path) else {
            return;
        };
        for connection in &connections {
            self.remove_path(path, *connection);
        }
    }

    /// The watches of a connection go. The cost is that of its watches alone. Takes no memory.
    pub(crate) fn lose(&mut self, connection: u32)
        ensures { (a : Aspect) (ws : List Watch) → Watched self.old a ws → Watched self.new a (left_of_others connection ws) }
    {
        let Some(paths) = self.by_connection.remove(&connection) else {
            return;
        };
        for path in &paths {
            self.remove_connection(path, connection);
        }
    }
}
