//! The live sessions and their connections.

ghost use Rattle.std.specs.Prelude.{◌≡◌, ◌<ℤ◌, ℕ, ℤ, pos, List, [], ◌∷◌, ◌++◌, Bool, true, false, Some, None, is_some, map, filter, IfOk, IfErr, IfSome, IsSome, OnOk, OnErr};
ghost use Rattle.std.specs.BTreeMap.{Updates, get};
ghost use Rattle.std.specs.Option.{option_map};
ghost use Rattle.std.specs.Ordering.{nat_cmp};
ghost use Rattle.std.specs.String.{string_bytes};
ghost use Rattle.zk_path.specs.Paths.{text_of, IsTextOf};
ghost use Rattle.tree_state.specs.Nodes.{Path};
ghost use Rattle.tree_state.specs.State.{Session as PlainSession, session_of, session_at, change_session, heard_at, without_session, without_connection};
ghost use Rattle.tree_state.specs.Step.{connection_at, given_to, is_password_of, no_session as nothing_given, with_session, with_moved};
ghost use Rattle.tree_state.specs.Sessions.{Keeps, AreBelow, IsLiveOn, Owning, live_of, session_at_key, with_owned, without_owned, is_other_text, OwnTexts, HasRoomFor, IsCopy};

use jute_core::Memory;
use std::alloc::Global;
use std::collections::BTreeMap;
use zk_records::ConnectRequest;

/// What a connect is given: a session, its timeout in milliseconds, and its password. Session 0 is none.
#[derive(Clone, Copy, Debug, Drop)]
pub struct Given {
    pub session: i64,
    pub timeout: i32,
    pub password: [u8; 16],
}

/// What a live session shows: its timeout in milliseconds, the time in milliseconds at which it was last heard, and its connection, if
/// it has one.
#[derive(Clone, Copy, Debug, Drop)]
pub struct LiveSession {
    pub timeout: i32,
    pub heard: i64,
    pub connection: Option<u32>,
}

/// A live session: its timeout in milliseconds, its password, the time at which it was last heard, its connection, and the
/// paths of its ephemeral nodes in the order in which they were made.
#[derive(Drop)]
pub struct Session {
    pub timeout: i32,
    pub password: [u8; 16],
    pub heard: i64,
    pub connection: Option<u32>,
    pub ephemerals: Vec<String>,
}

/// The live sessions by their numbers, and the session of each connection that has one. Either is found in time that grows
/// with the logarithm of their number.
#[derive(Drop)]
pub struct Sessions {
    pub live: BTreeMap<i64, Session>,
    pub connections: BTreeMap<u32, i64>,
}

impl Sessions {
    /// No session. Takes no memory.
    pub(crate) fn new(alloc: Global) -> Sessions
        ensures { (owned : Owning) → Keeps result [] owned }
    {
        Sessions {
            live: BTreeMap::new(alloc),
            connections: BTreeMap::new(alloc),
        }
    }

    /// A copy. The cost is linear in what is kept, but for a logarithm of the number of sessions.
    pub(crate) fn copy(&self, alloc: Global) -> Result<Sessions, Memory>
        ensures { IfOk result (λ t. (xs : List PlainSession) (owned : Owning) → Keeps self.now xs owned → Keeps t xs owned) }
    {
        let mut live = BTreeMap::new(alloc);
        for (number, session) in &self.live {
            live.insert(*number, session.copy()?)?;
        }
        Ok(Sessions {
            live,
            connections: self.connections.clone()?,
        })
    }

    /// The session of a connection. Takes no memory.
    pub(crate) fn session_of(&self, connection: u32) -> Option<i64>
        ensures { (xs : List PlainSession) (owned : Owning) → Keeps self.now xs owned → result ≡ session_of connection xs }
    {
        self.connections.get(&connection).copied()
    }

    /// Whether the session is live. Takes no memory.
    pub(crate) fn is_live(&self, session: i64) -> bool
        ensures { (xs : List PlainSession) (owned : Owning) → Keeps self.now xs owned → result ≡ is_some (session_at session xs) }
    {
        self.live.contains_key(&session)
    }

    /// The time at which a live session was last heard. Takes no memory.
    pub(crate) fn heard(&self, session: i64) -> i64
        ensures { (xs : List PlainSession) (owned : Owning) (x : PlainSession) → Keeps self.now xs owned → session_at session xs ≡ Some x → result ≡ x.heard }
    {
        match self.live.get(&session) {
            Some(live) => live.heard,
            None => 0,
        }
    }

    /// The session is heard. To hear it again when it was heard before takes that back. Takes no memory.
    pub(crate) fn hear(&mut self, session: i64, now: i64)
        ensures heard { (xs : List PlainSession) (owned : Owning) → Keeps self.old xs owned
            → Keeps self.new (change_session session (heard_at now) xs) owned }
        ensures back { (xs : List PlainSession) (owned : Owning) (x : PlainSession) → Keeps self.old xs owned → session_at session xs ≡ Some x
            → change_session session (heard_at x.heard) (change_session session (heard_at now) xs) ≡ xs }
        ensures on { (xs : List PlainSession) (owned : Owning) (c : ℕ) → Keeps self.old xs owned → session_of c xs ≡ Some session → IsLiveOn xs c session }
    {
        if let Some(live) = self.live.get_mut(&session) {
            live.heard = now;
        }
    }

    /// What a connect request is given, where `fresh` and its password are those of the next session. Takes no memory.
    pub(crate) fn given(&self, asked: &ConnectRequest, fresh: i64, password: [u8; 16]) -> Given
        ensures { (xs : List PlainSession) (owned : Owning) → Keeps self.now xs owned → result ≡ given_to xs asked.now fresh password }
    {
        let timeout = asked.timeout.clamp(4_000, 40_000);
        if asked.session == 0 {
            return Given {
                session: fresh,
                timeout,
                password,
            };
        }
        match self.live.get(&asked.session) {
            Some(live) if live.has_password(asked) => Given {
                session: asked.session,
                timeout,
                password: live.password,
            },
            _ => no_session(),
        }
    }

    /// A new session, above all others, on a connection that has none. Without memory all is as it was.
    pub(crate) fn open(
        &mut self,
        alloc: Global,
        given: &Given,
        now: i64,
        connection: u32,
    ) -> Result<(), Memory>
        ensures ok { OnOk result ((xs : List PlainSession) (owned : Owning) → Keeps self.old xs owned
            → session_of connection xs ≡ None → AreBelow given.now.session xs → owned given.now.session ≡ []
            → Keeps self.new (with_session given.now now connection xs) owned) }
        ensures err { OnErr result ((xs : List PlainSession) (owned : Owning) → Keeps self.old xs owned → Keeps self.new xs owned) }
    {
        let before = self.connections.insert(connection, given.session)?;
        let session = Session {
            timeout: given.timeout,
            password: given.password,
            heard: now,
            connection: Some(connection),
            ephemerals: Vec::new(alloc),
        };
        match self.live.insert(given.session, session) {
            Ok(_) => Ok(()),
            Err(_) => {
                put_back(&mut self.connections, connection, before);
                Err(Memory)
            }
        }
    }

    /// A live session moves to a connection that has none. Without memory all is as it was.
    pub(crate) fn move_to(&mut self, given: &Given, now: i64, connection: u32) -> Result<(), Memory>
        ensures ok { OnOk result ((xs : List PlainSession) (owned : Owning) (x : PlainSession) → Keeps self.old xs owned
            → session_of connection xs ≡ None → session_at given.now.session xs ≡ Some x
            → Keeps self.new (with_moved given.now now connection xs) owned) }
        ensures err { OnErr result ((xs : List PlainSession) (owned : Owning) → Keeps self.old xs owned → Keeps self.new xs owned) }
    {
        self.connections.insert(connection, given.session)?;
        if let Some(live) = self.live.get_mut(&given.session) {
            let before = live.connection.replace(connection);
            live.timeout = given.timeout;
            live.heard = now;
            if let Some(before) = before {
                self.connections.remove(&before);
            }
        }
        Ok(())
    }

    /// A connection is lost; its session stays. Takes no memory.
    pub(crate) fn lose(&mut self, connection: u32)
        ensures { (xs : List PlainSession) (owned : Owning) → Keeps self.old xs owned
            → Keeps self.new (map (without_connection connection) xs) owned }
    {
        let Some(session) = self.connections.remove(&connection) else {
            return;
        };
        if let Some(live) = self.live.get_mut(&session) {
            live.connection = None;
        }
    }

    /// Where a node is ephemeral, makes room for it among those of its session, and a text for its path. With or without memory
    /// the same is kept.
    pub(crate) fn room_for(
        &mut self,
        alloc: Global,
        session: i64,
        path: &str,
        ephemeral: bool,
    ) -> Result<Option<String>, Memory>
        ensures kept { (xs : List PlainSession) (owned : Owning) → Keeps self.old xs owned → Keeps self.new xs owned }
        ensures asked { IfOk result (λ own. is_some own ≡ ephemeral) }
        ensures text { IfOk result (λ own. IfSome own (λ text. string_bytes text ≡ path.now)) }
        ensures room { IfOk result (λ own. IfSome own (λ _. HasRoomFor session self.new)) }
    {
        if !ephemeral {
            return Ok(None);
        }
        let text = path.to_string(alloc)?;
        if let Some(live) = self.live.get_mut(&session) {
            live.ephemerals.reserve(1)?;
        }
        Ok(Some(text))
    }

    /// A session for which there is room makes an ephemeral node. Takes no memory.
    pub(crate) fn own(&mut self, session: i64, path: String)
        requires room { HasRoomFor session self.old }
        ensures { (xs : List PlainSession) (owned : Owning) (p : Path) → Keeps self.old xs owned → IsTextOf (string_bytes path) p
            → Keeps self.new xs (with_owned session p owned) }
    {
        if let Some(live) = self.live.get_mut(&session) {
            live.ephemerals.push_reserved(path);
        }
    }

    /// An ephemeral node of the session goes. The cost grows with the number of its ephemerals. Takes no memory.
    pub(crate) fn disown(&mut self, session: i64, path: &str)
        ensures { (xs : List PlainSession) (owned : Owning) (p : Path) → Keeps self.old xs owned → IsTextOf path.now p
            → Keeps self.new xs (without_owned session p owned) }
    {
        if let Some(live) = self.live.get_mut(&session) {
            remove_text(&mut live.ephemerals, path);
        }
    }

    /// The connection of a session. Takes no memory.
    pub(crate) fn connection_of(&self, session: i64) -> Option<u32>
        ensures { (xs : List PlainSession) (owned : Owning) → Keeps self.now xs owned → result ≡ connection_at (session_at session xs) }
    {
        match self.live.get(&session) {
            Some(live) => live.connection,
            None => None,
        }
    }

    /// The live session with this number. Takes no memory.
    pub(crate) fn session(&self, session: i64) -> Option<LiveSession>
        ensures { (xs : List PlainSession) (owned : Owning) → Keeps self.now xs owned → result ≡ option_map live_of (session_at session xs) }
    {
        match self.live.get(&session) {
            Some(live) => Some(LiveSession {
                timeout: live.timeout,
                heard: live.heard,
                connection: live.connection,
            }),
            None => None,
        }
    }

    /// The paths of a session's ephemerals, in the order in which they were made. Takes no memory.
    pub(crate) fn ephemerals(&self, session: i64) -> &[String]
        ensures { (xs : List PlainSession) (owned : Owning) (x : PlainSession) → Keeps self.now xs owned → session_at session xs ≡ Some x
            → OwnTexts result.now (owned session) }
    {
        match self.live.get(&session) {
            Some(live) => live.ephemerals.as_slice(),
            None => &[],
        }
    }

    /// Ends a session: it goes, and its connection, and the paths of its ephemerals are handed out in the order in which they
    /// were made. Takes no memory.
    pub(crate) fn end(&mut self, alloc: Global, session: i64) -> Vec<String>
        ensures kept { (xs : List PlainSession) (owned : Owning) → Keeps self.old xs owned → Keeps self.new (without_session session xs) owned }
        ensures paths { (xs : List PlainSession) (owned : Owning) (x : PlainSession) → Keeps self.old xs owned → session_at session xs ≡ Some x
            → OwnTexts result.items (owned session) }
    {
        let Some(live) = self.live.remove(&session) else {
            return Vec::new(alloc);
        };
        if let Some(connection) = live.connection {
            self.connections.remove(&connection);
        }
        live.ephemerals
    }
}

impl Session {
    // A copy.
    fn copy(&self) -> Result<Session, Memory>
        ensures { IfOk result (λ x. IsCopy self.now x) }
    {
        Ok(Session {
            timeout: self.timeout,
            password: self.password,
            heard: self.heard,
            connection: self.connection,
            ephemerals: self.ephemerals.clone()?,
        })
    }

    // The request has the password of this session.
    #[tactic(auto, unfolding(crate::specs::Step::is_password_of, crate::specs::Sessions::session_at_key))]
    fn has_password(&self, asked: &ConnectRequest) -> bool
        ensures { (session : ℤ) → result ≡ is_password_of asked.now.password (session_at_key (session, self.now)) }
    {
        match &asked.password {
            Some(password) => self.password.as_slice() == password.as_slice(),
            None => false,
        }
    }
}

// A connection that has a session has again what it had before. Takes no memory.
fn put_back(connections: &mut BTreeMap<u32, i64>, connection: u32, before: Option<i64>)
    ensures { IsSome (get nat_cmp connections.old connection) → Updates nat_cmp connections.old connections.new connection before }
{
    let Some(before) = before else {
        connections.remove(&connection);
        return;
    };
    if let Some(session) = connections.get_mut(&connection) {
        *session = before;
    }
}

// Takes this text out of a list. Takes no memory.
fn remove_text(texts: &mut Vec<String>, text: &str)
    ensures { texts.new.items ≡ filter (is_other_text text.now) texts.old.items }
{
    texts.retain(|kept| kept.as_str() != text);
}

// What a connect is given that gets no session.
#[tactic(auto, unfolding(crate::specs::Step::no_session))]
fn no_session() -> Given
    ensures { result ≡ nothing_given }
{
    Given {
        session: 0,
        timeout: 0,
        password: [0; 16],
    }
}
