//! The order in which a store took what it was sent.

ghost use Rattle.std.specs.Prelude.{◌≡◌, length, slice_get};
ghost use Rattle.std.specs.Option.{option_copied};

use std::marker::Model;
use zk_messages::Request;
use zk_records::ConnectRequest;

/// One entry of the order in which a store took what its connections sent, lost and outlived.
///
/// `zxid` is the last zxid after the entry, and `now` the store's time in milliseconds at which it came.
#[derive(Debug, Drop)]
pub enum Entry {
    /// A connect request, and the session, timeout in milliseconds and password that it was given.
    Connect {
        connection: u32,
        asked: ConnectRequest,
        session: i64,
        timeout: i32,
        password: [u8; 16],
        zxid: i64,
        now: i64,
    },
    /// A request.
    Take {
        connection: u32,
        xid: i32,
        request: Request,
        zxid: i64,
        now: i64,
    },
    /// The loss of a connection that had a session. The session stays.
    Lost {
        connection: u32,
    },
    /// The end of a session that was not heard in time.
    Expire {
        session: i64,
        zxid: i64,
        now: i64,
    },
}

/// A list of entries.
#[derive(Debug, Drop)]
pub struct Entries {
    held: Vec<Entry>,
}

impl Model for Entries {
    ghost use Rattle.std.specs.Prelude.{List};
    ghost use Rattle.store_side.specs.declared.entry.Entry.{Entry};

    ghost Value = { List Entry };

    ghost view = { λ e. e.held.items };
}

impl Entries {
    /// The list of these items.
    pub fn of(items: Vec<Entry>) -> Entries
        ensures { result ≡ items.items }
    {
        Entries { held: items }
    }

    /// The items, lent.
    pub fn as_slice(&self) -> &[Entry]
        ensures { result.now ≡ self.now }
    {
        self.held.as_slice()
    }

    /// How many there are.
    pub fn len(&self) -> usize
        ensures { result ≡ length self.now }
    {
        self.held.len()
    }

    /// The item at an index, `None` past the end.
    pub fn get(&self, index: usize) -> Option<&Entry>
        ensures { option_copied result ≡ slice_get self.now index }
    {
        self.held.get(index)
    }
}
