//! The headers of requests and replies.

ghost use Rattle.std.specs.Prelude.{◌≢◌, IfErr, OnOk, OnErr};
ghost use Rattle.jute_core.specs.Position.{Adds, Appends, Grows};
ghost use Rattle.jute_core.specs.Records.{ReadsOrMemory};
ghost use Rattle.zk_records.specs.Headers.{request_header, request_header_fields, reply_header, reply_header_fields};

use jute_core::{Cursor, Memory, NotRead, put_int, put_long};

/// What stands before a request: RequestHeader of zookeeper.jute.
#[derive(Clone, Copy, Debug, Drop, PartialEq, Eq)]
pub struct RequestHeader {
    /// The client's number of the request, which the reply echoes.
    pub xid: i32,
    /// The type of the request, as 1 for create.
    pub kind: i32,
}

impl RequestHeader {
    /// Reads the fields in order. Takes no memory. After an error the cursor stands where it stood.
    ///
    /// # Errors
    /// The refusal of the first field that fails.
    #[tactic(auto, using(jute_core::proofs::Glue::glue))]
    pub fn read(cursor: &mut Cursor<'_>) -> Result<RequestHeader, NotRead>
        ensures reads { ReadsOrMemory cursor.old cursor.new request_header request_header_fields result }
        ensures refused { IfErr result (λ e. e ≢ NotRead.Memory) }
    {
        let mut ahead = cursor.copy();
        let xid = ahead.int()?;
        let kind = ahead.int()?;
        *cursor = ahead;
        Ok(RequestHeader { xid, kind })
    }

    /// Appends the one spelling.
    pub fn write(&self, into: &mut Vec<u8>) -> Result<(), Memory>
        ensures { Appends into.old.items into.new.items request_header (request_header_fields self.now) result }
    {
        let before = into.len();
        let put = self.put_fields(into);
        if put.is_err() {
            into.truncate(before);
        }
        put
    }

    // The fields one after another. Without memory some of them may be there.
    #[tactic(auto, using(jute_core::proofs::Glue::glue))]
    fn put_fields(&self, into: &mut Vec<u8>) -> Result<(), Memory>
        ensures ok { OnOk result (Adds into.old.items into.new.items request_header (request_header_fields self.now)) }
        ensures err { OnErr result (Grows into.old.items into.new.items) }
    {
        put_int(into, self.xid)?;
        put_int(into, self.kind)?;
        Ok(())
    }
}

/// What stands before a reply or an event: ReplyHeader of zookeeper.jute.
#[derive(Clone, Copy, Debug, Drop, PartialEq, Eq)]
pub struct ReplyHeader {
    /// The xid of the request, or -1 for an event.
    pub xid: i32,
    /// The store's last zxid, or -1 for an event.
    pub zxid: i64,
    /// 0, or the code of an error.
    pub err: i32,
}

impl ReplyHeader {
    /// Reads the fields in order. Takes no memory. After an error the cursor stands where it stood.
    ///
    /// # Errors
    /// The refusal of the first field that fails.
    #[tactic(auto, using(jute_core::proofs::Glue::glue))]
    pub fn read(cursor: &mut Cursor<'_>) -> Result<ReplyHeader, NotRead>
        ensures reads { ReadsOrMemory cursor.old cursor.new reply_header reply_header_fields result }
        ensures refused { IfErr result (λ e. e ≢ NotRead.Memory) }
    {
        let mut ahead = cursor.copy();
        let xid = ahead.int()?;
        let zxid = ahead.long()?;
        let err = ahead.int()?;
        *cursor = ahead;
        Ok(ReplyHeader { xid, zxid, err })
    }

    /// Appends the one spelling.
    pub fn write(&self, into: &mut Vec<u8>) -> Result<(), Memory>
        ensures { Appends into.old.items into.new.items reply_header (reply_header_fields self.now) result }
    {
        let before = into.len();
        let put = self.put_fields(into);
        if put.is_err() {
            into.truncate(before);
        }
        put
    }

    // The fields one after another. Without memory some of them may be there.
    #[tactic(auto, using(jute_core::proofs::Glue::glue))]
    fn put_fields(&self, into: &mut Vec<u8>) -> Result<(), Memory>
        ensures ok { OnOk result (Adds into.old.items into.new.items reply_header (reply_header_fields self.now)) }
        ensures err { OnErr result (Grows into.old.items into.new.items) }
    {
        put_int(into, self.xid)?;
        put_long(into, self.zxid)?;
        put_int(into, self.err)?;
        Ok(())
    }
}
