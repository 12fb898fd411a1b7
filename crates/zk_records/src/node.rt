//! The records of requests that name a node and little else.

ghost use Rattle.std.specs.Prelude.{◌<◌, ◌^◌, length, OnOk, OnErr};
ghost use Rattle.jute_core.specs.Position.{Adds, Appends, Grows};
ghost use Rattle.jute_core.specs.Records.{ReadsOrMemory};
ghost use Rattle.zk_records.specs.Requests.{delete_request, delete_fields, check_request, check_fields};
ghost use Rattle.zk_records.specs.Requests.{set_content_request, set_content_fields, IsShortSetContent};
ghost use Rattle.zk_records.specs.Requests.{path_only, path_only_fields};

use jute_core::{
    Bytes, Cursor, Memory, NotRead, Text, put_bytes, put_int, put_ustring, read_bytes, read_text,
};
use std::alloc::Global;

/// DeleteRequest of zookeeper.jute.
#[derive(Debug, Drop)]
pub struct DeleteRequest {
    /// The node to remove.
    pub path: Text,
    /// The version that the node has to have, or -1 for any.
    pub version: i32,
}

impl DeleteRequest {
    /// Reads the fields in order. After an error the cursor stands where it stood.
    ///
    /// # Errors
    /// The refusal of the first field that fails.
    #[tactic(auto, using(jute_core::proofs::Glue::glue))]
    pub fn read(alloc: Global, cursor: &mut Cursor<'_>) -> Result<DeleteRequest, NotRead>
        ensures { ReadsOrMemory cursor.old cursor.new delete_request delete_fields result }
    {
        let mut ahead = cursor.copy();
        let path = read_text(alloc, &mut ahead)?;
        let version = ahead.int()?;
        *cursor = ahead;
        Ok(DeleteRequest { path, version })
    }

    /// Appends the one spelling.
    pub fn write(&self, into: &mut Vec<u8>) -> Result<(), Memory>
        requires { length self.now.path < 2 ^ 31 }
        ensures { Appends into.old.items into.new.items delete_request (delete_fields self.now) result }
    {
        let before = into.len();
        let put = self.put_fields(into);
        if put.is_err() {
            into.truncate(before);
        }
        put
    }

    // The fields one after another. Without memory some of them may be there.
    #[tactic(auto, using(jute_core::proofs::Glue::glue))]
    fn put_fields(&self, into: &mut Vec<u8>) -> Result<(), Memory>
        requires { length self.now.path < 2 ^ 31 }
        ensures ok { OnOk result (Adds into.old.items into.new.items delete_request (delete_fields self.now)) }
        ensures err { OnErr result (Grows into.old.items into.new.items) }
    {
        put_ustring(into, self.path.as_str())?;
        put_int(into, self.version)?;
        Ok(())
    }
}

/// CheckVersionRequest of zookeeper.jute, an operation of a multi.
#[derive(Debug, Drop)]
pub struct CheckRequest {
    /// The node that has to be there.
    pub path: Text,
    /// The version that the node has to have, or -1 for any.
    pub version: i32,
}

impl CheckRequest {
    /// Reads the fields in order. After an error the cursor stands where it stood.
    ///
    /// # Errors
    /// The refusal of the first field that fails.
    #[tactic(auto, using(jute_core::proofs::Glue::glue))]
    pub fn read(alloc: Global, cursor: &mut Cursor<'_>) -> Result<CheckRequest, NotRead>
        ensures { ReadsOrMemory cursor.old cursor.new check_request check_fields result }
    {
        let mut ahead = cursor.copy();
        let path = read_text(alloc, &mut ahead)?;
        let version = ahead.int()?;
        *cursor = ahead;
        Ok(CheckRequest { path, version })
    }

    /// Appends the one spelling.
    pub fn write(&self, into: &mut Vec<u8>) -> Result<(), Memory>
        requires { length self.now.path < 2 ^ 31 }
        ensures { Appends into.old.items into.new.items check_request (check_fields self.now) result }
    {
        let before = into.len();
        let put = self.put_fields(into);
        if put.is_err() {
            into.truncate(before);
        }
        put
    }

    // The fields one after another. Without memory some of them may be there.
    #[tactic(auto, using(jute_core::proofs::Glue::glue))]
    fn put_fields(&self, into: &mut Vec<u8>) -> Result<(), Memory>
        requires { length self.now.path < 2 ^ 31 }
        ensures ok { OnOk result (Adds into.old.items into.new.items check_request (check_fields self.now)) }
        ensures err { OnErr result (Grows into.old.items into.new.items) }
    {
        put_ustring(into, self.path.as_str())?;
        put_int(into, self.version)?;
        Ok(())
    }
}

/// SetDataRequest of zookeeper.jute.
#[derive(Debug, Drop)]
pub struct SetContentRequest {
    /// The node to change.
    pub path: Text,
    /// Its new content.
    pub content: Option<Bytes>,
    /// The version that the node has to have, or -1 for any.
    pub version: i32,
}

impl SetContentRequest {
    /// Reads the fields in order. After an error the cursor stands where it stood.
    ///
    /// # Errors
    /// The refusal of the first field that fails.
    #[tactic(auto, using(jute_core::proofs::Glue::glue))]
    pub fn read(alloc: Global, cursor: &mut Cursor<'_>) -> Result<SetContentRequest, NotRead>
        ensures { ReadsOrMemory cursor.old cursor.new set_content_request set_content_fields result }
    {
        let mut ahead = cursor.copy();
        let path = read_text(alloc, &mut ahead)?;
        let content = read_bytes(alloc, &mut ahead)?;
        let version = ahead.int()?;
        *cursor = ahead;
        Ok(SetContentRequest {
            path,
            content,
            version,
        })
    }

    /// Appends the one spelling.
    pub fn write(&self, into: &mut Vec<u8>) -> Result<(), Memory>
        requires { IsShortSetContent self.now }
        ensures { Appends into.old.items into.new.items set_content_request (set_content_fields self.now) result }
    {
        let before = into.len();
        let put = self.put_fields(into);
        if put.is_err() {
            into.truncate(before);
        }
        put
    }

    // The fields one after another. Without memory some of them may be there.
    #[tactic(auto, using(jute_core::proofs::Glue::glue))]
    fn put_fields(&self, into: &mut Vec<u8>) -> Result<(), Memory>
        requires { IsShortSetContent self.now }
        ensures ok { OnOk result (Adds into.old.items into.new.items set_content_request (set_content_fields self.now)) }
        ensures err { OnErr result (Grows into.old.items into.new.items) }
    {
        put_ustring(into, self.path.as_str())?;
        put_bytes(into, &self.content)?;
        put_int(into, self.version)?;
        Ok(())
    }
}

/// GetACLRequest, SyncRequest and SyncResponse of zookeeper.jute, which have the same field.
#[derive(Debug, Drop)]
pub struct PathOnly {
    /// The node that is asked for.
    pub path: Text,
}

impl PathOnly {
    /// Reads the fields in order. After an error the cursor stands where it stood.
    ///
    /// # Errors
    /// The refusal of the first field that fails.
    #[tactic(auto, using(jute_core::proofs::Glue::glue))]
    pub fn read(alloc: Global, cursor: &mut Cursor<'_>) -> Result<PathOnly, NotRead>
        ensures { ReadsOrMemory cursor.old cursor.new path_only path_only_fields result }
    {
        let mut ahead = cursor.copy();
        let path = read_text(alloc, &mut ahead)?;
        *cursor = ahead;
        Ok(PathOnly { path })
    }

    /// Appends the one spelling.
    pub fn write(&self, into: &mut Vec<u8>) -> Result<(), Memory>
        requires { length self.now.path < 2 ^ 31 }
        ensures { Appends into.old.items into.new.items path_only (path_only_fields self.now) result }
    {
        let before = into.len();
        let put = self.put_fields(into);
        if put.is_err() {
            into.truncate(before);
        }
        put
    }

    // The fields one after another. Without memory some of them may be there.
    #[tactic(auto, using(jute_core::proofs::Glue::glue))]
    fn put_fields(&self, into: &mut Vec<u8>) -> Result<(), Memory>
        requires { length self.now.path < 2 ^ 31 }
        ensures ok { OnOk result (Adds into.old.items into.new.items path_only (path_only_fields self.now)) }
        ensures err { OnErr result (Grows into.old.items into.new.items) }
    {
        put_ustring(into, self.path.as_str())?;
        Ok(())
    }
}
