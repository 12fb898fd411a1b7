//! The record of create.

ghost use Rattle.std.specs.Prelude.{OnOk, OnErr};
ghost use Rattle.jute_core.specs.Position.{Adds, Appends, Grows};
ghost use Rattle.jute_core.specs.Records.{ReadsOrMemory};
ghost use Rattle.zk_records.specs.Requests.{create_request, create_fields, IsShortCreate};

use crate::acl::{Acls, put_acls, read_acls};
use jute_core::{
    Bytes, Cursor, Memory, NotRead, Text, put_bytes, put_int, put_ustring, read_bytes, read_text,
};
use std::alloc::Global;

/// CreateRequest of zookeeper.jute.
#[derive(Debug, Drop)]
pub struct CreateRequest {
    /// The node to make, or its stem where the flags ask for a number.
    pub path: Text,
    /// Its content.
    pub content: Option<Bytes>,
    /// Who may do what with it.
    pub acls: Option<Acls>,
    /// 0 persistent, 1 ephemeral, 2 persistent sequential, 3 ephemeral sequential.
    pub flags: i32,
}

impl CreateRequest {
    /// Reads the fields in order. After an error the cursor stands where it stood.
    ///
    /// # Errors
    /// The refusal of the first field that fails.
    #[tactic(auto, using(jute_core::proofs::Glue::glue))]
    pub fn read(alloc: Global, cursor: &mut Cursor<'_>) -> Result<CreateRequest, NotRead>
        ensures { ReadsOrMemory cursor.old cursor.new create_request create_fields result }
    {
        let mut ahead = cursor.copy();
        let path = read_text(alloc, &mut ahead)?;
        let content = read_bytes(alloc, &mut ahead)?;
        let acls = read_acls(alloc, &mut ahead)?;
        let flags = ahead.int()?;
        *cursor = ahead;
        Ok(CreateRequest {
            path,
            content,
            acls,
            flags,
        })
    }

    /// Appends the one spelling.
    pub fn write(&self, into: &mut Vec<u8>) -> Result<(), Memory>
        requires { IsShortCreate self.now }
        ensures { Appends into.old.items into.new.items create_request (create_fields self.now) result }
    {
        let before = into.len();
        let put = self.put_fields(into);
        if put.is_err() {
            into.truncate(before);
        }
        put
    }

    // The fields one after another. Without memory some of them may be there.
    #[tactic(auto, using(jute_core::proofs::Glue::glue))]
    fn put_fields(&self, into: &mut Vec<u8>) -> Result<(), Memory>
        requires { IsShortCreate self.now }
        ensures ok { OnOk result (Adds into.old.items into.new.items create_request (create_fields self.now)) }
        ensures err { OnErr result (Grows into.old.items into.new.items) }
    {
        put_ustring(into, self.path.as_str())?;
        put_bytes(into, &self.content)?;
        put_acls(into, &self.acls)?;
        put_int(into, self.flags)?;
        Ok(())
    }
}
