//! The record of setACL.

ghost use Rattle.std.specs.Prelude.{OnOk, OnErr};
ghost use Rattle.jute_core.specs.Position.{Adds, Appends, Grows};
ghost use Rattle.jute_core.specs.Records.{ReadsOrMemory};
ghost use Rattle.zk_records.specs.Requests.{set_acl_request, set_acl_fields, IsShortSetAcl};

use crate::acl::{Acls, put_acls, read_acls};
use jute_core::{Cursor, Memory, NotRead, Text, put_int, put_ustring, read_text};
use std::alloc::Global;

/// SetACLRequest of zookeeper.jute.
#[derive(Debug, Drop)]
pub struct SetAclRequest {
    /// The node to change.
    pub path: Text,
    /// Who may do what with it from now on.
    pub acls: Option<Acls>,
    /// The number of changes that the node's list has had, or -1 for any.
    pub version: i32,
}

impl SetAclRequest {
    /// Reads the fields in order. After an error the cursor stands where it stood.
    ///
    /// # Errors
    /// The refusal of the first field that fails.
    #[tactic(auto, using(jute_core::proofs::Glue::glue))]
    pub fn read(alloc: Global, cursor: &mut Cursor<'_>) -> Result<SetAclRequest, NotRead>
        ensures { ReadsOrMemory cursor.old cursor.new set_acl_request set_acl_fields result }
    {
        let mut ahead = cursor.copy();
        let path = read_text(alloc, &mut ahead)?;
        let acls = read_acls(alloc, &mut ahead)?;
        let version = ahead.int()?;
        *cursor = ahead;
        Ok(SetAclRequest {
            path,
            acls,
            version,
        })
    }

    /// Appends the one spelling.
    pub fn write(&self, into: &mut Vec<u8>) -> Result<(), Memory>
        requires { IsShortSetAcl self.now }
        ensures { Appends into.old.items into.new.items set_acl_request (set_acl_fields self.now) result }
    {
        let before = into.len();
        let put = self.put_fields(into);
        if put.is_err() {
            into.truncate(before);
        }
        put
    }

    // The fields one after another. Without memory some of them may be there.
    #[tactic(auto, using(jute_core::proofs::Glue::glue))]
    fn put_fields(&self, into: &mut Vec<u8>) -> Result<(), Memory>
        requires { IsShortSetAcl self.now }
        ensures ok { OnOk result (Adds into.old.items into.new.items set_acl_request (set_acl_fields self.now)) }
        ensures err { OnErr result (Grows into.old.items into.new.items) }
    {
        put_ustring(into, self.path.as_str())?;
        put_acls(into, &self.acls)?;
        put_int(into, self.version)?;
        Ok(())
    }
}
