//! The record of exists, getData, getChildren and getChildren2.

ghost use Rattle.std.specs.Prelude.{◌<◌, ◌^◌, length, OnOk, OnErr};
ghost use Rattle.jute_core.specs.Position.{Adds, Appends, Grows};
ghost use Rattle.jute_core.specs.Records.{ReadsOrMemory};
ghost use Rattle.zk_records.specs.PathWatches.{path_watch, path_watch_fields};

use jute_core::{Cursor, Memory, NotRead, Text, put_bool, put_ustring, read_text};
use std::alloc::Global;

/// ExistsRequest, GetDataRequest, GetChildrenRequest and GetChildren2Request of zookeeper.jute,
/// which have the same fields.
#[derive(Debug, Drop)]
pub struct PathWatch {
    /// The node that is asked for.
    pub path: Text,
    /// Whether a watch is left there.
    pub watch: bool,
}

impl PathWatch {
    /// Reads the fields in order. After an error the cursor stands where it stood.
    ///
    /// # Errors
    /// The refusal of the first field that fails.
    #[tactic(auto, using(jute_core::proofs::Glue::glue))]
    pub fn read(alloc: Global, cursor: &mut Cursor<'_>) -> Result<PathWatch, NotRead>
        ensures { ReadsOrMemory cursor.old cursor.new path_watch path_watch_fields result }
    {
        let mut ahead = cursor.copy();
        let path = read_text(alloc, &mut ahead)?;
        let watch = ahead.boolean()?;
        *cursor = ahead;
        Ok(PathWatch { path, watch })
    }

    /// Appends the one spelling.
    pub fn write(&self, into: &mut Vec<u8>) -> Result<(), Memory>
        requires { length self.now.path < 2 ^ 31 }
        ensures { Appends into.old.items into.new.items path_watch (path_watch_fields self.now) result }
    {
        let before = into.len();
        let put = self.put_fields(into);
        if put.is_err() {
            into.truncate(before);
        }
        put
    }

    // The fields one after another. Without memory some of them may be there.
    #[tactic(auto, using(jute_core::proofs::Glue::glue))]
    fn put_fields(&self, into: &mut Vec<u8>) -> Result<(), Memory>
        requires { length self.now.path < 2 ^ 31 }
        ensures ok { OnOk result (Adds into.old.items into.new.items path_watch (path_watch_fields self.now)) }
        ensures err { OnErr result (Grows into.old.items into.new.items) }
    {
        put_ustring(into, self.path.as_str())?;
        put_bool(into, self.watch)?;
        Ok(())
    }
}
