//! The record of setWatches.

ghost use Rattle.std.specs.Prelude.{OnOk, OnErr};
ghost use Rattle.jute_core.specs.Position.{Adds, Appends, Grows};
ghost use Rattle.jute_core.specs.Records.{ReadsOrMemory};
ghost use Rattle.zk_records.specs.Requests.{set_watches, set_watches_fields, IsShortSetWatches};

use jute_core::{Cursor, Memory, NotRead, Texts, put_long, put_texts, read_texts};
use std::alloc::Global;

/// SetWatches of zookeeper.jute: the watches that a client had before it connected again.
#[derive(Debug, Drop)]
pub struct SetWatches {
    /// The last zxid that the client saw.
    pub seen: i64,
    /// Nodes that are watched for their content.
    pub content_paths: Option<Texts>,
    /// Nodes that were missing, and are watched for being made.
    pub exist_paths: Option<Texts>,
    /// Nodes that are watched for their children.
    pub child_paths: Option<Texts>,
}

impl SetWatches {
    /// Reads the fields in order. After an error the cursor stands where it stood.
    ///
    /// # Errors
    /// The refusal of the first field that fails.
    #[tactic(auto, using(jute_core::proofs::Glue::glue))]
    pub fn read(alloc: Global, cursor: &mut Cursor<'_>) -> Result<SetWatches, NotRead>
        ensures { ReadsOrMemory cursor.old cursor.new set_watches set_watches_fields result }
    {
        let mut ahead = cursor.copy();
        let seen = ahead.long()?;
        let content_paths = read_texts(alloc, &mut ahead)?;
        let exist_paths = read_texts(alloc, &mut ahead)?;
        let child_paths = read_texts(alloc, &mut ahead)?;
        *cursor = ahead;
        Ok(SetWatches {
            seen,
            content_paths,
            exist_paths,
            child_paths,
        })
    }

    /// Appends the one spelling.
    pub fn write(&self, into: &mut Vec<u8>) -> Result<(), Memory>
        requires { IsShortSetWatches self.now }
        ensures { Appends into.old.items into.new.items set_watches (set_watches_fields self.now) result }
    {
        let before = into.len();
        let put = self.put_fields(into);
        if put.is_err() {
            into.truncate(before);
        }
        put
    }

    // The fields one after another. Without memory some of them may be there.
    #[tactic(auto, using(jute_core::proofs::Glue::glue))]
    fn put_fields(&self, into: &mut Vec<u8>) -> Result<(), Memory>
        requires { IsShortSetWatches self.now }
        ensures ok { OnOk result (Adds into.old.items into.new.items set_watches (set_watches_fields self.now)) }
        ensures err { OnErr result (Grows into.old.items into.new.items) }
    {
        put_long(into, self.seen)?;
        put_texts(into, &self.content_paths)?;
        put_texts(into, &self.exist_paths)?;
        put_texts(into, &self.child_paths)?;
        Ok(())
    }
}
