//! What a store says of a node.

ghost use Rattle.std.specs.Prelude.{◌≢◌, IfErr, OnOk, OnErr};
ghost use Rattle.jute_core.specs.Position.{Adds, Appends, Grows};
ghost use Rattle.jute_core.specs.Records.{ReadsOrMemory};
ghost use Rattle.zk_records.specs.Stats.{stat, stat_fields, stat_times, stat_times_fields};
ghost use Rattle.zk_records.specs.Stats.{stat_versions, stat_versions_fields, stat_rest, stat_rest_fields};

use jute_core::{Cursor, Memory, NotRead, put_int, put_long};

/// Stat of zookeeper.jute, 68 bytes.
#[derive(Clone, Copy, Debug, Drop, PartialEq, Eq)]
pub struct Stat {
    /// The zxid of the node's creation.
    pub czxid: i64,
    /// The zxid of the last change of its content.
    pub mzxid: i64,
    /// The time of its creation, in milliseconds of the store's clock.
    pub ctime: i64,
    /// The time of the last change of its content.
    pub mtime: i64,
    /// How often its content was changed.
    pub version: i32,
    /// How often a child came or went.
    pub cversion: i32,
    /// How often its ACL was changed.
    pub aversion: i32,
    /// The session that an ephemeral node belongs to, else 0.
    pub owner: i64,
    /// The length of its content in bytes.
    pub length: i32,
    /// How many children it has.
    pub children: i32,
    /// The zxid of the last change of its children.
    pub pzxid: i64,
}

impl Stat {
    /// Reads the fields in order. Takes no memory. After an error the cursor stands where it stood.
    ///
    /// # Errors
    /// The refusal of the first field that fails.
    #[tactic(auto, using(jute_core::proofs::Glue::glue))]
    pub fn read(cursor: &mut Cursor<'_>) -> Result<Stat, NotRead>
        ensures reads { ReadsOrMemory cursor.old cursor.new stat stat_fields result }
        ensures refused { IfErr result (λ e. e ≢ NotRead.Memory) }
    {
        let mut ahead = cursor.copy();
        let czxid = ahead.long()?;
        let mzxid = ahead.long()?;
        let ctime = ahead.long()?;
        let mtime = ahead.long()?;
        let version = ahead.int()?;
        let cversion = ahead.int()?;
        let aversion = ahead.int()?;
        let owner = ahead.long()?;
        let length = ahead.int()?;
        let children = ahead.int()?;
        let pzxid = ahead.long()?;
        *cursor = ahead;
        Ok(Stat {
            czxid,
            mzxid,
            ctime,
            mtime,
            version,
            cversion,
            aversion,
            owner,
            length,
            children,
            pzxid,
        })
    }

    /// Appends the one spelling.
    pub fn write(&self, into: &mut Vec<u8>) -> Result<(), Memory>
        ensures { Appends into.old.items into.new.items stat (stat_fields self.now) result }
    {
        let before = into.len();
        let put = self.put_fields(into);
        if put.is_err() {
            into.truncate(before);
        }
        put
    }

    // The fields one after another. Without memory some of them may be there.
    #[tactic(auto, using(jute_core::proofs::Glue::glue))]
    fn put_fields(&self, into: &mut Vec<u8>) -> Result<(), Memory>
        ensures ok { OnOk result (Adds into.old.items into.new.items stat (stat_fields self.now)) }
        ensures err { OnErr result (Grows into.old.items into.new.items) }
    {
        self.put_times(into)?;
        self.put_versions(into)?;
        self.put_rest(into)?;
        Ok(())
    }

    #[tactic(auto, using(jute_core::proofs::Glue::glue))]
    fn put_times(&self, into: &mut Vec<u8>) -> Result<(), Memory>
        ensures ok { OnOk result (Adds into.old.items into.new.items stat_times (stat_times_fields self.now)) }
        ensures err { OnErr result (Grows into.old.items into.new.items) }
    {
        put_long(into, self.czxid)?;
        put_long(into, self.mzxid)?;
        put_long(into, self.ctime)?;
        put_long(into, self.mtime)?;
        Ok(())
    }

    #[tactic(auto, using(jute_core::proofs::Glue::glue))]
    fn put_versions(&self, into: &mut Vec<u8>) -> Result<(), Memory>
        ensures ok { OnOk result (Adds into.old.items into.new.items stat_versions (stat_versions_fields self.now)) }
        ensures err { OnErr result (Grows into.old.items into.new.items) }
    {
        put_int(into, self.version)?;
        put_int(into, self.cversion)?;
        put_int(into, self.aversion)?;
        Ok(())
    }

    #[tactic(auto, using(jute_core::proofs::Glue::glue))]
    fn put_rest(&self, into: &mut Vec<u8>) -> Result<(), Memory>
        ensures ok { OnOk result (Adds into.old.items into.new.items stat_rest (stat_rest_fields self.now)) }
        ensures err { OnErr result (Grows into.old.items into.new.items) }
    {
        put_long(into, self.owner)?;
        put_int(into, self.length)?;
        put_int(into, self.children)?;
        put_long(into, self.pzxid)?;
        Ok(())
    }
}
