//! Access control lists.

ghost use Rattle.std.specs.Prelude.{◌≡◌, length, map, slice_get, Some, IfSome, OnOk, OnErr};
ghost use Rattle.std.specs.Option.{option_copied};
ghost use Rattle.jute_core.specs.Position.{Adds, Appends, Grows};
ghost use Rattle.jute_core.specs.Records.{ReadsOrMemory};
ghost use Rattle.zk_records.specs.Acls.{acl, acl_fields, acls, acls_fields, IsShortAcl, AreShortAcls};

use jute_core::{Cursor, Memory, NotRead, Text, put_count, put_int, put_ustring, read_text};
use std::alloc::Global;
use std::marker::Model;

/// Who may do what with a node: ACL with Id of zookeeper.jute.
#[derive(Debug, Drop)]
pub struct Acl {
    /// The bits of read 1, write 2, create 4, delete 8 and admin 16.
    pub perms: i32,
    /// How a client shows who it is, as `world` or `digest`.
    pub scheme: Text,
    /// Who that is, as `anyone`.
    pub id: Text,
}

impl Acl {
    /// Reads the fields in order. After an error the cursor stands where it stood.
    ///
    /// # Errors
    /// The refusal of the first field that fails.
    #[tactic(auto, using(jute_core::proofs::Glue::glue))]
    pub fn read(alloc: Global, cursor: &mut Cursor<'_>) -> Result<Acl, NotRead>
        ensures { ReadsOrMemory cursor.old cursor.new acl acl_fields result }
    {
        let mut ahead = cursor.copy();
        let perms = ahead.int()?;
        let scheme = read_text(alloc, &mut ahead)?;
        let id = read_text(alloc, &mut ahead)?;
        *cursor = ahead;
        Ok(Acl { perms, scheme, id })
    }

    /// Appends the one spelling.
    pub fn write(&self, into: &mut Vec<u8>) -> Result<(), Memory>
        requires { IsShortAcl self.now }
        ensures { Appends into.old.items into.new.items acl (acl_fields self.now) result }
    {
        let before = into.len();
        let put = self.put_fields(into);
        if put.is_err() {
            into.truncate(before);
        }
        put
    }

    // The fields one after another. Without memory some of them may be there.
    #[tactic(auto, using(jute_core::proofs::Glue::glue))]
    fn put_fields(&self, into: &mut Vec<u8>) -> Result<(), Memory>
        requires { IsShortAcl self.now }
        ensures ok { OnOk result (Adds into.old.items into.new.items acl (acl_fields self.now)) }
        ensures err { OnErr result (Grows into.old.items into.new.items) }
    {
        put_int(into, self.perms)?;
        put_ustring(into, self.scheme.as_str())?;
        put_ustring(into, self.id.as_str())?;
        Ok(())
    }
}

/// A list of them.
#[derive(Debug, Drop)]
pub struct Acls {
    held: Vec<Acl>,
}

impl Model for Acls {
    ghost use Rattle.std.specs.Prelude.{List};
    ghost use Rattle.zk_records.specs.declared.acl.Acl.{Acl};

    ghost Value = { List Acl };

    ghost view = { λ a. a.held.items };
}

impl Acls {
    /// The list of these. Takes no memory.
    pub fn of(items: Vec<Acl>) -> Acls
        ensures { result ≡ items.items }
    {
        Acls { held: items }
    }

    /// All of them.
    pub fn as_slice(&self) -> &[Acl]
        ensures { result.now ≡ self.now }
    {
        self.held.as_slice()
    }

    /// How many there are.
    pub fn len(&self) -> usize
        ensures { result ≡ length self.now }
    {
        self.held.len()
    }

    /// The entry at an index, or `None` past the end.
    pub fn get(&self, index: usize) -> Option<&Acl>
        ensures { option_copied result ≡ slice_get self.now index }
    {
        self.held.get(index)
    }
}

/// A list after its count; `None` is null. The cursor stands where it stood after an error. An
/// entry is read before memory is taken for it, whatever the count.
#[tactic(auto, using(jute_core::proofs::Glue::glue, jute_core::proofs::Many::lists))]
pub fn read_acls(alloc: Global, cursor: &mut Cursor<'_>) -> Result<Option<Acls>, NotRead>
    ensures { ReadsOrMemory cursor.old cursor.new acls acls_fields result }
{
    let mut ahead = cursor.copy();
    let Some(count) = ahead.count()? else {
        *cursor = ahead;
        return Ok(None);
    };
    let mut list = Vec::new(alloc);
    for _ in 0..count {
        list.push(Acl::read(alloc, &mut ahead)?)?;
    }
    *cursor = ahead;
    Ok(Some(Acls::of(list)))
}

// The count of the entries, and one entry after another. Without memory some of them may be there.
#[tactic(auto, using(jute_core::proofs::Glue::glue))]
fn put_items(into: &mut Vec<u8>, list: &[Acl]) -> Result<(), Memory>
    requires { AreShortAcls list.now }
    ensures ok { OnOk result (Adds into.old.items into.new.items acls (Some (map acl_fields list.now))) }
    ensures err { OnErr result (Grows into.old.items into.new.items) }
{
    put_count(into, Some(list.len() as u32))?;
    for acl in list {
        acl.write(into)?;
    }
    Ok(())
}

/// A list that a record owns, after its count; -1 and nothing for `None`.
#[tactic(auto, using(jute_core::proofs::Many::lists))]
pub fn put_acls(into: &mut Vec<u8>, value: &Option<Acls>) -> Result<(), Memory>
    requires { IfSome value.now AreShortAcls }
    ensures { Appends into.old.items into.new.items acls (acls_fields value.now) result }
{
    let Some(list) = value else {
        put_count(into, None)?;
        return Ok(());
    };
    let before = into.len();
    let put = put_items(into, list.as_slice());
    if put.is_err() {
        into.truncate(before);
    }
    put
}
