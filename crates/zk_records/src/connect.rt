//! The records of the connect frames, which have an older and a newer form.

ghost use Rattle.std.specs.Prelude.{◌≡◌, ◌<◌, ◌^◌, ◌↔◌, length};
ghost use Rattle.std.specs.Prelude.{None, IsTrue, IfOk, IfErr, IfSome, OnOk, OnErr};
ghost use Rattle.jute_core.specs.Position.{Adds, Appends, Grows};
ghost use Rattle.jute_core.specs.Records.{ReadsOrMemory, IfRefused};
ghost use Rattle.zk_records.specs.Connect.{older_request, older_request_fields};
ghost use Rattle.zk_records.specs.Connect.{request_form, request_fields, SpellsConnect, RefusedConnect};
ghost use Rattle.zk_records.specs.Connect.{older_response, older_response_fields};
ghost use Rattle.zk_records.specs.Connect.{response_form, response_fields, SpellsConnected, RefusedConnected};

use jute_core::{
    Bytes, Cursor, Memory, NotRead, put_bool, put_bytes, put_int, put_long, read_bytes,
};
use std::alloc::Global;

/// The first frame of a client: ConnectRequest of zookeeper.jute.
#[derive(Debug, Drop)]
pub struct ConnectRequest {
    /// The version of the protocol, 0.
    pub protocol: i32,
    /// The last zxid that the client saw.
    pub seen: i64,
    /// The session timeout that it asks for, in milliseconds.
    pub timeout: i32,
    /// The session that it goes on with, or 0 for a new one.
    pub session: i64,
    /// That session's password.
    pub password: Option<Bytes>,
    /// Whether a read-only server will do; `None` in the older form, which lacks it.
    pub read_only: Option<bool>,
}

/// Reads a whole body in either form. A body that goes on after the password is read as the newer
/// form. The body has at most 4,294,967,295 bytes.
///
/// # Errors
/// The refusal of the first field that fails, or `Trailing` where bytes follow the newer form. A
/// body that ends after the password is the older form, and no refusal.
pub fn read_connect(alloc: Global, body: &[u8]) -> Result<ConnectRequest, NotRead>
    requires { length body.now < 2 ^ 32 }
    ensures read { IfOk result (λ r. SpellsConnect r body.now) }
    ensures refused { IfErr result (λ e. IfRefused e (λ refusal.
        RefusedConnect body.now refusal.place refusal.reason)) }
{
    let mut cursor = Cursor::new(body);
    let mut asked = ConnectRequest::read_older(alloc, &mut cursor)?;
    let Err(_) = cursor.end() else {
        return Ok(asked);
    };
    let read_only = cursor.boolean()?;
    cursor.end()?;
    asked.read_only = Some(read_only);
    Ok(asked)
}

impl ConnectRequest {
    // The older form, at the front of what is left.
    #[tactic(auto, using(jute_core::proofs::Glue::glue))]
    fn read_older(alloc: Global, cursor: &mut Cursor<'_>) -> Result<ConnectRequest, NotRead>
        ensures reads { ReadsOrMemory cursor.old cursor.new older_request older_request_fields result }
        ensures older { IfOk result (λ r. r.read_only ≡ None) }
    {
        let mut ahead = cursor.copy();
        let protocol = ahead.int()?;
        let seen = ahead.long()?;
        let timeout = ahead.int()?;
        let session = ahead.long()?;
        let password = read_bytes(alloc, &mut ahead)?;
        *cursor = ahead;
        Ok(ConnectRequest {
            protocol,
            seen,
            timeout,
            session,
            password,
            read_only: None,
        })
    }

    /// Appends the one spelling, in the form that `read_only` says.
    pub fn write(&self, into: &mut Vec<u8>) -> Result<(), Memory>
        requires { IfSome self.now.password (λ p. length p < 2 ^ 31) }
        ensures { Appends into.old.items into.new.items
            (request_form self.now.read_only) (request_fields self.now.read_only self.now) result }
    {
        let before = into.len();
        let put = self.put_fields(into);
        if put.is_err() {
            into.truncate(before);
        }
        put
    }

    // The fields one after another. Without memory some of them may be there.
    #[tactic(auto, using(jute_core::proofs::Glue::glue))]
    fn put_fields(&self, into: &mut Vec<u8>) -> Result<(), Memory>
        requires { IfSome self.now.password (λ p. length p < 2 ^ 31) }
        ensures ok { OnOk result (Adds into.old.items into.new.items
            (request_form self.now.read_only) (request_fields self.now.read_only self.now)) }
        ensures err { OnErr result (Grows into.old.items into.new.items) }
    {
        self.put_older(into)?;
        match self.read_only {
            Some(read_only) => put_bool(into, read_only)?,
            None => return Ok(()),
        }
        Ok(())
    }

    #[tactic(auto, using(jute_core::proofs::Glue::glue))]
    fn put_older(&self, into: &mut Vec<u8>) -> Result<(), Memory>
        requires { IfSome self.now.password (λ p. length p < 2 ^ 31) }
        ensures ok { OnOk result (Adds into.old.items into.new.items older_request (older_request_fields self.now)) }
        ensures err { OnErr result (Grows into.old.items into.new.items) }
    {
        put_int(into, self.protocol)?;
        put_long(into, self.seen)?;
        put_int(into, self.timeout)?;
        put_long(into, self.session)?;
        put_bytes(into, &self.password)?;
        Ok(())
    }
}

/// The answer to it: ConnectResponse of zookeeper.jute.
#[derive(Debug, Drop)]
pub struct ConnectResponse {
    /// The version of the protocol, 0.
    pub protocol: i32,
    /// The session timeout that the server keeps, in milliseconds.
    pub timeout: i32,
    /// The session, or 0 where the one asked for has expired.
    pub session: i64,
    /// Its password.
    pub password: Option<Bytes>,
    /// Whether the server is read-only; `None` in the older form, which lacks it.
    pub read_only: Option<bool>,
}

/// Reads a whole body, in the older form where `short` is true and else in the newer one: that of
/// the request. The body has at most 4,294,967,295 bytes.
///
/// # Errors
/// The refusal of the first field that fails in that form, or `Trailing` where bytes follow it.
pub fn read_connected(alloc: Global, short: bool, body: &[u8]) -> Result<ConnectResponse, NotRead>
    requires { length body.now < 2 ^ 32 }
    ensures read { IfOk result (λ r. SpellsConnected r body.now) }
    ensures form { IfOk result (λ r. IsTrue short ↔ (r.read_only ≡ None)) }
    ensures refused { IfErr result (λ e. IfRefused e (λ refusal.
        RefusedConnected short body.now refusal.place refusal.reason)) }
{
    let mut cursor = Cursor::new(body);
    let mut given = ConnectResponse::read_older(alloc, &mut cursor)?;
    if short {
        cursor.end()?;
        return Ok(given);
    }
    let is_read_only = cursor.boolean()?;
    cursor.end()?;
    given.read_only = Some(is_read_only);
    Ok(given)
}

impl ConnectResponse {
    // The older form, at the front of what is left.
    #[tactic(auto, using(jute_core::proofs::Glue::glue))]
    fn read_older(alloc: Global, cursor: &mut Cursor<'_>) -> Result<ConnectResponse, NotRead>
        ensures reads { ReadsOrMemory cursor.old cursor.new older_response older_response_fields result }
        ensures older { IfOk result (λ r. r.read_only ≡ None) }
    {
        let mut ahead = cursor.copy();
        let protocol = ahead.int()?;
        let timeout = ahead.int()?;
        let session = ahead.long()?;
        let password = read_bytes(alloc, &mut ahead)?;
        *cursor = ahead;
        Ok(ConnectResponse {
            protocol,
            timeout,
            session,
            password,
            read_only: None,
        })
    }

    /// Appends the one spelling, in the form that `read_only` says.
    pub fn write(&self, into: &mut Vec<u8>) -> Result<(), Memory>
        requires { IfSome self.now.password (λ p. length p < 2 ^ 31) }
        ensures { Appends into.old.items into.new.items
            (response_form self.now.read_only) (response_fields self.now.read_only self.now) result }
    {
        let before = into.len();
        let put = self.put_fields(into);
        if put.is_err() {
            into.truncate(before);
        }
        put
    }

    // The fields one after another. Without memory some of them may be there.
    #[tactic(auto, using(jute_core::proofs::Glue::glue))]
    fn put_fields(&self, into: &mut Vec<u8>) -> Result<(), Memory>
        requires { IfSome self.now.password (λ p. length p < 2 ^ 31) }
        ensures ok { OnOk result (Adds into.old.items into.new.items
            (response_form self.now.read_only) (response_fields self.now.read_only self.now)) }
        ensures err { OnErr result (Grows into.old.items into.new.items) }
    {
        self.put_older(into)?;
        match self.read_only {
            Some(read_only) => put_bool(into, read_only)?,
            None => return Ok(()),
        }
        Ok(())
    }

    #[tactic(auto, using(jute_core::proofs::Glue::glue))]
    fn put_older(&self, into: &mut Vec<u8>) -> Result<(), Memory>
        requires { IfSome self.now.password (λ p. length p < 2 ^ 31) }
        ensures ok { OnOk result (Adds into.old.items into.new.items older_response (older_response_fields self.now)) }
        ensures err { OnErr result (Grows into.old.items into.new.items) }
    {
        put_int(into, self.protocol)?;
        put_int(into, self.timeout)?;
        put_long(into, self.session)?;
        put_bytes(into, &self.password)?;
        Ok(())
    }
}
