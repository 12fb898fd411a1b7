//! What a client asks.

ghost use Rattle.std.specs.Prelude.{◌≡◌, length, slice_get};
ghost use Rattle.std.specs.Option.{option_copied};
ghost use Rattle.zk_messages.specs.Kinds.{kind_of, op_kind_of};

use crate::kind::{Kind, OpKind};
use jute_core::Bytes;
use std::marker::Model;
use zk_records::{
    CheckRequest, ConnectRequest, CreateRequest, DeleteRequest, PathOnly, PathWatch, SetAclRequest,
    SetContentRequest, SetWatches,
};

/// An operation of a multi.
#[derive(Debug, Drop)]
pub enum Op {
    /// Make a node.
    Create(CreateRequest),
    /// Remove a node.
    Delete(DeleteRequest),
    /// Change the content of a node.
    SetContent(SetContentRequest),
    /// A node has to be there, in this version.
    Check(CheckRequest),
    /// Make a node, and tell its Stat.
    Create2(CreateRequest),
}

impl Op {
    /// Its type.
    pub fn kind(&self) -> OpKind
        ensures { result ≡ op_kind_of self.now }
    {
        match self {
            Op::Create(_) => OpKind::Create,
            Op::Delete(_) => OpKind::Delete,
            Op::SetContent(_) => OpKind::SetContent,
            Op::Check(_) => OpKind::Check,
            Op::Create2(_) => OpKind::Create2,
        }
    }
}

/// The operations of a multi, in order.
#[derive(Debug, Drop)]
pub struct Ops {
    held: Vec<Op>,
}

impl Model for Ops {
    ghost use Rattle.std.specs.Prelude.{List};
    ghost use Rattle.zk_messages.specs.declared.request.Op.{Op};

    ghost Value = { List Op };

    ghost view = { λ x. x.held.items };
}

impl Ops {
    /// The list of these. Takes no memory.
    pub fn of(items: Vec<Op>) -> Ops
        ensures { result ≡ items.items }
    {
        Ops { held: items }
    }

    /// All of them.
    pub fn as_slice(&self) -> &[Op]
        ensures { result.now ≡ self.now }
    {
        self.held.as_slice()
    }

    /// How many there are.
    pub fn len(&self) -> usize
        ensures { result ≡ length self.now }
    {
        self.held.len()
    }

    /// The operation at an index, or `None` past the end.
    pub fn get(&self, index: usize) -> Option<&Op>
        ensures { option_copied result ≡ slice_get self.now index }
    {
        self.held.get(index)
    }
}

/// A request, by its type.
#[derive(Debug, Drop)]
pub enum Request {
    /// Make a node.
    Create(CreateRequest),
    /// Remove a node.
    Delete(DeleteRequest),
    /// Is there a node?
    Exists(PathWatch),
    /// The content of a node.
    GetContent(PathWatch),
    /// Change the content of a node.
    SetContent(SetContentRequest),
    /// Who may do what with a node.
    GetAcl(PathOnly),
    /// Change who may do what with a node.
    SetAcl(SetAclRequest),
    /// The names of a node's children.
    GetChildren(PathWatch),
    /// The names of a node's children, and its Stat.
    GetChildren2(PathWatch),
    /// Be answered after all that the store took before.
    Sync(PathOnly),
    /// The client is alive.
    Ping,
    /// All of these operations, or none.
    Multi(Ops),
    /// The watches that the client had before it connected again.
    SetWatches(SetWatches),
    /// Who the client is: a body that is not read.
    Auth(Bytes),
    /// The session ends.
    Close,
    /// Make a node, and tell its Stat.
    Create2(CreateRequest),
    /// A type that is none of these, and the rest of the body, which is not read.
    Unknown { kind: i32, body: Bytes },
}

impl Request {
    /// Its type, `None` for an unknown one.
    pub fn kind(&self) -> Option<Kind>
        ensures { result ≡ kind_of self.now }
    {
        match self {
            Request::Create(_) => Some(Kind::Create),
            Request::Delete(_) => Some(Kind::Delete),
            Request::Exists(_) => Some(Kind::Exists),
            Request::GetContent(_) => Some(Kind::GetContent),
            Request::SetContent(_) => Some(Kind::SetContent),
            Request::GetAcl(_) => Some(Kind::GetAcl),
            Request::SetAcl(_) => Some(Kind::SetAcl),
            Request::GetChildren(_) => Some(Kind::GetChildren),
            Request::GetChildren2(_) => Some(Kind::GetChildren2),
            Request::Sync(_) => Some(Kind::Sync),
            Request::Ping => Some(Kind::Ping),
            Request::Multi(_) => Some(Kind::Multi),
            Request::SetWatches(_) => Some(Kind::SetWatches),
            Request::Auth(_) => Some(Kind::Auth),
            Request::Close => Some(Kind::Close),
            Request::Create2(_) => Some(Kind::Create2),
            Request::Unknown { .. } => None,
        }
    }
}

/// What one frame of a client spells.
#[derive(Debug, Drop)]
pub enum Item {
    /// The first frame: the connect request.
    Asks(ConnectRequest),
    /// Each other one: a request and its xid, which the reply echoes.
    Requests { xid: i32, request: Request },
}
