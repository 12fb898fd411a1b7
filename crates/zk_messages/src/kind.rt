//! The types of requests and of a multi's operations.

ghost use Rattle.std.specs.Prelude.{◌≡◌, ◌≢◌, IfSome, IfNone};
ghost use Rattle.zk_messages.specs.Kinds.{kind_number, op_number};
ghost use Rattle.zk_messages.specs.declared.kind.Kind.{Kind};
ghost use Rattle.zk_messages.specs.declared.kind.OpKind.{OpKind};

/// The type of a request that is served or refused by name: ZooDefs.OpCode of ZooKeeper 3.4.
#[derive(Clone, Copy, Debug, Drop, PartialEq, Eq)]
pub enum Kind {
    Create,
    Delete,
    Exists,
    GetContent,
    SetContent,
    GetAcl,
    SetAcl,
    GetChildren,
    Sync,
    Ping,
    GetChildren2,
    Multi,
    Create2,
    Auth,
    SetWatches,
    Close,
}

impl Kind {
    /// Its number in a request's header.
    pub fn number(self) -> i32
        ensures { result ≡ kind_number self }
    {
        match self {
            Kind::Create => 1,
            Kind::Delete => 2,
            Kind::Exists => 3,
            Kind::GetContent => 4,
            Kind::SetContent => 5,
            Kind::GetAcl => 6,
            Kind::SetAcl => 7,
            Kind::GetChildren => 8,
            Kind::Sync => 9,
            Kind::Ping => 11,
            Kind::GetChildren2 => 12,
            Kind::Multi => 14,
            Kind::Create2 => 15,
            Kind::Auth => 100,
            Kind::SetWatches => 101,
            Kind::Close => -11,
        }
    }

    /// The type with this number, if there is one.
    pub fn of(number: i32) -> Option<Kind>
        ensures some { IfSome result (λ kind. number ≡ kind_number kind) }
        ensures none { IfNone result ((kind : Kind) → number ≢ kind_number kind) }
    {
        match number {
            1 => Some(Kind::Create),
            2 => Some(Kind::Delete),
            3 => Some(Kind::Exists),
            4 => Some(Kind::GetContent),
            5 => Some(Kind::SetContent),
            6 => Some(Kind::GetAcl),
            7 => Some(Kind::SetAcl),
            8 => Some(Kind::GetChildren),
            9 => Some(Kind::Sync),
            11 => Some(Kind::Ping),
            12 => Some(Kind::GetChildren2),
            14 => Some(Kind::Multi),
            15 => Some(Kind::Create2),
            100 => Some(Kind::Auth),
            101 => Some(Kind::SetWatches),
            -11 => Some(Kind::Close),
            _ => None,
        }
    }
}

/// The type of an operation of a multi.
#[derive(Clone, Copy, Debug, Drop, PartialEq, Eq)]
pub enum OpKind {
    Create,
    Delete,
    SetContent,
    Check,
    Create2,
}

impl OpKind {
    /// Its number in a multi's header.
    pub fn number(self) -> i32
        ensures { result ≡ op_number self }
    {
        match self {
            OpKind::Create => 1,
            OpKind::Delete => 2,
            OpKind::SetContent => 5,
            OpKind::Check => 13,
            OpKind::Create2 => 15,
        }
    }

    /// The type with this number, if there is one.
    pub fn of(number: i32) -> Option<OpKind>
        ensures some { IfSome result (λ kind. number ≡ op_number kind) }
        ensures none { IfNone result ((kind : OpKind) → number ≢ op_number kind) }
    {
        match number {
            1 => Some(OpKind::Create),
            2 => Some(OpKind::Delete),
            5 => Some(OpKind::SetContent),
            13 => Some(OpKind::Check),
            15 => Some(OpKind::Create2),
            _ => None,
        }
    }
}
