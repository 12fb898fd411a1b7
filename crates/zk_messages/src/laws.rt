//! Laws of messages. Each is the contract of a function that does nothing, so that whoever needs
//! one can cite it.

ghost use Rattle.std.specs.Prelude.{ℕ, ℤ, List};
ghost use Rattle.zk_messages.specs.Laws.{IsOneRequest, HasOneSpelling, IsRequestOrRefused, HasOneRefusal};
ghost use Rattle.zk_messages.specs.Laws.{IsOneReply, HasOneReplySpelling, IsReplyOrRefused, HasOneReplyRefusal};
ghost use Rattle.zk_messages.specs.Laws.{IsShortWhenRead, IsOneEvent, HasOneEventSpelling, IsEventOrRefused, HasOneEventRefusal};
ghost use Rattle.zk_messages.specs.declared.request.Request.{Request};
ghost use Rattle.zk_messages.specs.declared.reply.Reply.{Reply};
ghost use Rattle.zk_messages.specs.declared.reply.Event.{Event};
ghost use Rattle.zk_messages.specs.declared.reply.Shape.{Shape};

/// A body is one request with one xid, spelled in one way, or it is refused,
/// with one place and one reason.
pub fn one_request()
    ensures one { (body : List ℕ) → IsOneRequest body }
    ensures spelling { (xid : ℤ) (r : Request) → HasOneSpelling xid r }
    ensures or_refused { (body : List ℕ) → IsRequestOrRefused body }
    ensures one_place { (body : List ℕ) → HasOneRefusal body }
{}

/// In each shape a body is one reply, spelled in one way, or it is refused,
/// with one place and one reason.
pub fn one_reply()
    ensures one { (shape : Shape) (body : List ℕ) → IsOneReply shape body }
    ensures spelling { (shape : Shape) (r : Reply) → HasOneReplySpelling shape r }
    ensures or_refused { (shape : Shape) (body : List ℕ) → IsReplyOrRefused shape body }
    ensures one_place { (shape : Shape) (body : List ℕ) → HasOneReplyRefusal shape body }
{}

/// A body is one event, spelled in one way, or it is refused,
/// with one place and one reason.
pub fn one_event()
    ensures one { (body : List ℕ) → IsOneEvent body }
    ensures spelling { (e : Event) → HasOneEventSpelling e }
    ensures or_refused { (body : List ℕ) → IsEventOrRefused body }
    ensures one_place { (body : List ℕ) → HasOneEventRefusal body }
{}

/// The law that each text and buffer of a request that was read from a body of at most 134,217,728 bytes has at most so many.
pub fn short_when_read()
    ensures { IsShortWhenRead }
{}
