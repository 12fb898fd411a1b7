//! The shape of the reply to a request.

ghost use Rattle.std.specs.Prelude.{◌≡◌};
ghost use Rattle.reply_rewrite.specs.Shapes.{shape_for};

use request_queue::Asked;
use zk_messages::Shape;

/// The shape that the reply to a request has, unless it is an error. Takes no memory.
pub fn shape_of(asked: &Asked) -> Shape
    ensures { result ≡ shape_for asked.now }
{
    match asked {
        Asked::Refused { code: _ } | Asked::StatOf { path: _ } => Shape::Stat,
        Asked::Empty | Asked::Close => Shape::Empty,
        Asked::Create {
            path: _,
            sequential: _,
        }
        | Asked::SyncOf { path: _ } => Shape::Path,
        Asked::Create2 {
            path: _,
            sequential: _,
        } => Shape::Created2,
        Asked::Content { path: _ } => Shape::Content,
        Asked::AclOf { path: _ } => Shape::Acls,
        Asked::Children { path: _ } => Shape::Children,
        Asked::Children2 { path: _ } => Shape::Children2,
        Asked::Multi(_) => Shape::Multi,
    }
}
