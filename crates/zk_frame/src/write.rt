//! Writing frames.

ghost use Rattle.std.specs.Prelude.{◌≡◌, ◌<◌, ◌^◌, ◌++◌, length, OnOk, OnErr};
ghost use Rattle.jute_core.specs.Frames.{frame};

use jute_core::{Memory, put_buffer};

/// Appends the frame with this body. Without memory the vector stays as it was.
pub fn write_frame(body: &[u8], into: &mut Vec<u8>) -> Result<(), Memory>
    requires { length body.now < 2 ^ 31 }
    ensures ok { OnOk result (into.new.items ≡ into.old.items ++ frame body.now) }
    ensures err { OnErr result (into.new.items ≡ into.old.items) }
{
    put_buffer(into, Some(body))?;
    Ok(())
}
