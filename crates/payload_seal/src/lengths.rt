//! The lengths that a store counts.

ghost use Rattle.std.specs.Prelude.{pos, ◌≤ℤ◌, ◌-ℤ◌};
ghost use Rattle.std.specs.Option.{SomeIff};

/// The bytes of an IV, a tag, a flag and a digest.
const OVERHEAD: i32 = 61;

/// The length of the content whose payload has `stored` bytes; a null content counts as empty. None
/// exactly where no payload is so short.
pub fn plain_length(stored: i32) -> Option<i32>
    ensures { SomeIff result (pos 61 ≤ℤ stored) (stored -ℤ pos 61) }
{
    if stored >= OVERHEAD {
        Some(stored - OVERHEAD)
    } else {
        None
    }
}
