//! Pieces of a slice.

ghost use Rattle.std.specs.Prelude.{◌≡◌, ◌+◌, ◌≤◌, length, take, drop};

/// The `N` bytes from `at` on.
pub(crate) fn bytes_at<const N: usize>(bytes: &[u8], at: usize) -> [u8; N]
    requires { at + N ≤ length bytes.now }
    ensures { result ≡ take N (drop at bytes.now) }
{
    let mut piece = [0; N];
    piece.copy_from_slice(&bytes[at..at + N]);
    piece
}
