//! What a thread carries to take part.

use crate::view::View;
use atomic_table::Badge;

/// The right to act on one hall. It has no bytes. A clause reads its number, the history that it has seen and its own calls
/// by the words of `specs/Passes.antt`.
#[derive(Drop)]
pub struct Pass {
    pub(crate) badge: Badge<View>,
}
