//! Why a text is not sealed or opened.

ghost use Rattle.std.specs.Prelude.{◌≡◌, ◌^◌, ◌≤◌, ℕ, List, length, IfNone};
ghost use Rattle.gcm_mode.specs.Gcm.{passed_length};
ghost use Rattle.gcm_mode.specs.declared.fault.GcmFault.TheVariants.{Memory};

use std::alloc::AllocError;
use thiserror::Error;

/// The most bytes that a text, or its additional data, may have.
const LONGEST: usize = 268_435_456;

/// Why a text was not sealed or opened.
#[derive(Debug, Drop, Error)]
pub enum GcmFault {
    /// The text, or else the additional data, has this many bytes, more than 268,435,456.
    #[error("{length} bytes are more than {LONGEST}")]
    TooLong { length: usize },
    /// No memory was left for what was to be appended.
    #[error("out of memory")]
    Memory,
}

impl From<AllocError> for GcmFault {
    ghost from_gives = { λ _ fault. fault ≡ Memory };

    fn from(_error: AllocError) -> GcmFault {
        GcmFault::Memory
    }
}

/// The length that passes the limit: that of the text, or else that of the additional data.
pub(crate) fn passed_length(aad: usize, text: usize) -> Option<usize>
    ensures value { (a x : List ℕ) → length a ≡ aad → length x ≡ text → result ≡ passed_length a x }
    ensures short { IfNone result ((aad ≤ 2 ^ 28) × (text ≤ 2 ^ 28)) }
{
    if text > LONGEST {
        Some(text)
    } else if aad > LONGEST {
        Some(aad)
    } else {
        None
    }
}
