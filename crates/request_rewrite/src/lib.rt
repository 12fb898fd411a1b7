//! Requests on their way to a store that is not trusted: every name and payload sealed, and all else as it was.
//!
//! `specs/Veil.antt` says what the store is handed in place of a request, under exactly which IVs; `specs/Asks.antt` what
//! is kept of the request for its reply; `specs/Ivs.antt` which IVs it takes. The crate stands on `zk_messages` for
//! requests and for which of them are refused, on `path_seal`, `payload_seal` and `watch_rewrite` for sealing, and on
//! `request_queue` for what waits for a reply.
//!
//! Read [`veil_request`] first, then `veil_create` in `records.rt`, then `veil_ops` in `ops.rt`, then the laws at the end of
//! this file.
#![tactic(auto)]

ghost use Rattle.request_rewrite.specs.Laws.{IsVeiledOnce, GrowsByThirty, IsWritableWhenVeiled, IsShortWhenAsked};

mod names;
mod ops;
mod records;
mod requests;
mod veiling;

pub use veiling::{NotVeiled, veil_request};

/// The law that a request has one number of payloads to seal, and under keys and IVs one veiled form.
pub fn veiled_once()
    ensures { IsVeiledOnce }
{}

/// The law that a body is handed up in at most 30 times its bytes. The most comes of a path with many names of one byte:
/// two bytes of it become 59.
pub fn grows_by_thirty()
    ensures { GrowsByThirty }
{}

/// The law that what is handed up for a client's body of at most 4,194,303 bytes can be written, the stand-in of a refused
/// request too.
pub fn writable_when_veiled()
    ensures { IsWritableWhenVeiled }
{}

/// The law that what waits for the reply to a request that was read from a body of at most 134,217,728 bytes is short, as
/// opening that reply asks for. A multi has no more operations than its body has bytes.
pub fn short_when_asked()
    ensures { IsShortWhenAsked }
{}

#[cfg(test)]
mod tests;
