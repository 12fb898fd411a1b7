//! What clients received, counted.

ghost use Rattle.std.specs.Prelude.{◌≡◌, ◌++◌, ℕ, List, drop, IfSome, IfNone};
ghost use Rattle.jute_core.specs.Frames.{FitsFrame, IsRest, Stream, frame};
ghost use Rattle.replay_cli.specs.Summary.{has_error, is_event, next_where, with_body, with_received};

use crate::show::length_of;

// What the header of an event begins with: xid -1.
const EVENT: [u8; 4] = [255; 4];

// The code of no error.
const NO_ERROR: [u8; 4] = [0; 4];

/// How many events and replies clients received, and how many of them told an error. A count stands still at its last value.
#[derive(Clone, Copy, Debug, Drop, PartialEq, Eq)]
pub struct Tally {
    pub events: u64,
    pub replies: u64,
    pub errors: u64,
}

// Splits off the frame in front, and answers its body and what follows it; `None` where there is no whole one.
fn split_frame(bytes: &[u8]) -> Option<(&[u8], &[u8])>
    ensures whole { IfSome result (λ parts. FitsFrame parts.0.now × (bytes.now ≡ frame parts.0.now ++ parts.1.now)) }
    ensures none { IfNone result (IsRest bytes.now) }
{
    if bytes.len() < 4 {
        return None;
    }
    let (prefix, rest) = bytes.split_at(4);
    let Ok(size) = length_of(prefix, i32::MAX) else {
        return None;
    };
    if size > rest.len() {
        return None;
    }
    Some(rest.split_at(size))
}

// Whether the header of a body tells an error.
fn has_error(body: &[u8]) -> bool
    ensures { result ≡ has_error body.now }
{
    if body.len() < 12 {
        return true;
    }
    let (_, code) = body.split_at(12);
    !code.starts_with(&NO_ERROR)
}

fn next_where(holds: bool, count: u64) -> u64
    ensures { result ≡ next_where holds count }
{
    if holds {
        count.saturating_add(1)
    } else {
        count
    }
}

impl Tally {
    /// No event and no reply.
    pub fn new() -> Tally
        ensures { result ≡ record { events = 0; replies = 0; errors = 0 } }
    {
        Tally {
            events: 0,
            replies: 0,
            errors: 0,
        }
    }

    // Counts a reply or an event.
    #[tactic(auto, unfolding(crate::specs::Summary::with_body))]
    fn count(self, body: &[u8]) -> Tally
        ensures { result ≡ with_body self body.now }
    {
        let is_event = body.starts_with(&EVENT);
        Tally {
            events: next_where(is_event, self.events),
            replies: next_where(!is_event, self.replies),
            errors: next_where(has_error(body), self.errors),
        }
    }

    /// Counts what a client received: the whole frames but the first, which answers its connect request. Linear in the bytes' frames.
    pub fn count_received(self, received: &[u8]) -> Tally
        ensures { (bodies : List (List ℕ)) × (rest : List ℕ) × Stream bodies rest received.now × (result ≡ with_received self bodies) }
    {
        let Some((_, mut left)) = split_frame(received) else {
            return self;
        };
        let mut tally = self;
        while let Some((body, more)) = split_frame(left) {
            tally = tally.count(body);
            left = more;
        }
        tally
    }
}
