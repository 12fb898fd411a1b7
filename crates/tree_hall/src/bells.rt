//! How connections hear that bytes wait for them. What a bell does is no part of any clause.

ghost use Rattle.store_side.specs.Past.{Past as Went};

use store_side::StoreSide;

/// Where connections hear that bytes wait for them.
pub trait Bells {
    /// Tells a connection that bytes have come to wait for it.
    fn ring(&self, connection: u32);
}

/// Nobody hears anything.
#[derive(Drop)]
pub struct NoBells;

impl Bells for NoBells {
    fn ring(&self, _connection: u32) {}
}

// How many connections are heard of in one turn; what the store tells beyond that is heard of in the next one.
const MOST: usize = 32;

/// The connections for which bytes have come to wait, as far as the store told them in one turn.
#[derive(Drop)]
pub(crate) struct Heard {
    connections: [u32; MOST],
    count: usize,
}

impl Heard {
    /// Asks the store for which connections bytes have come to wait. It then stands where it stood.
    pub fn by<S: StoreSide>(store: &mut S) -> Heard
        ensures { (past : Went) → S.stands store.old past → S.stands store.new past }
    {
        let mut connections = [0; MOST];
        let mut count = 0;
        while count < MOST {
            let Some(connection) = store.told() else {
                break
            };
            connections[count] = connection;
            count += 1;
        }
        Heard { connections, count }
    }

    /// Rings for each of these connections, but for the act's own.
    pub fn ring<B: Bells>(&self, bells: &B, own: Option<u32>) {
        for connection in self.connections.iter().take(self.count) {
            if own != Some(*connection) {
                bells.ring(*connection);
            }
        }
    }
}
