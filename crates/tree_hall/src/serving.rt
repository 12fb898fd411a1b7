//! One act of a store.
ghost use Rattle.std.specs.Prelude.{◌≡◌, []};
ghost use Rattle.store_side.specs.Past.{Past as Went};
ghost use Rattle.store_side.specs.Follows.{IsAdmitted};
ghost use Rattle.store_side.specs.Owed.{IsTime};
ghost use Rattle.tree_hall.specs.Histories.{Allows, Answers, IsTimely, Knows};
ghost use Rattle.tree_hall.specs.declared.act.Act.TheVariants.{Admit, Feed, Pull, Lose, Tick};

use crate::act::{Act, Answer};
use jute_core::{Bytes, Memory};
use std::alloc::Global;
use store_side::{StoreEnding, StoreSide};

// The longest pull for which room is taken before the turn.
const SHORT: usize = 4096;

/// Room for what a short pull may bring, taken before the turn. A longer one, and one for which there is none yet, takes it as it comes.
pub(crate) fn room(alloc: Global, act: &Act) -> Vec<u8>
    ensures { result.items ≡ [] }
{
    let mut into = Vec::new(alloc);
    if let Act::Pull { limit, .. } = act
        && *limit <= SHORT
    {
        let _ = into.reserve(*limit);
    }
    into
}

fn admit<S: StoreSide>(store: &mut S) -> Result<Answer, StoreEnding>
    ensures kind { Answers Admit result }
    ensures allowed { (past : Went) → S.stands store.old past → (new : Went) × Allows past Admit result new × S.stands store.new new }
{
    let connection = store.admit()?;
    Ok(Answer::Admitted { connection })
}

fn feed<S: StoreSide>(
    store: &mut S,
    connection: u32,
    now: i64,
    piece: &Bytes,
) -> Result<Answer, StoreEnding>
    requires { IsTime now }
    ensures kind { Answers (Feed connection now piece.now) result }
    ensures allowed { (past : Went) → S.stands store.old past → IsAdmitted past connection
        → (new : Went) × Allows past (Feed connection now piece.now) result new × S.stands store.new new }
{
    store.feed(connection, now, piece.as_slice())?;
    Ok(Answer::Fed)
}

fn pull<S: StoreSide>(
    store: &mut S,
    connection: u32,
    limit: usize,
    mut into: Vec<u8>,
) -> Result<Answer, StoreEnding>
    requires { into.items ≡ [] }
    ensures kind { Answers (Pull connection limit) result }
    ensures allowed { (past : Went) → S.stands store.old past → IsAdmitted past connection
        → (new : Went) × Allows past (Pull connection limit) result new × S.stands store.new new }
{
    store.pull(connection, limit, &mut into)?;
    // No more than that came, but a store that stands at no past does not say so.
    into.truncate(limit);
    Ok(Answer::Pulled(Bytes::of(into)))
}

fn lose<S: StoreSide>(store: &mut S, connection: u32) -> Result<Answer, StoreEnding>
    ensures kind { Answers (Lose connection) result }
    ensures allowed { (past : Went) → S.stands store.old past → IsAdmitted past connection
        → (new : Went) × Allows past (Lose connection) result new × S.stands store.new new }
{
    store.lose(connection);
    Ok(Answer::Gone)
}

fn tick<S: StoreSide>(store: &mut S, now: i64) -> Result<Answer, StoreEnding>
    requires { IsTime now }
    ensures kind { Answers (Tick now) result }
    ensures allowed { (past : Went) → S.stands store.old past → (new : Went) × Allows past (Tick now) result new × S.stands store.new new }
{
    store.tick(now)?;
    Ok(Answer::Ticked)
}

/// Lets the store do an act. What is pulled goes into `into`.
pub(crate) fn perform<S: StoreSide>(
    store: &mut S,
    act: &Act,
    into: Vec<u8>,
) -> Result<Answer, StoreEnding>
    requires time { IsTimely act.now }
    requires room { into.items ≡ [] }
    ensures kind { Answers act.now result }
    ensures allowed { (past : Went) → S.stands store.old past → Knows past act.now → (new : Went) × Allows past act.now result new × S.stands store.new new }
{
    match act {
        Act::Admit => admit(store),
        Act::Feed {
            connection,
            now,
            piece,
        } => feed(store, *connection, *now, piece),
        Act::Pull { connection, limit } => pull(store, *connection, *limit, into),
        Act::Lose { connection } => lose(store, *connection),
        Act::Tick { now } => tick(store, *now),
    }
}
