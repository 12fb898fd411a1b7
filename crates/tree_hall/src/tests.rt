//! Tests of what no clause says: how many passes are out, that threads share one store, and which bells are rung.

ghost use Rattle.std.specs.Prelude.{◌≡◌, All, IfOk};
ghost use Rattle.tree_hall.specs.Passes.{IsPassOf, seen_by};
ghost use Rattle.tree_hall.specs.Histories.{HasAdmitted};

use super::*;
use jute_core::{Bytes, Memory};
use std::alloc::Global;
use std::sync::atomic::{AtomicU64, Ordering};
use std::sync::{Arc, Wait};
use std::test::Fail;
use std::thread::{JoinHandle, Threads};
use std::{io, thread};
use store_side::{StoreEnding, StoreSide};

// A store that adds up the times of its ticks. It stands at no past, so its calls promise nothing.
#[derive(Drop)]
struct Sums {
    admitted: u32,
    sum: i64,
    told: Option<u32>,
    next_told: Option<u32>,
}

impl Sums {
    fn new() -> Sums {
        Sums {
            admitted: 0,
            sum: 0,
            told: None,
            next_told: None,
        }
    }
}

impl StoreSide for Sums {
    ghost stands = { λ s past. ⊥ };

    fn admit(&mut self) -> Result<u32, StoreEnding> {
        if self.admitted == u32::MAX {
            return Err(StoreEnding::NumbersUsed);
        }
        self.admitted += 1;
        Ok(self.admitted)
    }

    // Bytes have come to wait for this connection and the next one.
    fn feed(&mut self, connection: u32, _now: i64, _piece: &[u8]) -> Result<(), StoreEnding> {
        self.told = Some(connection);
        self.next_told = Some(connection.wrapping_add(1));
        Ok(())
    }

    fn pull(
        &mut self,
        _connection: u32,
        _limit: usize,
        _into: &mut Vec<u8>,
    ) -> Result<usize, Memory> {
        Ok(0)
    }

    fn lose(&mut self, _connection: u32) {}

    fn tick(&mut self, now: i64) -> Result<(), Memory> {
        self.sum = self.sum.wrapping_add(now);
        Ok(())
    }

    fn ending(&self, _connection: u32) -> Option<StoreEnding> {
        None
    }

    fn waiting(&self, _connection: u32) -> usize {
        0
    }

    fn told(&mut self) -> Option<u32> {
        let told = self.told;
        self.told = self.next_told;
        self.next_told = None;
        told
    }
}

type Summing = Hall<Sums, NoBells>;

// Counts the rings, and adds up for whom they are.
#[derive(Drop)]
struct Counting {
    rings: Arc<AtomicU64>,
}

impl Bells for Counting {
    fn ring(&self, connection: u32) {
        self.rings
            .fetch_add(1000 + connection as u64, Ordering::SeqCst);
    }
}

// Ticks at each of the times below `acts`.
fn tick_on<R: Wait>(rt: &R, hall: &Summing, mut pass: Pass, acts: u32) -> Pass
    requires { IsPassOf hall.now.table.shared.table_id pass }
    ensures { IsPassOf hall.now.table.shared.table_id result }
{
    for now in 0..acts {
        let _ = hall.act(rt, &mut pass, Act::Tick { now: now as i64 });
    }
    pass
}

fn split_all<R: Wait>(
    rt: &R,
    alloc: Global,
    hall: &Summing,
    pass: &mut Pass,
    count: usize,
) -> Result<Vec<Pass>, Fail>
    requires { IsPassOf hall.now.table.shared.table_id pass.old }
    ensures same { IsPassOf hall.now.table.shared.table_id pass.new }
    ensures all { IfOk result (λ v. All (IsPassOf hall.now.table.shared.table_id) v.items) }
{
    let mut passes = Vec::new(alloc);
    for _ in 0..count {
        passes.push(hall.split(rt, pass)?)?;
    }
    Ok(passes)
}

fn meet_all(hall: &Summing, pass: &mut Pass, passes: Vec<Pass>)
    requires mine { IsPassOf hall.now.table.shared.table_id pass.old }
    requires all { All (IsPassOf hall.now.table.shared.table_id) passes.items }
    ensures { IsPassOf hall.now.table.shared.table_id pass.new }
{
    for other in passes {
        hall.meet(pass, other);
    }
}

// The sum of a store that so many threads shared, each with so many acts, or None where a pass is missing.
fn shared_sum<R: Threads + Wait + Sync>(
    rt: &R,
    alloc: Global,
    threads: usize,
    acts: u32,
) -> Result<Option<i64>, Fail> {
    let (hall, mut pass) = Hall::new(alloc, Sums::new(), NoBells)?;
    let passes = split_all(rt, alloc, &hall, &mut pass, threads)?;
    hall.crosses();
    let hall_ref = &hall;
    let back = thread::map_vec(
        rt,
        passes,
        &|pass: Pass| -> Pass
            requires { IsPassOf hall_ref.now.table.shared.table_id pass }
            ensures { IsPassOf hall_ref.entry.now.table.shared.table_id result }
        { tick_on(rt, hall_ref, pass, acts) },
    )?;
    meet_all(&hall, &mut pass, back);
    match hall.close(pass) {
        Ok(store) => Ok(Some(store.sum)),
        Err(_) => Ok(None),
    }
}

// A pass with the hall that it is of, for a thread of its own.
#[derive(Drop)]
struct Job<S: StoreSide + Drop, B: Bells + Drop, R: Wait> {
    rt: R,
    hall: Arc<Hall<S, B>>,
    pass: Pass,
    acts: u32,
    ghost ours: { IsPassOf hall.value.table.shared.table_id pass },
}

impl<S: StoreSide + Drop, B: Bells + Drop, R: Wait + Drop> Job<S, B, R> {
    // Ticks at each of the times below `acts`.
    fn run(self) {
        let Job {
            rt,
            hall,
            mut pass,
            acts,
        } = self;
        for now in 0..acts {
            let _ = hall.act(&rt, &mut pass, Act::Tick { now: now as i64 });
        }
    }
}

// Runs a job on a thread of its own. Its parts are moved there one by one: a proof finds of each that it may be.
fn start<
    S: StoreSide + Send + Drop + 'static,
    B: Bells + Send + Sync + Drop + 'static,
    R: Wait + Send + Drop + 'static,
    T: Threads,
>(rt: &T, job: Job<S, B, R>) -> io::Result<JoinHandle<()>> {
    let Job {
        rt: own,
        hall,
        pass,
        acts,
    } = job;
    hall.crosses();
    moves(&hall);
    let work = move || -> ()
        requires { IsPassOf hall.value.table.shared.table_id pass }
    {
        let job = Job {
            rt: own,
            hall,
            pass,
            acts,
        };
        job.run();
    };
    Ok(thread::spawn(rt, work)?)
}

// How many passes are missing where a thread dropped one.
fn missing_after_drop<R: Threads + Wait + Copy + Send + Drop + 'static>(
    rt: &R,
    alloc: Global,
) -> Result<u64, Fail> {
    let (hall, mut pass) = Hall::new(alloc, Sums::new(), NoBells)?;
    let other = hall.split(rt, &mut pass)?;
    hall.crosses();
    let hall = Arc::new(alloc, hall)?;
    let theirs = Arc::try_clone(&hall)?;
    let job = Job {
        rt: *rt,
        hall: theirs,
        pass: other,
        acts: 10,
    };
    start(rt, job)?.join(rt);
    let Some(hall) = Arc::into_inner(hall) else {
        return Ok(0);
    };
    match hall.close(pass) {
        Ok(_) => Ok(0),
        Err(out) => Ok(out.missing),
    }
}

// Admits a connection.
fn admit<R: Wait, B: Bells + Drop>(
    rt: &R,
    hall: &Hall<Sums, B>,
    pass: &mut Pass,
) -> Result<u32, Fail>
    requires { IsPassOf hall.now.table.shared.table_id pass.old }
    ensures same { IsPassOf hall.now.table.shared.table_id pass.new }
    ensures admitted { IfOk result (λ c. HasAdmitted (seen_by pass.new) c) }
{
    match hall.act(rt, pass, Act::Admit)? {
        Answer::Admitted { connection } => Ok(connection),
        _ => Err(Fail::new("not admitted")),
    }
}

#[test]
fn one_pass_is_missing_until_it_is_met(rt: HostRuntime) -> Result<(), Fail> {
    let (hall, mut pass) = Hall::new(rt.alloc(), Sums::new(), NoBells)?;
    let _ = hall.act(&rt, &mut pass, Act::Tick { now: 5 });
    let other = hall.split(&rt, &mut pass)?;
    let Err(
        StillOut {
            hall,
            mut pass,
            missing,
        },
    ) = hall.close(pass)
    else {
        panic!(rt; "one is out")
    };
    assert!(rt; missing == 1);
    hall.meet(&mut pass, other);
    let Ok(store) = hall.close(pass) else {
        panic!(rt; "none is out")
    };
    assert!(rt; store.sum == 5);
    Ok(())
}

#[test]
fn eight_threads_share_one_store(rt: HostRuntime) -> Result<(), Fail> {
    let sum = shared_sum(&rt, rt.alloc(), 8, 200)?;
    assert!(rt; sum == Some(8 * 19_900));
    Ok(())
}

#[test]
fn a_pass_that_was_dropped_stays_missing(rt: HostRuntime) -> Result<(), Fail> {
    assert!(rt; missing_after_drop(&rt, rt.alloc())? == 1);
    Ok(())
}

#[test]
fn the_acts_own_connection_is_not_rung(rt: HostRuntime) -> Result<(), Fail> {
    let rings = Arc::new(rt.alloc(), AtomicU64::new(0))?;
    let bells = Counting {
        rings: Arc::try_clone(&rings)?,
    };
    let (hall, mut pass) = Hall::new(rt.alloc(), Sums::new(), bells)?;
    let connection = admit(&rt, &hall, &mut pass)?;
    let piece = Bytes::copy_of(rt.alloc(), &[1, 2, 3])?;
    let act = Act::Feed {
        connection,
        now: 7,
        piece,
    };
    let _ = hall.act(&rt, &mut pass, act);
    assert!(rt; rings.load(Ordering::SeqCst) == 1002);
    Ok(())
}
