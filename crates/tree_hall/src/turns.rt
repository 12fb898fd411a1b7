//! The steps on the table.
ghost use Rattle.std.specs.Prelude.{◌≡◌, ◌≢◌, ◌+◌, ◌^◌, ◌<◌, ◌++◌, [], ◌∷◌, Some, None, true, false};
ghost use Rattle.tree_hall.specs.declared.view.Desk.{Desk};
ghost use Rattle.tree_hall.specs.declared.view.Role.TheVariants.{Idle, Waits, Has, Told, Splits, Alone};
ghost use Rattle.tree_hall.specs.Histories.{Answers, IsPlayed, LeadsTo, Named, IsTimely};
ghost use Rattle.tree_hall.specs.Turns.{posed, Took, TellsOf, HasStore, Served, Turned, Gathered, Same, newcomer, item_of};

use crate::act::{Act, Answer, Call};
use crate::bells::Heard;
use crate::plays::{
    Both, CountMet, Draw, LookMade, LookMet, Newcomer, Number, Opening, PassOn, Take, Tell,
};
use crate::serving::perform;
use crate::sleepers::Sleepers;
use crate::view::{Desk, View};
use atomic_table::{Seat, Shared, TableRule};
use std::snapshot::Snapshot;
use std::sync::Wait;
use std::thread;
use store_side::{StoreEnding, StoreSide};

pub(crate) const NEXT: usize = 0;

pub(crate) const SERVING: usize = 1;

pub(crate) const COUNT: usize = 2;

pub(crate) const MADE: usize = 3;

pub(crate) const MET: usize = 4;

// How often the next in line looks before it sleeps.
const LOOKS: u32 = 100;

/// The rule of the table: `Kept` of `specs/Turns.antt`.
pub struct Turns;

impl<S: StoreSide> TableRule<Option<Desk<S>>, View, Snapshot<S>> for Turns {
    ghost use Rattle.tree_hall.specs.Turns.{Kept, starting};

    ghost holds = { λ key. Kept S.stands (S.stands key.value) };

    ghost first = { λ key. starting };
}

pub(crate) type Place<S> = Seat<Option<Desk<S>>, View>;

pub(crate) type Board<S> = Shared<Option<Desk<S>>, View, Snapshot<S>, Turns>;

/// Draws a ticket.
pub(crate) fn draw<S: StoreSide, R: Wait>(rt: &R, board: &Board<S>, seat: &mut Place<S>) -> u64
    requires seat { (seat.old.table_id ≡ board.now.table_id) × (board.now.table_id.words ≡ 5) }
    requires idle { (seat.old.me.0.role ≡ Idle) × (seat.old.me.1 ≡ []) }
    ensures seat { (seat.new.table_id ≡ seat.old.table_id) × (seat.new.id ≡ seat.old.id) }
    ensures view { seat.new.me ≡ (posed seat.old.me.0 (Waits result), []) }
    ensures below { result + 1 < 2 ^ 64 }
{
    for _ in rt.forever() {
        let next = board.peek(NEXT);
        if next < u64::MAX {
            let found = board.compare_exchange::<Draw>(seat, NEXT, next, next + 1);
            if found == next {
                return next;
            }
        } else {
            thread::yield_now();
        }
    }
    unreachable!()
}

/// Takes the store where the ticket is served.
pub(crate) fn take<J: Opening, S: StoreSide>(
    board: &Board<S>,
    seat: &mut Place<S>,
    ticket: u64,
) -> bool
    requires seat { (seat.old.table_id ≡ board.now.table_id) × (board.now.table_id.words ≡ 5) }
    requires waits { (seat.old.me.0.role ≡ Waits ticket) × (seat.old.me.1 ≡ []) }
    requires opened { Same (S.stands board.now.key.value) J.opened }
    ensures seat { (seat.new.table_id ≡ seat.old.table_id) × (seat.new.id ≡ seat.old.id) }
    ensures took { result ≡ true → Took S.stands J.opened ticket seat.old.me seat.new.me }
    ensures not { result ≡ false → seat.new.me ≡ seat.old.me }
{
    board.load::<Take<J>>(seat, SERVING) == ticket
}

/// Waits until the ticket is served, and takes the store.
pub(crate) fn wait<J: Opening, S: StoreSide, R: Wait>(
    rt: &R,
    board: &Board<S>,
    sleepers: &Sleepers,
    seat: &mut Place<S>,
    ticket: u64,
)
    requires seat { (seat.old.table_id ≡ board.now.table_id) × (board.now.table_id.words ≡ 5) }
    requires waits { (seat.old.me.0.role ≡ Waits ticket) × (seat.old.me.1 ≡ []) }
    requires opened { Same (S.stands board.now.key.value) J.opened }
    ensures seat { (seat.new.table_id ≡ seat.old.table_id) × (seat.new.id ≡ seat.old.id) }
    ensures took { Took S.stands J.opened ticket seat.old.me seat.new.me }
{
    let mut looks = 0u32;
    for _ in rt.forever() {
        let shown = sleepers.read(ticket);
        if take::<J, S>(board, seat, ticket) {
            return;
        }
        // The next in line alone looks a few times more before it sleeps.
        if looks < LOOKS && board.peek(SERVING) == ticket.wrapping_sub(1) {
            looks += 1;
        } else {
            looks = 0;
            sleepers.sleep(rt, ticket, shown);
        }
    }
    unreachable!()
}

/// The call of the desk stands in the history from here on.
pub(crate) fn tell<J: Opening, S: StoreSide>(
    board: &Board<S>,
    seat: &mut Place<S>,
    ticket: u64,
    desk: &Snapshot<Desk<S>>,
)
    requires seat { (seat.old.table_id ≡ board.now.table_id) × (board.now.table_id.words ≡ 5) }
    requires has { (seat.old.me.0.role ≡ Has ticket) × (ticket + 1 < 2 ^ 64) × (seat.old.me.1 ≡ (0, Some desk.now.value) ∷ []) }
    requires played { IsPlayed J.opened (seat.old.me.0.seen ++ item_of seat.old.me.0.number desk.now.value ∷ []) }
    requires opened { Same (S.stands board.now.key.value) J.opened }
    ensures seat { (seat.new.table_id ≡ seat.old.table_id) × (seat.new.id ≡ seat.old.id) }
    ensures told { TellsOf J.opened ticket desk.now.value seat.old.me seat.new.me }
{
    board.store::<Tell<J>>(seat, COUNT, ticket + 1);
}

/// Puts the store back, and serves the next ticket.
pub(crate) fn pass_on<J: Opening, S: StoreSide>(
    board: &Board<S>,
    sleepers: &Sleepers,
    seat: &mut Place<S>,
    ticket: u64,
    desk: &Snapshot<Desk<S>>,
)
    requires seat { (seat.old.table_id ≡ board.now.table_id) × (board.now.table_id.words ≡ 5) }
    requires told { (seat.old.me.0.role ≡ Told ticket) × (ticket + 1 < 2 ^ 64) × (seat.old.me.1 ≡ (0, Some desk.now.value) ∷ []) }
    requires store { LeadsTo J.opened seat.old.me.0.seen (S.stands desk.now.value.store) }
    requires opened { Same (S.stands board.now.key.value) J.opened }
    ensures seat { (seat.new.table_id ≡ seat.old.table_id) × (seat.new.id ≡ seat.old.id) }
    ensures view { seat.new.me ≡ (posed seat.old.me.0 Idle, []) }
{
    board.store::<PassOn>(seat, SERVING, ticket + 1);
    sleepers.wake(ticket + 1);
}

/// Takes the store out of the slot.
fn lift<S: StoreSide>(board: &Board<S>, seat: &mut Place<S>) -> Desk<S>
    requires { (seat.old.table_id ≡ board.now.table_id) × ((y : Desk S) × (seat.old.me.1 ≡ (0, Some y) ∷ [])) }
    ensures seat { (seat.new.table_id ≡ seat.old.table_id) × (seat.new.id ≡ seat.old.id) }
    ensures desk { (seat.old.me.1 ≡ (0, Some result) ∷ []) × (seat.new.me ≡ (seat.old.me.0, (0, None) ∷ [])) }
{
    board.exchange(seat, 0, None).unwrap()
}

/// Lays the store into the slot.
fn lay<S: StoreSide + Drop>(board: &Board<S>, seat: &mut Place<S>, desk: Desk<S>)
    requires { (seat.old.table_id ≡ board.now.table_id) × (seat.old.me.1 ≡ (0, None) ∷ []) }
    ensures seat { (seat.new.table_id ≡ seat.old.table_id) × (seat.new.id ≡ seat.old.id) }
    ensures desk { seat.new.me ≡ (seat.old.me.0, (0, Some desk) ∷ []) }
{
    let _nothing = board.exchange(seat, 0, Some(desk));
}

/// One act of the store, by the seat that has it, with the connections that the store told of.
fn serve<J: Opening, S: StoreSide + Drop>(
    board: &Board<S>,
    sleepers: &Sleepers,
    seat: &mut Place<S>,
    ticket: u64,
    act: Act,
    into: Vec<u8>,
) -> (Result<Answer, StoreEnding>, Heard)
    requires seat { (seat.old.table_id ≡ board.now.table_id) × (board.now.table_id.words ≡ 5) }
    requires has { (seat.old.me.0.role ≡ Has ticket) × (ticket + 1 < 2 ^ 64) }
    requires store { HasStore S.stands J.opened seat.old.me }
    requires opened { Same (S.stands board.now.key.value) J.opened }
    requires named { Named seat.old.me.0.seen act }
    requires time { IsTimely act }
    requires room { into.items ≡ [] }
    ensures seat { (seat.new.table_id ≡ seat.old.table_id) × (seat.new.id ≡ seat.old.id) }
    ensures kind { Answers act result.0 }
    ensures served { Served J.opened act result.0 seat.old.me seat.new.me }
{
    let Desk { mut store, call: _ } = lift(board, seat);
    let result = perform(&mut store, &act, into);
    let heard = Heard::by(&mut store);
    let call = Call { act, result };
    let desk = Desk {
        store,
        call: Snapshot::of(&call),
    };
    let laid = Snapshot::of(&desk);
    lay(board, seat, desk);
    tell::<J, S>(board, seat, ticket, &laid);
    pass_on::<J, S>(board, sleepers, seat, ticket, &laid);
    let Call { act: _, result } = call;
    (result, heard)
}

/// One act, in its turn, with the connections that the store told of.
pub(crate) fn take_turn<J: Opening, S: StoreSide + Drop, R: Wait>(
    rt: &R,
    board: &Board<S>,
    sleepers: &Sleepers,
    seat: &mut Place<S>,
    act: Act,
    into: Vec<u8>,
) -> (Result<Answer, StoreEnding>, Heard)
    requires seat { (seat.old.table_id ≡ board.now.table_id) × (board.now.table_id.words ≡ 5) }
    requires idle { (seat.old.me.0.role ≡ Idle) × (seat.old.me.1 ≡ []) }
    requires opened { Same (S.stands board.now.key.value) J.opened }
    requires named { Named seat.old.me.0.seen act }
    requires time { IsTimely act }
    requires room { into.items ≡ [] }
    ensures seat { (seat.new.table_id ≡ seat.old.table_id) × (seat.new.id ≡ seat.old.id) }
    ensures kind { Answers act result.0 }
    ensures acted { Turned J.opened act result.0 seat.old.me seat.new.me }
{
    let ticket = draw(rt, board, seat);
    wait::<J, S, R>(rt, board, sleepers, seat, ticket);
    serve::<J, S>(board, sleepers, seat, ticket, act, into)
}

/// Draws the number of one more pass.
fn draw_number<S: StoreSide, R: Wait>(rt: &R, board: &Board<S>, seat: &mut Place<S>) -> u64
    requires seat { (seat.old.table_id ≡ board.now.table_id) × (board.now.table_id.words ≡ 5) }
    requires idle { (seat.old.me.0.role ≡ Idle) × (seat.old.me.1 ≡ []) }
    ensures seat { (seat.new.table_id ≡ seat.old.table_id) × (seat.new.id ≡ seat.old.id) }
    ensures view { seat.new.me ≡ (posed seat.old.me.0 (Splits result), []) }
{
    for _ in rt.forever() {
        let made = board.peek(MADE);
        if made < u64::MAX {
            let found = board.compare_exchange::<Number>(seat, MADE, made, made + 1);
            if found == made {
                return made;
            }
        } else {
            thread::yield_now();
        }
    }
    unreachable!()
}

/// A seat for one more pass, which has seen what this one has.
pub(crate) fn part<S: StoreSide, R: Wait>(
    rt: &R,
    board: &Board<S>,
    seat: &mut Place<S>,
) -> (u64, Place<S>)
    requires seat { (seat.old.table_id ≡ board.now.table_id) × (board.now.table_id.words ≡ 5) }
    requires idle { (seat.old.me.0.role ≡ Idle) × (seat.old.me.1 ≡ []) }
    ensures seat { (seat.new.table_id ≡ seat.old.table_id) × (seat.new.id ≡ seat.old.id) × (result.1.table_id ≡ seat.old.table_id) }
    ensures view { seat.new.me ≡ seat.old.me }
    ensures new { result.1.me ≡ (newcomer seat.old.me.0 result.0, []) }
{
    let number = draw_number(rt, board, seat);
    let other = board.split_seat::<Newcomer>(seat);
    (number, other)
}

/// Takes in what the other seat has seen and its calls.
pub(crate) fn gather<J: Opening, S: StoreSide>(
    board: &Board<S>,
    seat: &mut Place<S>,
    other: Place<S>,
)
    requires seat { (seat.old.table_id ≡ board.now.table_id) × (other.table_id ≡ board.now.table_id) × (board.now.table_id.words ≡ 5) }
    requires idle { (seat.old.me.0.role ≡ Idle) × (seat.old.me.1 ≡ []) }
    requires other { (other.me.0.role ≡ Idle) × (other.me.1 ≡ []) }
    requires opened { Same (S.stands board.now.key.value) J.opened }
    ensures seat { (seat.new.table_id ≡ seat.old.table_id) × (seat.new.id ≡ seat.old.id) }
    ensures view { Gathered J.opened seat.old.me other.me seat.new.me }
{
    board.join_seat::<Both>(seat, other);
    board.fetch_add::<CountMet<J>>(seat, MET, 1);
}

/// How many passes beside this one are out. At 0 it is told so.
pub(crate) fn look_round<S: StoreSide>(board: &Board<S>, seat: &mut Place<S>) -> u64
    requires seat { (seat.old.table_id ≡ board.now.table_id) × (board.now.table_id.words ≡ 5) }
    requires idle { (seat.old.me.0.role ≡ Idle) × (seat.old.me.1 ≡ []) }
    ensures seat { (seat.new.table_id ≡ seat.old.table_id) × (seat.new.id ≡ seat.old.id) }
    ensures alone { result ≡ 0 → seat.new.me ≡ (posed seat.old.me.0 Alone, []) }
    ensures not { result ≢ 0 → seat.new.me ≡ seat.old.me }
{
    let met = board.load::<LookMet>(seat, MET);
    let made = board.load::<LookMade>(seat, MADE);
    made - met - 1
}
