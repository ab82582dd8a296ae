// Seats that take turns at a counter, in two threads and in one.
ghost use Rattle.std.specs.Prelude.{◌≡◌, ◌%◌, ◌^◌, [], ◌∷◌, ◌++◌, length, IfSome};
ghost use Rattle.turn_lock.specs.Counting.{countdown, IsCountedByTwo};
ghost use Rattle.turn_lock.specs.Fronts.{events, own};
ghost use Rattle.turn_lock.specs.Seats.{front, numbers, IsSeatOf, Turned};

use std::alloc::Global;
use std::sync::Wait;
use std::test::Fail;
use std::thread::{Threads, join};
use turn_lock::{Logged, Seat, TurnCall, TurnLock};

const TURNS: u64 = 2_000;

/// A counter that wraps. It stands for as many events as it counted.
#[derive(Drop)]
struct Counter {
    count: u64,
}

impl Logged for Counter {
    type Event = u64;

    ghost use Rattle.std.specs.Prelude.{◌≡◌, ◌%◌, ◌^◌, length};

    ghost stands = { λ history counter. counter.count ≡ length history % 2 ^ 64 };
}

/// Counts one up, and answers what the counter was. Its event is the call's own number.
#[derive(Drop)]
struct Count {
    call: u64,
}

impl TurnCall<Counter> for Count {
    type Reply = u64;

    ghost use Rattle.std.specs.Prelude.{◌≡◌, ◌%◌, ◌^◌, [], ◌∷◌, length};

    ghost entries = { λ count _. count.call ∷ [] };

    ghost gives = { λ count history was after. (was ≡ length history % 2 ^ 64) × (after ≡ count) };

    fn run(&mut self, state: &mut Counter) -> u64 {
        let was = state.count;
        state.count = was.wrapping_add(1);
        was
    }
}

/// Reads the counter into a place of the caller's, which is no event.
#[derive(Drop)]
struct Read<'a> {
    into: &'a mut u64,
}

impl<'a> TurnCall<Counter> for Read<'a> {
    type Reply = ();

    ghost use Rattle.std.specs.Prelude.{◌≡◌, ◌%◌, ◌^◌, [], length};

    ghost entries = { λ _ _. [] };

    // The place stays the same one.
    ghost gives = { λ read history _ after. (after.into.ghost_name ≡ read.into.ghost_name)
        × (after.into.now ≡ length history % 2 ^ 64) };

    fn run(&mut self, state: &mut Counter) {
        *self.into = state.count;
    }
}

// One turn: the call is the seat's own entry, and the counter was as many as there are entries before it.
fn count_one<R: Wait>(
    rt: &R,
    lock: &TurnLock<Counter>,
    seat: Seat<Counter>,
    call: u64,
) -> (Seat<Counter>, u64)
    requires { IsSeatOf lock.now seat }
    ensures seat { IsSeatOf lock.now result.0 }
    ensures turned { Turned (call ∷ [])
        (λ history. result.1 ≡ length history % 2 ^ 64) seat result.0 }
{
    lock.with_turn(rt, seat, &mut Count { call })
}

// One turn without an entry of the seat's own.
fn read_one<R: Wait>(rt: &R, lock: &TurnLock<Counter>, seat: Seat<Counter>) -> (Seat<Counter>, u64)
    requires { IsSeatOf lock.now seat }
    ensures seat { IsSeatOf lock.now result.0 }
    ensures turned { Turned [] (λ history. result.1 ≡ length history % 2 ^ 64) seat result.0 }
{
    let mut count = 0;
    let mut call = Read { into: &mut count };
    let (seat, ()) = lock.with_turn(rt, seat, &mut call);
    (seat, count)
}

// Takes so many turns, and answers the sum of what the counter was. The seat's own entries are then the calls, each
// once and in order, and before them those that it had.
fn take_turns<R: Wait>(
    rt: &R,
    lock: &TurnLock<Counter>,
    mut seat: Seat<Counter>,
    turns: u64,
) -> (Seat<Counter>, u64)
    requires { IsSeatOf lock.now seat }
    ensures seat { IsSeatOf lock.now result.0 }
    ensures numbers { numbers result.0 ≡ numbers seat }
    ensures own { events (own (numbers seat) (front result.0))
        ≡ countdown turns ++ events (own (numbers seat) (front seat)) }
{
    let mut sum = 0u64;
    for call in 0..turns {
        let (next, was) = count_one(rt, lock, seat, call);
        seat = next;
        sum = sum.wrapping_add(was);
    }
    (seat, sum)
}

// Two threads take so many turns each on a new counter, and their seats are joined. Each thread's calls stand in the
// joined front, each once and in order.
fn count_by_two<R: Threads + Wait + Sync>(
    rt: &R,
    alloc: Global,
    turns: u64,
) -> Option<(TurnLock<Counter>, Seat<Counter>, u64)>
    ensures seat { IfSome result (λ r. IsSeatOf r.0 r.1) }
    ensures counted { IfSome result (λ r. IsCountedByTwo turns (numbers r.1) (front r.1)) }
{
    let (lock, first) = TurnLock::new(alloc, Counter { count: 0 }).ok()?;
    let (one, other) = lock.split(first);
    let ((one, a), (other, b)) = join(
        rt,
        || take_turns(rt, &lock, one, turns),
        || take_turns(rt, &lock, other, turns),
    );
    let both = lock.join(one, other);
    Some((lock, both, a.wrapping_add(b)))
}

#[test]
fn two_threads_count_each_call_once(rt: HostRuntime) -> Result<(), Fail> {
    let Some((lock, both, sum)) = count_by_two(&rt, rt.alloc(), TURNS) else {
        panic!(rt; "memory is short")
    };
    let (_seat, count) = read_one(&rt, &lock, both);
    println!(rt; "{count} turns, whose replies add up to {sum}")?;
    assert_eq!(rt; count, 4_000);
    assert_eq!(rt; sum, 7_998_000);
    Ok(())
}

#[test]
fn seats_take_turns_and_are_split_and_joined(rt: HostRuntime) -> Result<(), Fail> {
    let Ok((lock, seat)) = TurnLock::new(rt.alloc(), Counter { count: 0 }) else {
        panic!(rt; "memory is short")
    };
    let (seat, was) = count_one(&rt, &lock, seat, 7);
    assert_eq!(rt; was, 0);
    let (one, other) = lock.split(seat);
    let (one, first) = count_one(&rt, &lock, one, 8);
    let (other, second) = count_one(&rt, &lock, other, 9);
    let (one, third) = count_one(&rt, &lock, one, 10);
    assert_eq!(rt; (first, second, third), (1, 2, 3));
    let both = lock.join(one, other);
    let (both, found) = read_one(&rt, &lock, both);
    let (both, found_again) = read_one(&rt, &lock, both);
    assert_eq!(rt; (found, found_again), (4, 4));
    let (_both, last) = count_one(&rt, &lock, both, 11);
    assert_eq!(rt; last, 4);
    Ok(())
}
