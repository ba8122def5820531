// Drain: the refusals 5, 6, 7, 10 and 17, then the entries of the drain order.
ghost use Rattle.std.specs.Prelude.{ℕ, ◌+◌, ◌*◌, ◌<◌, ◌≤◌, ◌^◌, ◌≡◌, length, take};
ghost use Rattle.machine.specs.Lists.{lent, scripts_of, answered};
ghost use Rattle.machine.specs.Tidy.{price, cost, bound};
ghost use Rattle.machine.specs.Drain.{until, sweep, drain};
ghost use Rattle.lock_tidy.specs.Rests.{words_at};
ghost use Rattle.lock.specs.ByValue.{drain_refusal_of, drain_of, bound_of};
ghost use Rattle.lock.specs.Run.{Ready};
ghost use Rattle.lock.specs.Drain.{stops_at, stop_of, UnderWay, start_of, going_of, drained_of};

use super::{entered, refused, run};
use lock_words::names::{ACQUIRE_READ, ACQUIRE_WRITE, RELEASE_WRITE, Refused};
use machine::{Lists, Lock, Place, Rec, Refusal};

// What a drain tells: the refusal, if there is one; how many entries it made; the lock as it is left.
#[derive(Clone, Copy)]
pub struct Drained {
    pub refusal: Option<Refusal>,
    pub n: u64,
    pub lock: Lock,
}

// The same with the records as they are left.
#[derive(Clone, Copy)]
pub struct DrainReturn {
    pub drained: Drained,
    pub recs: [Rec; 16],
}

// Where a thread stops: at Idle or at WriteWait, at Idle, at its script's end. An enum and no closures: lock_order sweeps by it too, so that
// each test would be written twice, and four contracts, which say `stop_of stop`, would range over whatever a closure answers.
#[derive(Clone, Copy)]
pub enum Stop {
    IdleOrWait,
    Idle,
    End,
}

// A drain under way: the state, how many records are not Idle, and how many entries were made.
#[derive(Clone, Copy)]
struct Going {
    lock: Lock,
    recs: [Rec; 16],
    busy: u64,
    used: u64,
}

// The records are the first `count` of the array; the others stay as they are.
pub fn drain(lists: Lists, lock: Lock, recs: [Rec; 16], count: u64) -> DrainReturn
    ensures { result ≡ drained_of count recs (drain_of (lent lists.entry) count lock recs) }
{
    if let Err(why) = refusal(lists, lock, recs, count) {
        let drained = Drained {
            refusal: Some(why),
            n: 0,
            lock,
        };
        return DrainReturn { drained, recs };
    }
    let end = drain_ready(lists, lock, recs);
    let drained = Drained {
        refusal: None,
        n: end.used,
        lock: end.lock,
    };
    let recs = end.recs;
    DrainReturn { drained, recs }
}

// How many entries a drain takes at most: the plain cost and three a thread, and 0 where drain is refused.
pub fn bound_of(lists: Lists, lock: Lock, recs: [Rec; 16], count: u64) -> u64
    ensures { result ≡ bound_of (lent lists.entry) count lock recs }
{
    match refusal(lists, lock, recs, count) {
        Ok(()) => bound(lists, recs),
        Err(_) => 0,
    }
}

// 5, 6, 7 and 10 are run's too, 17 is drain's own.
fn refusal(lists: Lists, lock: Lock, recs: [Rec; 16], count: u64) -> Result<(), Refusal>
    ensures { let s = lent lists.entry in result ≡ answered s (drain_refusal_of s count lock (take count recs)) }
{
    refused::refused(lists, lock, recs, count)?;
    if lock_tidy::is_tidy(lists, lock, &recs[..count as usize]) {
        Ok(())
    } else {
        Err(Refusal::from(Refused::Untidy))
    }
}

// The three parts of the order, where nothing is refused.
fn drain_ready(lists: Lists, lock: Lock, recs: [Rec; 16]) -> Going
    requires { Ready (lent lists) lock recs }
    ensures { let s = lent lists.entry in let l = take (length lists.entry.lens.now) recs in result ≡ going_of s (start_of s lock recs) (drain (scripts_of s) lock l) }
{
    let n = lists.lens.len() as u64;
    let fuel = bound(lists, recs) + 2 * n;
    let start = Going {
        lock,
        recs,
        busy: run::busy_among(recs, n),
        used: 0,
    };
    let first = sweep(Stop::IdleOrWait, fuel, start, lists);
    let second = sweep(Stop::Idle, fuel, first, lists);
    sweep(Stop::End, fuel, second, lists)
}

// One part: each thread in its turn steps until it stops, at most `fuel` times. Sixteen threads, 4096 entries each, are far from what
// a number holds.
fn sweep(stop: Stop, fuel: u64, from: Going, lists: Lists) -> Going
    requires under_way { UnderWay (lent lists) from }
    requires fuel_bound { fuel ≤ 4096 }
    requires used_bound { from.used ≤ 2 ^ 32 }
    ensures under_way_2 { UnderWay (lent lists.entry) result }
    ensures used_bound_2 { result.used ≤ from.used + 65536 }
    ensures result_value { let s = lent lists.entry in let n = length lists.entry.lens.now in result ≡ going_of s from (sweep (stop_of stop (scripts_of s)) (scripts_of s) fuel 0 n from.lock (take n from.recs)) }
{
    let mut g = from;
    for k in 0..lists.lens.len() {
        g = until(stop, k, fuel, g, lists);
    }
    g
}

// Thread i steps until it stops, at most `fuel` times.
fn until(stop: Stop, i: usize, fuel: u64, from: Going, lists: Lists) -> Going
    requires under_way { UnderWay (lent lists) from }
    requires i_in_bounds { i < length lists.lens.now }
    requires fuel_bound { from.used + fuel < 2 ^ 64 }
    ensures under_way_2 { UnderWay (lent lists.entry) result }
    ensures used_bound { result.used ≤ from.used + fuel }
    ensures result_value { let s = lent lists.entry in let n = length lists.entry.lens.now in result ≡ going_of s from (until (stop_of stop (scripts_of s)) (scripts_of s) i fuel from.lock (take n from.recs)) }
{
    let start = lock_scripts::start_of(lists.lens, i as u64, lists.ops.len() as u64);
    let mut g = from;
    for _ in 0..fuel {
        if stops(stop, g.recs[i], lists.lens[i]) {
            return g;
        }
        let e = entered::enter_at(lists, g.lock, g.recs[i], i as u64, g.busy, start);
        g.lock = e.lock;
        g.recs[i] = e.rec;
        g.busy = e.busy;
        g.used += 1;
    }
    g
}

// Whether a record with a script of that length stops.
pub fn stops(stop: Stop, rec: Rec, len: u64) -> bool
    ensures { result ≡ stops_at stop len rec }
{
    match stop {
        Stop::IdleOrWait => matches!(rec.place, Place::Idle | Place::WriteWait),
        Stop::Idle => rec.place == Place::Idle,
        Stop::End => len <= rec.at,
    }
}

// The plain cost of all scripts, and three entries for each thread: at most 16 times 3 * 64 + 3.
fn bound(lists: Lists, recs: [Rec; 16]) -> u64
    requires lens_len_bound { length lists.lens.now ≤ 16 }
    requires by_index { (i : ℕ) → i < length lists.lens.now → (scripts_of (lent lists)).len i ≤ 64 }
    ensures value { result ≡ bound (scripts_of (lent lists.entry)) (take (length lists.entry.lens.now) recs) }
    ensures upper_bound { result ≤ 3120 }
{
    let mut sum = 0;
    for (k, len) in lists.lens.iter().enumerate() {
        let start = lock_scripts::start_of(lists.lens, k as u64, lists.ops.len() as u64);
        sum += cost(lists.ops, start, *len, recs[k].at) + 3;
    }
    sum
}

// The plain cost of a script of the length len from a script place on; the script starts at `start`.
fn cost(ops: &[u64], start: u64, len: u64, at: u64) -> u64
    requires { len ≤ 64 }
    ensures { result ≡ cost (words_at ops.now start) len at }
{
    let mut sum = 0;
    for k in at..len {
        sum += price(lock_scripts::word_at(ops, start, k));
    }
    sum
}

// The plain cost of an operation.
fn price(o: u64) -> u64
    ensures { result ≡ price o }
{
    match o {
        ACQUIRE_READ | ACQUIRE_WRITE => 3,
        RELEASE_WRITE => 2,
        _ => 1,
    }
}
