// The entries of the drain order, written into a lent list; lock and records are not changed.
#![tactic(auto)]

ghost use Rattle.std.specs.Prelude.{◌+◌, ◌<◌, ◌≤◌, ◌^◌, ◌≡◌, Some, length, take};
ghost use Rattle.std.proofs.lemmas.List.Edits.{sets};
ghost use Rattle.machine.specs.Lists.{lent, scripts_of};
ghost use Rattle.machine.specs.Drain.{until, sweep};
ghost use Rattle.lock.specs.ByValue.{run_refusal_of};
ghost use Rattle.lock.specs.Drain.{stop_of};
ghost use Rattle.lock_order.specs.Order.{order_of, answer_of};
ghost use Rattle.lock_order.specs.Write.{Able, one_of, within, went_of};

use lock::drain::{Stop, stops};
use machine::{Lists, Lock, ROW_WORDS, Rec, Refusal};

// The refusal where the entries have no room.
pub const NO_ROOM: u64 = 41;

// The refusal, if there is one; how many entries were written; how many they are at most by the rules: the plain cost of the state given
// and three a thread.
#[derive(Clone, Copy)]
pub struct Answer {
    pub refusal: Option<Refusal>,
    pub n: u64,
    pub bound: u64,
}

// Entries under way: the state after them, and how many were written.
#[derive(Clone, Copy)]
struct Going {
    lock: Lock,
    recs: [Rec; 16],
    used: usize,
}

// The records are the first `count` of the array. The entries stand at the start of `out`, and words behind them stay. Refused as drain
// is, then by 41 where they have no room. They are counted first, by drain itself, so that a refusal has written nothing.
pub fn drain_order(lists: Lists, lock: Lock, recs: [Rec; 16], count: u64, out: &mut [u64]) -> Answer
    ensures value { result ≡ answer_of (order_of (lent lists.entry) count lock recs out.old) }
    ensures out_after { out.new ≡ (order_of (lent lists.entry) count lock recs out.old).out }
{
    let end = lock::drain::drain(lists, lock, recs, count).drained;
    if let Some(why) = end.refusal {
        return refused(why);
    }
    if (out.len() as u64) < end.n {
        return refused(Refusal {
            number: NO_ROOM,
            thread: 0,
            place: 0,
        });
    }
    write(lists, lock, recs, count, end.n, out);
    Answer {
        refusal: None,
        n: end.n,
        bound: lock::drain::bound_of(lists, lock, recs, count),
    }
}

fn refused(why: Refusal) -> Answer
    ensures { result ≡ record { refusal = Some why; n = 0; bound = 0 } }
{
    Answer {
        refusal: Some(why),
        n: 0,
        bound: 0,
    }
}

// The three parts of the order, where nothing is refused; n is as much as any thread needs.
fn write(lists: Lists, lock: Lock, recs: [Rec; 16], count: u64, n: u64, out: &mut [u64])
    requires recs_value { run_refusal_of (lent lists) count lock (take count recs) ≡ 0 }
    requires recs_in_bounds { length (within n (scripts_of (lent lists)) lock (take count recs)).made ≤ length out.old }
    ensures { out.new ≡ sets out.old 0 (within n (scripts_of (lent lists.entry)) lock (take count recs)).made }
{
    let start = Going {
        lock,
        recs,
        used: 0,
    };
    let first = sweep(Stop::IdleOrWait, n, start, lists, count, out);
    let second = sweep(Stop::Idle, n, first, lists, count, out);
    sweep(Stop::End, n, second, lists, count, out);
}

// One part: each thread in its turn steps until it stops, at most `fuel` times.
fn sweep(stop: Stop, fuel: u64, from: Going, lists: Lists, count: u64, out: &mut [u64]) -> Going
    requires able { Able (lent lists) count from }
    requires recs_in_bounds { let S = scripts_of (lent lists) in from.used + length (sweep (stop_of stop S) S fuel 0 count from.lock (take count from.recs)).made ≤ length out.old }
    ensures able_2 { Able (lent lists.entry) count result }
    ensures result_value { let S = scripts_of (lent lists.entry) in result ≡ went_of count from (sweep (stop_of stop S) S fuel 0 count from.lock (take count from.recs)) }
    ensures out_after { let S = scripts_of (lent lists.entry) in out.new ≡ sets out.old from.used (sweep (stop_of stop S) S fuel 0 count from.lock (take count from.recs)).made }
{
    let mut g = from;
    for k in 0..lists.lens.len() {
        g = until(stop, k, fuel, g, lists, count, out);
    }
    g
}

// Thread i steps until it stops, at most `fuel` times, and each time its number is written.
fn until(
    stop: Stop,
    i: usize,
    fuel: u64,
    from: Going,
    lists: Lists,
    count: u64,
    out: &mut [u64],
) -> Going
    requires able { Able (lent lists) count from }
    requires i_in_bounds { i < length lists.lens.now }
    requires recs_in_bounds { let S = scripts_of (lent lists) in from.used + length (until (stop_of stop S) S i fuel from.lock (take count from.recs)).made ≤ length out.old }
    ensures able_2 { Able (lent lists.entry) count result }
    ensures result_value { let S = scripts_of (lent lists.entry) in result ≡ went_of count from (until (stop_of stop S) S i fuel from.lock (take count from.recs)) }
    ensures out_after { let S = scripts_of (lent lists.entry) in out.new ≡ sets out.old from.used (until (stop_of stop S) S i fuel from.lock (take count from.recs)).made }
{
    let mut g = from;
    for _ in 0..fuel {
        if stops(stop, g.recs[i], lists.lens[i]) {
            return g;
        }
        out[g.used] = i as u64;
        g = stepped(g, i as u64, lists, count);
    }
    g
}

// One entry: a run of it.
fn stepped(from: Going, i: u64, lists: Lists, count: u64) -> Going
    requires able { Able (lent lists) count from }
    requires used_bound { from.used + 1 < 2 ^ 64 }
    ensures { result ≡ went_of count from (one_of (scripts_of (lent lists.entry)) from.lock (take count from.recs) i) }
{
    let Going { lock, recs, used } = from;
    let mut row = [0; ROW_WORDS];
    let left = lock::run::run(lists, lock, recs, count, &[i], 1, &mut row);
    let recs = left.recs;
    Going {
        lock: left.ran.lock,
        recs,
        used: used + 1,
    }
}
