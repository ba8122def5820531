// The lent forms of `lock_lent` for callers that hold the records by value, with the contracts of `lock`: the records are the first
// `count` of an array of sixteen, which are lent. There is no list of more than sixteen to lend; then `lock` refuses the call.
#![tactic(auto)]

ghost use Rattle.std.specs.Prelude.{◌≡◌};
ghost use Rattle.machine.specs.Lists.{lent};
ghost use Rattle.lock.specs.ByValue.{run_of, drain_of};
ghost use Rattle.lock.specs.Setup.{begun_of};
ghost use Rattle.lock.specs.Run.{ran_of, rest_of, rest_trace};
ghost use Rattle.lock.specs.Drain.{drained_of};

use atomic::Count;
use cell::pred::Pred;
use lock::drain::DrainReturn;
use lock::run::RunReturn;
use lock::setup::Begun;
use lock::{drain, run, setup};
use lock_words::names::MOST_THREADS;
use machine::{Lists, Lock, Rec};

mod front;

pub fn setup(pred: Pred, top: Count, first: u64, lists: Lists, recs: [Rec; 16], count: u64) -> Begun
    ensures { result ≡ begun_of pred top.0 first (lent lists.entry) count recs }
{
    if count > MOST_THREADS {
        return setup::setup(pred, top, first, lists, recs, count);
    }
    front::setup(pred, top, first, lists, recs, count as usize)
}

pub fn run(
    lists: Lists,
    lock: Lock,
    recs: [Rec; 16],
    count: u64,
    schedule: &[u64],
    budget: u64,
    trace: &mut [u64],
) -> RunReturn
    ensures value { result ≡ ran_of count recs (run_of (lent lists.entry) count lock recs schedule.now budget trace.old) }
    ensures trace_after { trace.new ≡ (run_of (lent lists.entry) count lock recs schedule.now budget trace.old).trace }
{
    if count > MOST_THREADS {
        return run::run(lists, lock, recs, count, schedule, budget, trace);
    }
    front::run(lists, lock, recs, count as usize, schedule, budget, trace)
}

pub fn run_rest(
    lists: Lists,
    lock: Lock,
    recs: [Rec; 16],
    count: u64,
    schedule: &[u64],
    budget: u64,
    used: u64,
    trace: &mut [u64],
) -> RunReturn
    ensures value { result ≡ ran_of count recs (rest_of (lent lists.entry) count lock recs schedule.now budget used trace.old) }
    ensures trace_after { trace.new ≡ rest_trace (lent lists.entry) count lock recs schedule.now budget used trace.old }
{
    if count > MOST_THREADS {
        return run::run_rest(lists, lock, recs, count, schedule, budget, used, trace);
    }
    front::run_rest(
        lists,
        lock,
        recs,
        count as usize,
        schedule,
        budget,
        used,
        trace,
    )
}

pub fn drain(lists: Lists, lock: Lock, recs: [Rec; 16], count: u64) -> DrainReturn
    ensures { result ≡ drained_of count recs (drain_of (lent lists.entry) count lock recs) }
{
    if count > MOST_THREADS {
        return drain::drain(lists, lock, recs, count);
    }
    front::drain(lists, lock, recs, count as usize)
}
