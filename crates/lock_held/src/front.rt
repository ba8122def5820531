// The first `count` records of an array, at most sixteen, lent to the functions of `lock_lent`, and the array as it comes back.
ghost use Rattle.std.specs.Prelude.{min, ◌≡◌, length, take};
ghost use Rattle.machine.specs.Lists.{lent};
ghost use Rattle.machine.specs.Setup.{setup, setup_recs};
ghost use Rattle.machine.specs.Run.{run_lent};
ghost use Rattle.machine.specs.Drain.{drain_lent};
ghost use Rattle.lock_lent.specs.Run.{rest_lent, rest_lent_trace};
ghost use Rattle.lock.specs.Run.{ran_of};
ghost use Rattle.lock.specs.Drain.{drained_of};
ghost use Rattle.lock_held.specs.Begun.{begun_with};

use atomic::Count;
use cell::pred::Pred;
use lock::drain::DrainReturn;
use lock::run::RunReturn;
use lock::setup::Begun;
use lock_lent::{drain, exchange, run, setup};
use machine::{Lists, Lock, Rec};

pub(crate) fn setup(
    pred: Pred,
    top: Count,
    first: u64,
    lists: Lists,
    recs: [Rec; 16],
    count: usize,
) -> Begun
    ensures { let l = take (min count 16) recs in let s = lent lists.entry in result ≡ begun_with (min count 16) recs (setup pred top.0 first s (length l)) (setup_recs pred top.0 first s l) }
{
    let n = exchange::at_most_sixteen(count);
    let mut rs = recs;
    let start = setup::setup(pred, top, first, lists, &mut rs[..n]);
    Begun { start, recs: rs }
}

pub(crate) fn run(
    lists: Lists,
    lock: Lock,
    recs: [Rec; 16],
    count: usize,
    schedule: &[u64],
    budget: u64,
    trace: &mut [u64],
) -> RunReturn
    ensures value { result ≡ ran_of (min count 16) recs (run_lent (lent lists.entry) lock (take (min count 16) recs) schedule.now budget trace.old) }
    ensures trace_after { trace.new ≡ (run_lent (lent lists.entry) lock (take (min count 16) recs) schedule.now budget trace.old).trace }
{
    let n = exchange::at_most_sixteen(count);
    let mut rs = recs;
    let ran = run::run(lists, lock, &mut rs[..n], schedule, budget, trace);
    RunReturn { ran, recs: rs }
}

pub(crate) fn run_rest(
    lists: Lists,
    lock: Lock,
    recs: [Rec; 16],
    count: usize,
    schedule: &[u64],
    budget: u64,
    used: u64,
    trace: &mut [u64],
) -> RunReturn
    ensures value { result ≡ ran_of (min count 16) recs (rest_lent (lent lists.entry) lock (take (min count 16) recs) schedule.now budget used trace.old) }
    ensures trace_after { trace.new ≡ rest_lent_trace (lent lists.entry) lock (take (min count 16) recs) schedule.now budget used trace.old }
{
    let n = exchange::at_most_sixteen(count);
    let mut rs = recs;
    let ran = run::run_rest(lists, lock, &mut rs[..n], schedule, budget, used, trace);
    RunReturn { ran, recs: rs }
}

pub(crate) fn drain(lists: Lists, lock: Lock, recs: [Rec; 16], count: usize) -> DrainReturn
    ensures { result ≡ drained_of (min count 16) recs (drain_lent (lent lists.entry) lock (take (min count 16) recs)) }
{
    let n = exchange::at_most_sixteen(count);
    let mut rs = recs;
    let drained = drain::drain(lists, lock, &mut rs[..n]);
    DrainReturn { drained, recs: rs }
}
