// Run over a lent list of records: whole, a later piece, and one entry.
ghost use Rattle.std.specs.Prelude.{◌≡◌};
ghost use Rattle.machine.specs.Lists.{lent};
ghost use Rattle.machine.specs.Run.{run_lent};
ghost use Rattle.lock_lent.specs.Run.{ran_of, ran_told, rest_lent, rest_lent_trace, step_lent};

use super::exchange;
use lock::run::Ran;
use machine::{Lists, Lock, Rec};

// The records are changed in their list. Rows go into the trace list from its start.
pub fn run(
    lists: Lists,
    lock: Lock,
    recs: &mut [Rec],
    schedule: &[u64],
    budget: u64,
    trace: &mut [u64],
) -> Ran
    ensures value { result ≡ ran_told (ran_of (run_lent (lent lists.entry) lock recs.old schedule.now budget trace.old)) }
    ensures recs_after { recs.new ≡ (run_lent (lent lists.entry) lock recs.old schedule.now budget trace.old).recs }
    ensures trace_after { trace.new ≡ (run_lent (lent lists.entry) lock recs.old schedule.now budget trace.old).trace }
{
    let taken = exchange::exchange(recs, exchange::blank());
    let count = recs.len() as u64;
    let left = lock::run::run(lists, lock, taken, count, schedule, budget, trace);
    exchange::exchange(recs, left.recs);
    left.ran
}

// A later piece: the first `used` rows of the trace list stay, and this piece's rows go into the tail of it, after them.
pub fn run_rest(
    lists: Lists,
    lock: Lock,
    recs: &mut [Rec],
    schedule: &[u64],
    budget: u64,
    used: u64,
    trace: &mut [u64],
) -> Ran
    ensures value { result ≡ ran_told (ran_of (rest_lent (lent lists.entry) lock recs.old schedule.now budget used trace.old)) }
    ensures recs_after { recs.new ≡ (rest_lent (lent lists.entry) lock recs.old schedule.now budget used trace.old).recs }
    ensures trace_after { trace.new ≡ rest_lent_trace (lent lists.entry) lock recs.old schedule.now budget used trace.old }
{
    let taken = exchange::exchange(recs, exchange::blank());
    let count = recs.len() as u64;
    let left = lock::run::run_rest(lists, lock, taken, count, schedule, budget, used, trace);
    exchange::exchange(recs, left.recs);
    left.ran
}

// One entry of a thread, with its row at the start of the trace list.
pub fn step(lists: Lists, lock: Lock, recs: &mut [Rec], thread: u64, trace: &mut [u64]) -> Ran
    ensures value { result ≡ ran_told (ran_of (step_lent (lent lists.entry) lock recs.old thread trace.old)) }
    ensures recs_after { recs.new ≡ (step_lent (lent lists.entry) lock recs.old thread trace.old).recs }
    ensures trace_after { trace.new ≡ (step_lent (lent lists.entry) lock recs.old thread trace.old).trace }
{
    let schedule = [thread];
    run(lists, lock, recs, &schedule, 1, trace)
}
