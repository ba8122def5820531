// Run: the refusals 5, 6, 7 and 10, then entry by entry, with a row for each.
ghost use Rattle.std.specs.Prelude.{ℕ, ◌*◌, ◌<◌, ◌≤◌, min, ◌≡◌, eqb, length, take, get_or};
ghost use Rattle.machine.specs.Words.{bit};
ghost use Rattle.machine.specs.Step.{busy};
ghost use Rattle.machine.specs.Lists.{lent, start};
ghost use Rattle.lock.specs.ByValue.{run_of};
ghost use Rattle.lock.specs.Run.{ran_of, ready_of, Ready, rest_of, rest_trace};

use super::{entered, refused, trace};
use lock_words::names::{NO_ACCESS, NONE, Refused};
use machine::{Lists, Lock, Place, ROW_WORDS, Rec, Refusal};

// What a run tells: the refusal, if there is one; n; the number of rows with answer 0; the lock as it is left.
#[derive(Clone, Copy)]
pub struct Ran {
    pub refusal: Option<Refusal>,
    pub n: u64,
    pub done: u64,
    pub lock: Lock,
}

// The same with the records as they are left.
#[derive(Clone, Copy)]
pub struct RunReturn {
    pub ran: Ran,
    pub recs: [Rec; 16],
}

// The records are the first `count` of the array. Rows go into the trace list from its start.
pub fn run(
    lists: Lists,
    lock: Lock,
    recs: [Rec; 16],
    count: u64,
    schedule: &[u64],
    budget: u64,
    trace: &mut [u64],
) -> RunReturn
    ensures value { result ≡ ran_of count recs (run_of (lent lists.entry) count lock recs schedule.now budget trace.old) }
    ensures trace_after { trace.new ≡ (run_of (lent lists.entry) count lock recs schedule.now budget trace.old).trace }
{
    if let Err(why) = refused::refused(lists, lock, recs, count) {
        let ran = Ran {
            refusal: Some(why),
            n: 0,
            done: 0,
            lock,
        };
        return RunReturn { ran, recs };
    }
    let room = (trace.len() / ROW_WORDS) as u64;
    let n = budget.min((schedule.len() as u64).min(room));
    run_ready(lists, lock, recs, schedule, n, trace)
}

// A later piece: the first `used` rows of the trace list stay, and this piece's rows come after them.
pub fn run_rest(
    lists: Lists,
    lock: Lock,
    recs: [Rec; 16],
    count: u64,
    schedule: &[u64],
    budget: u64,
    used: u64,
    trace: &mut [u64],
) -> RunReturn
    ensures value { result ≡ ran_of count recs (rest_of (lent lists.entry) count lock recs schedule.now budget used trace.old) }
    ensures trace_after { trace.new ≡ rest_trace (lent lists.entry) count lock recs schedule.now budget used trace.old }
{
    let from = end_of(used, trace.len());
    run(
        lists,
        lock,
        recs,
        count,
        schedule,
        budget,
        &mut trace[from..],
    )
}

// Where so many rows end, cut at `most`: the rows are compared, since their words may be more than a number holds.
fn end_of(rows: u64, most: usize) -> usize
    ensures { result ≡ min (6 * rows) most }
{
    if rows <= (most / ROW_WORDS) as u64 {
        ROW_WORDS * rows as usize
    } else {
        most
    }
}

// The entries, where nothing is refused. Each thread's start, and how many records are not Idle, are kept, so that an entry costs the
// same whatever the scripts are.
fn run_ready(
    lists: Lists,
    lock: Lock,
    recs: [Rec; 16],
    schedule: &[u64],
    n: u64,
    trace: &mut [u64],
) -> RunReturn
    requires ready { Ready (lent lists) lock recs }
    requires n_in_bounds { n ≤ length schedule.now }
    requires n_in_bounds_2 { 6 * n ≤ length trace.old }
    ensures value { result ≡ ran_of (length lists.entry.lens.now) recs (ready_of (lent lists.entry) lock recs schedule.now n trace.old) }
    ensures trace_after { trace.new ≡ (ready_of (lent lists.entry) lock recs schedule.now n trace.old).trace }
{
    let starts = starts_of(lists.lens, lists.ops.len() as u64);
    let count = lists.lens.len() as u64;
    let mut l = lock;
    let mut rs = recs;
    let mut busy = busy_among(recs, count);
    let mut done = 0;
    for k in 0..n {
        let t = schedule[k as usize];
        let mut row = entered::row_of(l, t, NO_ACCESS, u64::from(Refused::NoThread), 0);
        if t < count {
            let i = t as usize;
            let e = entered::enter_at(lists, l, rs[i], t, busy, starts[i]);
            l = e.lock;
            rs[i] = e.rec;
            busy = e.busy;
            row = e.row;
        }
        trace::put_row(trace, ROW_WORDS * k as usize, row);
        done += u64::from(row.answer == NONE);
    }
    let ran = Ran {
        refusal: None,
        n,
        done,
        lock: l,
    };
    RunReturn { ran, recs: rs }
}

// Where each thread's script starts, cut at `most`, past which there is no word.
fn starts_of(lens: &[u64], most: u64) -> [u64; 16]
    requires { length lens.now ≤ 16 }
    ensures { (i : ℕ) → i < length lens.now → get_or result i 0 ≡ min (start lens.now i) most }
{
    let mut starts = [0; 16];
    let mut sum = 0;
    for (t, len) in lens.iter().enumerate() {
        starts[t] = sum;
        sum += (most - sum).min(*len);
    }
    starts
}

// How many of the first `count` records are not Idle.
#[tactic(auto, using(crate::proofs::Busy::counted))]
pub(crate) fn busy_among(recs: [Rec; 16], count: u64) -> u64
    requires { count ≤ 16 }
    ensures { result ≡ busy (take count recs) }
{
    recs[..count as usize]
        .iter()
        .filter(|rec| rec.place != Place::Idle)
        .count() as u64
}
