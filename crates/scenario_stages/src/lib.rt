// A scenario file's lines, taken one by one into what is read so far: its refusal, or what it adds.
#![tactic(auto)]

ghost use Rattle.std.specs.Prelude.{◌≡◌, ◌≤◌, [], length, take, replicate, if◌then◌else◌, nat_lt, slice_set, None};
ghost use Rattle.scenario_lines.specs.declared.Line.TheVariants.{Header, BadNumber, Lock, Pred as PredLine, Op, Run};
ghost use Rattle.machine.specs.Lists.{lists};
ghost use Rattle.machine.specs.Setup.{setup_refusal};
ghost use Rattle.scenario.specs.Names.{wrong_line};
ghost use Rattle.scenario.specs.Scenario.{pred_of};
ghost use Rattle.scenario.specs.Refused.{stage_no, at, misplaced};
ghost use Rattle.scenario_stages.specs.Kept.{nothing_read, outline, keeping, counted_on, op_number, refusal_at, refused_by, after_line, on_line, at_end};
ghost use Rattle.scenario_stages.specs.Kept.{cleared, lens_with, ops_with, vals_with, unless_refused, lens_after, ops_after, vals_after};

use atomic::Count;
use cell::pred;
use cell::pred::Pred;
use lock::setup;
use lock_words::names::{
    LONGEST_SCRIPT, MOST_THREADS, NONE, SCRIPT_TOO_LONG, THREAD_COUNT, WRONG_CODE,
};
use machine::{Lists, Place};
use scenario::Stage;
use scenario_lines::Line;

// The refusals that no other crate gives.
const BROKEN_LINE: u64 = 31;

const WRONG_LINE: u64 = 32;

// What is read so far, besides the lists of operations.
#[derive(Clone, Copy)]
pub struct Read {
    // How many lines were read, modulo 2^64.
    pub line: u64,
    // The number of the refusal; it is at the line counted.
    pub refused: Option<u64>,
    // Which lines may come next.
    pub stage: Stage,
    // The lock line: M, the first value, the number of threads.
    pub top: u64,
    pub first: u64,
    pub threads: u64,
    // The pred line.
    pub pred: Pred,
    // The thread of the last op line.
    pub thread: u64,
    // How many operations stand in the lists.
    pub count: u64,
    // The entries that the last line added to the schedule: the thread, and how often. Whoever runs them counts them down.
    pub run_thread: u64,
    pub run_left: u64,
}

// Before the first line.
pub fn begin() -> Read
    ensures { result ≡ nothing_read }
{
    Read {
        line: 0,
        refused: None,
        stage: Stage::Header,
        top: 0,
        first: 0,
        threads: 0,
        pred: Pred::Any,
        thread: 0,
        count: 0,
        run_thread: 0,
        run_left: 0,
    }
}

// One more line. The lists hold the threads' lengths, and the operations and values of all scripts; lines other than pred and op lines
// never touch them.
#[tactic(auto, unfolding(crate::specs::Kept::on_line, crate::specs::Kept::lens_after, crate::specs::Kept::ops_after, crate::specs::Kept::vals_after))]
pub fn on_line(r: Read, l: Line, lens: &mut [u64], ops: &mut [u64], vals: &mut [u64]) -> Read
    ensures value { result ≡ on_line r l lens.old }
    ensures lens_after { lens.new ≡ lens_after r l lens.old }
    ensures ops_after { ops.new ≡ ops_after r l lens.old ops.old }
    ensures vals_after { vals.new ≡ vals_after r l lens.old vals.old }
{
    if r.refused.is_some() {
        return r;
    }
    match l {
        Line::Broken => refuse(r, BROKEN_LINE),
        Line::Header => on_header(r),
        Line::BadNumber => on_bad_number(r),
        Line::Lock(top, first, threads) => on_lock(r, top, first, threads),
        Line::Pred(kind, a, b) => on_pred(r, kind, a, b, lens),
        Line::Op(t, code, value) => on_op(r, t, code, value, lens, ops, vals),
        Line::Run(t, times) => on_run(r, t, times),
        Line::NoKind => refuse(r, WRONG_LINE),
    }
}

// The end of the file: a missing header, lock or pred line.
#[tactic(auto, unfolding(crate::specs::Kept::at_end))]
pub fn at_end(r: Read) -> Read
    ensures { result ≡ at_end r }
{
    if r.refused.is_none() && misses(r.stage) {
        refuse(r, WRONG_LINE)
    } else {
        r
    }
}

// ---- a line of each kind

#[tactic(auto, unfolding(scenario::specs::Scenario::taken))]
fn on_header(r: Read) -> Read
    ensures { result ≡ after_line (refusal_at r [] Header) r Header }
{
    if r.stage != Stage::Header {
        return refuse(r, BROKEN_LINE);
    }
    Read {
        stage: Stage::Lock,
        ..counted(r)
    }
}

// On line 1 no number is read.
fn on_bad_number(r: Read) -> Read
    ensures { result ≡ after_line (refusal_at r [] BadNumber) r BadNumber }
{
    if r.stage == Stage::Header {
        refuse(r, WRONG_LINE)
    } else {
        refuse(r, BROKEN_LINE)
    }
}

#[tactic(auto, unfolding(scenario::specs::Scenario::taken))]
fn on_lock(r: Read, top: u64, first: u64, threads: u64) -> Read
    ensures { result ≡ after_line (refusal_at r [] (Lock top first threads)) r (Lock top first threads) }
{
    if r.stage != Stage::Lock {
        return refuse(r, WRONG_LINE);
    }
    Read {
        stage: Stage::Pred,
        top,
        first,
        threads,
        ..counted(r)
    }
}

#[tactic(auto, unfolding(scenario::specs::Scenario::taken))]
fn on_pred(r: Read, kind: u64, a: u64, b: u64, lens: &mut [u64]) -> Read
    ensures value { result ≡ after_line (refusal_at r [] (PredLine kind a b)) r (PredLine kind a b) }
    ensures lens_after { let l = PredLine kind a b in let before = lens.old in lens.new ≡ unless_refused r l before (lens_with r l before) before }
{
    if r.stage != Stage::Pred {
        return refuse(r, WRONG_LINE);
    }
    // A kind above 2 is refused as a bad parameter is.
    let pred = pred::of_kind(kind, a, b).unwrap_or(Pred::Parity(2));
    let k = setup_number(pred, r.top, r.first, r.threads);
    if k != NONE {
        return refuse(r, k);
    }
    clear(lens, r.threads);
    Read {
        stage: Stage::Ops,
        pred,
        count: 0,
        ..counted(r)
    }
}

#[tactic(auto, unfolding(scenario::specs::Scenario::taken))]
fn on_op(
    r: Read,
    t: u64,
    code: u64,
    value: u64,
    lens: &mut [u64],
    ops: &mut [u64],
    vals: &mut [u64],
) -> Read
    ensures value { result ≡ after_line (refusal_at r lens.old (Op t code value)) r (Op t code value) }
    ensures lens_after { let l = Op t code value in let before = lens.old in lens.new ≡ unless_refused r l before (lens_with r l before) before }
    ensures ops_after { let l = Op t code value in let before = ops.old in ops.new ≡ unless_refused r l lens.old (ops_with r l before) before }
    ensures vals_after { let l = Op t code value in let before = vals.old in vals.new ≡ unless_refused r l lens.old (vals_with r l before) before }
{
    let n = lock_scripts::length_at(lens, t);
    let k = op_refusal(r, t, code, value, n);
    if k != NONE {
        return refuse(r, k);
    }
    store(lens, t, n + 1);
    store(ops, r.count, code);
    store(vals, r.count, value);
    Read {
        thread: t,
        count: r.count.wrapping_add(1),
        ..counted(r)
    }
}

#[tactic(auto, unfolding(scenario::specs::Scenario::taken))]
fn on_run(r: Read, t: u64, times: u64) -> Read
    ensures { result ≡ after_line (refusal_at r [] (Run t times)) r (Run t times) }
{
    if misses(r.stage) {
        return refuse(r, WRONG_LINE);
    }
    Read {
        stage: Stage::Runs,
        run_thread: t,
        run_left: times,
        ..counted(r)
    }
}

// ---- the refusals: numbers with 0 for none, as `setup_refusal` and `op_number`, which the contracts name, have them

// 1 to 4: what setup answers where no thread has an operation.
fn setup_number(pred: Pred, top: u64, first: u64, threads: u64) -> u64
    ensures { result ≡ setup_refusal pred top first (lists (replicate threads 0) [] []) threads }
{
    if MOST_THREADS < threads {
        return THREAD_COUNT;
    }
    let none = [0u64; 16];
    ask(pred, top, first, &none, threads)
}

// What setup answers, with the first places of a list of zeros.
fn ask(pred: Pred, top: u64, first: u64, none: &[u64], threads: u64) -> u64
    requires { threads ≤ length none.now }
    ensures { result ≡ setup_refusal pred top first (lists (take threads none.now) [] []) threads }
{
    let lists = Lists {
        lens: &none[..threads as usize],
        ops: &[],
        vals: &[],
    };
    let recs = [lock_words::plain(0, Place::Idle); 16];
    let begun = setup::setup(pred, Count(top), first, lists, recs, threads);
    match begun.start {
        Ok(_) => NONE,
        Err(why) => why.number,
    }
}

// Of an op line, where the thread has n operations.
fn op_refusal(r: Read, t: u64, code: u64, value: u64, n: u64) -> u64
    ensures { result ≡ (if misplaced (outline r) (Op t code value) then wrong_line else op_number n code value) }
{
    if r.stage != Stage::Ops || r.threads <= t || t < r.thread {
        return WRONG_LINE;
    }
    if LONGEST_SCRIPT <= n {
        return SCRIPT_TOO_LONG;
    }
    if lock_scripts::is_wrong(code, value) {
        return WRONG_CODE;
    }
    NONE
}

// ---- small words

// The number of a stage: 0 for the header, then lock, pred, ops and runs.
pub fn stage_no(stage: Stage) -> u64
    ensures { result ≡ stage_no stage }
{
    stage as u64
}

// The header, the lock line or the pred line is still to come.
fn misses(stage: Stage) -> bool
    ensures { result ≡ nat_lt (stage_no stage) 3 }
{
    stage < Stage::Ops
}

fn refuse(r: Read, k: u64) -> Read
    ensures { result ≡ refused_by r k }
{
    Read {
        refused: Some(k),
        ..counted(r)
    }
}

// A line is counted, which is not refused and adds no entries; all else is as before it.
fn counted(r: Read) -> Read
    ensures { result ≡ keeping (counted_on r.line) None (outline r) r.count 0 0 }
{
    Read {
        line: r.line.wrapping_add(1),
        refused: None,
        run_thread: 0,
        run_left: 0,
        ..r
    }
}

// ---- the lists

// Where there is no such place nothing is stored.
fn store(list: &mut [u64], at: u64, v: u64)
    ensures { list.new ≡ slice_set list.old at v }
{
    // `get_mut` says nothing of what the list ends as.
    if at < list.len() as u64 {
        list[at as usize] = v;
    }
}

// The first n places are 0, as far as there are places.
fn clear(list: &mut [u64], n: u64)
    ensures { list.new ≡ cleared n list.old }
{
    let end = n.min(list.len() as u64) as usize;
    list[..end].fill(0);
}
