// Replays the list on standard input against setup, run, drain, the entries of the drain order and the question why a thread waits, and prints how
// many of its calls agree.
//
// oracle/lock.rs makes the list and says what its fields are: each line is one call with all that is lent and all that comes back. The
// last lines are wrong on purpose, and each of them has to be found. Nothing of the list is passed over: a line that cannot be read, and
// a state that the types do not have, are counted too.
#![tactic(auto)]

use atomic::Count;
use cell::pred::Pred;
use cell::{pred, value};
use lock::{drain, run, setup};
use lock_words::names::UNSOUND;
use machine::{Lists, Lock, Place, Rec, Refusal};
use replay::lists::{is_same, word};
use replay::reading::Reading;
use replay::tally::{Tally, Verdict};
use replay::{lists, numbers, reading, tally};
use std::io::{Read, Stdin, Stdout};

fn main(rt: HostRuntime) {
    let out = rt.stdout();
    let mut chunk = io::large_buffer();
    let mut line = io::large_buffer();
    let mut reading = reading::begin();
    let mut tally = tally::start();
    // A proved loop has to end, and nothing says that the input does: it takes as many turns as no run uses up.
    for _ in 0..u64::MAX {
        if reading.over {
            break;
        }
        reading = read_on(rt.stdin(), &mut chunk, &mut line, reading);
        tally = on_line(out, &line, reading, tally);
    }
    report(out, reading, tally);
}

// A chunk where the last one is used up, else bytes of it up to a line's end. A read that fails ends the list, and the number of rows then shows it.
// In each program, as the loop: no equation says what it comes to, which a function of a library needs (tests/contracts.sh).
fn read_on(
    mut input: Stdin,
    chunk: &mut [u8; 65536],
    line: &mut [u8; 65536],
    reading: Reading,
) -> Reading {
    if !reading::is_used_up(reading) {
        return reading::take_line(line, chunk, reading);
    }
    let n = input.read(chunk).unwrap_or(0);
    reading::after_read(reading, n)
}

// The first line is the header. A call in its place would be missing from the number of rows.
fn on_line(out: Stdout, line: &[u8; 65536], reading: Reading, tally: Tally) -> Tally {
    if !reading.done {
        return tally;
    }
    if tally.line == 1 {
        return tally::pass(tally);
    }
    let text = reading::text(line, reading);
    let verdict = if reading::is_whole(line, reading) {
        verdict_on(text)
    } else {
        Verdict::Unreadable
    };
    tally::on_verdict(out, tally, numbers::is_wrong(text), verdict)
}

// A last line with no break may be cut short, and cannot be read.
fn report(out: Stdout, reading: Reading, tally: Tally) {
    let last = if reading::is_cut(reading) {
        tally::on_verdict(out, tally, false, Verdict::Unreadable)
    } else {
        tally
    };
    tally::report_outside(out, last, b"no such state ");
}

fn verdict_on(text: &[u8]) -> Verdict {
    let mut words = [0; ROOM];
    let Some(n) = numbers::numbers(text, &mut words) else {
        return Verdict::Unreadable;
    };
    let words = lists::part(&words, 0, n);
    let line = Line {
        words,
        parts: parts_of(words),
    };
    match given_by(line) {
        Ok(given) => replay_call(line, given),
        Err(verdict) => verdict,
    }
}

// The call of a line, made by value and with the records lent, and compared with what the line says of it.

// Room for the numbers of a line. A line of the list is below 5,200 bytes, and a number takes two of them at least.
const ROOM: usize = 2600;

// Room for a trace list, or one of entries. The longest of the list has 68 words; a line with a longer one than the room counts as different.
const TRACE: usize = 128;

// What a call comes to.
#[derive(Clone, Copy)]
struct Told {
    refusal: Option<Refusal>,
    n: u64,
    done: u64,
    // None where a setup is refused.
    lock: Option<Lock>,
    recs: [Rec; 16],
}

// By value, and with the records lent.
fn replay_call(line: Line, given: Given) -> Verdict {
    if agrees(line, given, false) && agrees(line, given, true) {
        Verdict::Agrees
    } else {
        Verdict::Differs
    }
}

fn agrees(line: Line, given: Given, is_lent: bool) -> bool {
    let mut room = [0u64; TRACE];
    let before = line.trace();
    let n = before.len();
    if n > TRACE {
        return false;
    }
    let trace = &mut room[..n];
    trace.copy_from_slice(before);
    let told = made(line, given, is_lent, trace);
    is_told(line, given, told) && is_same(trace, line.trace_after())
}

fn made(line: Line, given: Given, is_lent: bool, trace: &mut [u64]) -> Told {
    match given.call {
        Call::Setup => set_up(line, given, is_lent),
        Call::Run => ran(line, given, is_lent, trace),
        Call::Drain => drained(line, given, is_lent),
        Call::Order => ordered(line, given, trace),
        Call::Why => asked(line, given),
    }
}

fn set_up(line: Line, given: Given, is_lent: bool) -> Told {
    let Lock {
        pred,
        top,
        cell,
        ..
    } = given.lock;
    let first = value::kept(cell);
    let lists = line.scripts();
    let Given { recs, count, .. } = given;
    let begun = if is_lent {
        lock_held::setup(pred, top, first, lists, recs, count)
    } else {
        setup::setup(pred, top, first, lists, recs, count)
    };
    let recs = begun.recs;
    let (lock, refusal) = match begun.start {
        Ok(lock) => (Some(lock), None),
        Err(why) => (None, Some(why)),
    };
    Told {
        refusal,
        n: 0,
        done: 0,
        lock,
        recs,
    }
}

fn ran(line: Line, given: Given, is_lent: bool, trace: &mut [u64]) -> Told {
    let lists = line.scripts();
    let schedule = line.schedule();
    let Given {
        lock,
        recs,
        count,
        budget,
        ..
    } = given;
    let left = if is_lent {
        lock_held::run(lists, lock, recs, count, schedule, budget, trace)
    } else {
        run::run(lists, lock, recs, count, schedule, budget, trace)
    };
    let recs = left.recs;
    Told {
        refusal: left.ran.refusal,
        n: left.ran.n,
        done: left.ran.done,
        lock: Some(left.ran.lock),
        recs,
    }
}

fn drained(line: Line, given: Given, is_lent: bool) -> Told {
    let lists = line.scripts();
    let Given {
        lock,
        recs,
        count,
        ..
    } = given;
    let left = if is_lent {
        lock_held::drain(lists, lock, recs, count)
    } else {
        drain::drain(lists, lock, recs, count)
    };
    let recs = left.recs;
    Told {
        refusal: left.drained.refusal,
        n: left.drained.n,
        done: 0,
        lock: Some(left.drained.lock),
        recs,
    }
}

// There is one form of it. The bound stands where a run has its rows with answer 0; lock and records are as they were.
fn ordered(line: Line, given: Given, out: &mut [u64]) -> Told {
    let lists = line.scripts();
    let Given {
        lock,
        recs,
        count,
        ..
    } = given;
    let left = lock_order::drain_order(lists, lock, recs, count, out);
    Told {
        refusal: left.refusal,
        n: left.n,
        done: left.bound,
        lock: Some(lock),
        recs,
    }
}

// Of the thread that stands in the schedule's place. The reason's number stands where a run has n, and the record's where it has its rows with
// answer 0.
fn asked(line: Line, given: Given) -> Told {
    let lists = line.scripts();
    let Given {
        lock,
        recs,
        count,
        ..
    } = given;
    let told = why_code::why(lists, lock, recs, count, word(line.schedule(), 0));
    let numbers = why_code::numbers_of(told);
    Told {
        refusal: told.err(),
        n: numbers.reason,
        done: numbers.who,
        lock: Some(lock),
        recs,
    }
}

fn is_told(line: Line, given: Given, told: Told) -> bool {
    let [number, thread, place] = match told.refusal {
        Some(why) => [why.number, why.thread, why.place],
        None => [0; 3],
    };
    let answer = [number, thread, place, told.n, told.done];
    is_same(&answer, line.answer())
        && is_lock(line, told.lock)
        && word(line.recs_after(), 0) == given.count
        && are_records(told.recs, line.recs_after())
}

// Where no lock is made the list has zeros.
fn is_lock(line: Line, made: Option<Lock>) -> bool {
    let numbers = match made {
        Some(lock) => numbers_of(lock, line.lock()),
        None => [0u64; LOCK],
    };
    is_same(&numbers, line.lock_after())
}

// The state that a line has before its call, and what a call leaves, as the numbers of the list.

// A call, by the number that the list has for it.
#[derive(Clone, Copy, PartialEq, Eq)]
enum Call {
    Setup,
    Run,
    Drain,
    Order,
    Why,
}

// The number of no call.
#[derive(Clone, Copy)]
struct NoCall;

impl TryFrom<u64> for Call {
    type Error = NoCall;

    fn try_from(number: u64) -> Result<Call, NoCall> {
        match number {
            1 => Ok(Call::Setup),
            2 => Ok(Call::Run),
            3 => Ok(Call::Drain),
            4 => Ok(Call::Order),
            5 => Ok(Call::Why),
            _ => Err(NoCall),
        }
    }
}

// As many records as an array has. Calls with more are refused, and only their count is read.
const MOST: usize = 16;

// What a call is given besides the lists. A setup's first value is what the cell holds.
#[derive(Clone, Copy)]
struct Given {
    call: Call,
    lock: Lock,
    recs: [Rec; 16],
    count: u64,
    budget: u64,
}

// Or the verdict on a line that no call is made of: it cannot be read, or its cell is empty and keeps a number, which no value of the type is; the list
// has 10 for that.
fn given_by(line: Line) -> Result<Given, Verdict> {
    let Ok(call) = Call::try_from(word(line.words, 1)) else {
        return Err(Verdict::Unreadable);
    };
    let numbers = line.lock();
    let recs = line.recs();
    if !line.is_whole() || !are_bits(numbers) || !are_places(recs) {
        return Err(Verdict::Unreadable);
    }
    if call != Call::Setup && keeps(numbers) {
        return Err(ruled_out(word(line.answer(), 0)));
    }
    let Some(pred) = pred_of(numbers) else {
        return Err(Verdict::Unreadable);
    };
    Ok(Given {
        call,
        lock: lock_of(numbers, pred, cell_of(numbers, call)),
        recs: recs_of(recs),
        count: word(recs, 0),
        budget: line.budget(),
    })
}

// The flag, whether the cell is full, whether there is a mover and whether the lock is finished are 1 or 0; where there is no mover, its
// number is 0.
fn are_bits(numbers: &[u64]) -> bool {
    let moved = word(numbers, 10);
    let is_mover = moved == 1 || moved == 0 && word(numbers, 11) == 0;
    let flags = word(numbers, 0) <= 1 && word(numbers, 2) <= 1;
    flags && is_mover && word(numbers, 12) <= 1
}

// The place is the second number of each record, behind how many records there are.
fn are_places(recs: &[u64]) -> bool {
    recs.iter()
        .skip(2)
        .step_by(RECORD)
        .all(|&number| place_of(number).is_some())
}

// An empty cell that keeps a number.
fn keeps(numbers: &[u64]) -> bool {
    word(numbers, 2) == 0 && word(numbers, 3) != 0
}

fn ruled_out(number: u64) -> Verdict {
    if number == UNSOUND {
        Verdict::Outside
    } else {
        Verdict::Unreadable
    }
}

fn pred_of(numbers: &[u64]) -> Option<Pred> {
    pred::of_kind(word(numbers, 4), word(numbers, 5), word(numbers, 6))
}

fn cell_of(numbers: &[u64], call: Call) -> Option<u64> {
    if call == Call::Setup || word(numbers, 2) == 1 {
        Some(word(numbers, 3))
    } else {
        None
    }
}

fn mover_of(numbers: &[u64]) -> Option<u64> {
    if word(numbers, 10) == 1 {
        Some(word(numbers, 11))
    } else {
        None
    }
}

fn lock_of(numbers: &[u64], pred: Pred, cell: Option<u64>) -> Lock {
    Lock {
        exc: word(numbers, 0) == 1,
        rc: Count(word(numbers, 1)),
        cell,
        pred,
        top: Count(word(numbers, 7)),
        reads: Count(word(numbers, 8)),
        writes: Count(word(numbers, 9)),
        mover: mover_of(numbers),
        finished: word(numbers, 12) == 1,
    }
}

// Records that the list lacks are Idle, with 0 for each number.
fn recs_of(numbers: &[u64]) -> [Rec; 16] {
    let mut recs = [lock_words::plain(0, Place::Idle); 16];
    for (i, rec) in recs.iter_mut().enumerate() {
        *rec = rec_of(rec_part(numbers, i));
    }
    recs
}

// The numbers of record i; none where the list has no such record.
fn rec_part(numbers: &[u64], i: usize) -> &[u64] {
    if i >= MOST {
        return lists::part(numbers, 0, 0);
    }
    let from = RECORD * i + 1;
    lists::part(numbers, from, from + RECORD)
}

fn rec_of(numbers: &[u64]) -> Rec {
    let place = place_of(word(numbers, 1)).unwrap_or(Place::Idle);
    let seen = Count(word(numbers, 2));
    lock_words::rec_at(word(numbers, 0), place, seen, word(numbers, 3))
}

// None where the number names no place.
fn place_of(number: u64) -> Option<Place> {
    match number {
        0 => Some(Place::Idle),
        1 => Some(Place::ReadTry),
        2 => Some(Place::ReadCheck),
        3 => Some(Place::ReadBack),
        4 => Some(Place::Reading),
        5 => Some(Place::WriteWait),
        6 => Some(Place::WriteTake),
        7 => Some(Place::Writing),
        8 => Some(Place::WritePut),
        _ => None,
    }
}

// Whether the records are those of the list, as far as both have them.
fn are_records(recs: [Rec; 16], numbers: &[u64]) -> bool {
    recs.iter()
        .enumerate()
        .all(|(i, &rec)| is_record(rec, rec_part(numbers, i)))
}

fn is_record(rec: Rec, numbers: &[u64]) -> bool {
    rec.at == word(numbers, 0)
        && is_place(rec.place, word(numbers, 1))
        && rec.seen.0 == word(numbers, 2)
        && rec.taken == word(numbers, 3)
}

fn is_place(place: Place, number: u64) -> bool {
    match place_of(number) {
        Some(named) => place == named,
        None => false,
    }
}

// A lock as the list has it. A parameter that its predicate has no use for is as it was given.
fn numbers_of(lock: Lock, given: &[u64]) -> [u64; LOCK] {
    let [kind, a, b] = named_by(lock.pred, word(given, 5), word(given, 6));
    [
        u64::from(lock.exc),
        lock.rc.0,
        u64::from(lock.cell.is_some()),
        value::kept(lock.cell),
        kind,
        a,
        b,
        lock.top.0,
        lock.reads.0,
        lock.writes.0,
        u64::from(lock.mover.is_some()),
        moved_by(lock.mover),
        u64::from(lock.finished),
    ]
}

fn named_by(pred: Pred, a: u64, b: u64) -> [u64; 3] {
    match pred {
        Pred::Any => [0, a, b],
        Pred::Either(x, y) => [1, x, y],
        Pred::Parity(x) => [2, x, b],
    }
}

fn moved_by(mover: Option<u64>) -> u64 {
    match mover {
        None => 0,
        Some(i) => i,
    }
}

// Where the parts of a line stand. A LIST is the number of its elements and then the elements.

// Where a part would stand that lies past the line's end.
const PAST: usize = usize::MAX;

// How many numbers a lock has, a record, and the answer: the refusal's three, n, and the rows with answer 0.
const LOCK: usize = 13;

const RECORD: usize = 4;

const ANSWER: usize = 5;

// Where each part starts, and where the last one ends. Each ends where the next one starts.
#[derive(Clone, Copy)]
struct Parts {
    lock: usize,
    recs: usize,
    lens: usize,
    ops: usize,
    vals: usize,
    schedule: usize,
    budget: usize,
    trace: usize,
    answer: usize,
    lock_after: usize,
    recs_after: usize,
    trace_after: usize,
    end: usize,
}

// The numbers of a line, and where its parts stand.
#[derive(Clone, Copy)]
struct Line<'a> {
    words: &'a [u64],
    parts: Parts,
}

fn parts_of(line: &[u64]) -> Parts {
    let lock = 2;
    let recs = skip(line, lock, LOCK);
    let lens = past_records(line, recs);
    let ops = past_list(line, lens);
    let vals = past_list(line, ops);
    let schedule = past_list(line, vals);
    let budget = past_list(line, schedule);
    let trace = skip(line, budget, 1);
    let answer = past_list(line, trace);
    let lock_after = skip(line, answer, ANSWER);
    let recs_after = skip(line, lock_after, LOCK);
    let trace_after = past_records(line, recs_after);
    Parts {
        lock,
        recs,
        lens,
        ops,
        vals,
        schedule,
        budget,
        trace,
        answer,
        lock_after,
        recs_after,
        trace_after,
        end: past_list(line, trace_after),
    }
}

impl<'a> Line<'a> {
    // A line has all its parts and nothing more.
    fn is_whole(self) -> bool {
        self.parts.end == self.words.len()
    }

    // The elements of a LIST that starts at a place and ends at another.
    fn list(self, from: usize, to: usize) -> &'a [u64] {
        lists::part(self.words, skip(self.words, from, 1), to)
    }

    fn lock(self) -> &'a [u64] {
        lists::part(self.words, self.parts.lock, self.parts.recs)
    }

    fn recs(self) -> &'a [u64] {
        lists::part(self.words, self.parts.recs, self.parts.lens)
    }

    fn scripts(self) -> Lists<'a> {
        let Parts {
            lens,
            ops,
            vals,
            schedule,
            ..
        } = self.parts;
        Lists {
            lens: self.list(lens, ops),
            ops: self.list(ops, vals),
            vals: self.list(vals, schedule),
        }
    }

    fn schedule(self) -> &'a [u64] {
        self.list(self.parts.schedule, self.parts.budget)
    }

    fn budget(self) -> u64 {
        word(self.words, self.parts.budget)
    }

    fn trace(self) -> &'a [u64] {
        self.list(self.parts.trace, self.parts.answer)
    }

    fn answer(self) -> &'a [u64] {
        lists::part(self.words, self.parts.answer, self.parts.lock_after)
    }

    fn lock_after(self) -> &'a [u64] {
        lists::part(self.words, self.parts.lock_after, self.parts.recs_after)
    }

    fn recs_after(self) -> &'a [u64] {
        lists::part(self.words, self.parts.recs_after, self.parts.trace_after)
    }

    fn trace_after(self) -> &'a [u64] {
        self.list(self.parts.trace_after, self.parts.end)
    }
}

// The place that lies so many numbers further on.
fn skip(line: &[u64], at: usize, n: usize) -> usize {
    if at > line.len() {
        return PAST;
    }
    if n > line.len() - at {
        return PAST;
    }
    at + n
}

fn past_list(line: &[u64], at: usize) -> usize {
    let n = word(line, at);
    if n > line.len() as u64 {
        return PAST;
    }
    skip(line, skip(line, at, 1), n as usize)
}

fn past_records(line: &[u64], at: usize) -> usize {
    let n = word(line, at);
    if n > (line.len() / RECORD) as u64 {
        return PAST;
    }
    skip(line, skip(line, at, 1), n as usize * RECORD)
}
