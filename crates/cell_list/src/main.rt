// Replays the list on standard input against the crate cell, and prints how many rows agree.
//
// oracle/cell_list.rs makes the list and says what its columns are: each row is one call, with what Rust's own Option and Cell
// made of it. The calls follow each other on one value cell and one InvCell. A line that cannot be read as a row counts as
// different, so that nothing of the list is passed over, and the number of rows shows where some of it is missing.
#![tactic(auto)]

use atomic::CellId;
use cell::inv::InvCell;
use cell::value::Perm;
use cell::{Answer, Refusal, inv, pred, value};
use replay::reading::Reading;
use replay::tally::Tally;
use replay::{numbers, reading, tally};
use std::io::{Read, Stdin, Stdout};

#[derive(Clone, Copy)]
struct State {
    cells: Cells,
    tally: Tally,
}

fn main(rt: HostRuntime) {
    let out = rt.stdout();
    let mut chunk = io::large_buffer();
    let mut line = io::large_buffer();
    let mut reading = reading::begin();
    let mut state = State {
        cells: start_cells(),
        tally: tally::start(),
    };
    // A proved loop has to end, and nothing says that the input does: it takes as many turns as no run uses up.
    for _ in 0..u64::MAX {
        if reading.over {
            break;
        }
        reading = read_on(rt.stdin(), &mut chunk, &mut line, reading);
        state = on_line(out, &line, reading, state);
    }
    report(out, reading, state.tally);
}

// A chunk where the last one is used up, else bytes of it up to a line's end. A read that fails ends the list, and the number of rows then shows it.
// In each program, as the loop: no equation says what it comes to, which a function of a library needs (tests/contracts.sh).
fn read_on(
    mut input: Stdin,
    chunk: &mut [u8; 65536],
    line: &mut [u8; 65536],
    reading: Reading,
) -> Reading {
    if !reading::is_used_up(reading) {
        return reading::take_line(line, chunk, reading);
    }
    let n = input.read(chunk).unwrap_or(0);
    reading::after_read(reading, n)
}

// The first line is the header. A row in its place would be missing from the number of rows.
fn on_line(out: Stdout, line: &[u8; 65536], reading: Reading, state: State) -> State {
    let State { cells, tally } = state;
    if !reading.done {
        return state;
    }
    if tally.line == 1 {
        return State {
            cells,
            tally: tally::pass(tally),
        };
    }
    let (cells, is_equal) = replay_text(cells, reading::text(line, reading));
    State {
        cells,
        tally: tally::count(out, tally, is_equal),
    }
}

// A last line with no break may be cut short, and counts as different.
fn report(out: Stdout, reading: Reading, tally: Tally) {
    tally::report(out, tally::count_cut(out, tally, reading::is_cut(reading)));
}

// A row of the list, replayed on the value cell or the InvCell and compared.

// The call, its operands, and what it comes to.
const FIELDS: usize = 9;

// A call of the list, by the number that the list has for it.
#[derive(Clone, Copy)]
enum Code {
    Put,
    Take,
    Borrow,
    New,
    Set,
    Replace,
    Get,
    IntoInner,
    Predicate,
}

// The number of no call.
#[derive(Clone, Copy)]
struct NoCall;

impl TryFrom<u64> for Code {
    type Error = NoCall;

    fn try_from(number: u64) -> Result<Code, NoCall> {
        match number {
            1 => Ok(Code::Put),
            2 => Ok(Code::Take),
            3 => Ok(Code::Borrow),
            4 => Ok(Code::New),
            5 => Ok(Code::Set),
            6 => Ok(Code::Replace),
            7 => Ok(Code::Get),
            8 => Ok(Code::IntoInner),
            9 => Ok(Code::Predicate),
            _ => Err(NoCall),
        }
    }
}

// What the calls follow each other on.
#[derive(Clone, Copy)]
struct Cells {
    content: Option<u64>,
    made: Result<InvCell, Refusal>,
}

// The call's number and its operands. One that the call has no use for is 0.
#[derive(Clone, Copy)]
struct Call {
    code: u64,
    a: u64,
    b: u64,
    c: u64,
    d: u64,
}

// What a call comes to, in the columns of the list.
#[derive(Clone, Copy, PartialEq, Eq)]
struct Told {
    number: u64,
    got: u64,
    full: u64,
    kept: u64,
}

// No cell holds anything before the first call.
fn start_cells() -> Cells {
    Cells {
        content: None,
        made: no_cell(),
    }
}

fn no_cell() -> Result<InvCell, Refusal> {
    Err(Refusal::NotPermitted)
}

// A line that is no row counts as different, and makes the call of the numbers that it has, so that the rows after it follow on what
// they would. A row is below 200 bytes, so that the front of a line that has no room is none.
fn replay_text(cells: Cells, text: &[u8]) -> (Cells, bool) {
    let mut f = [0; FIELDS];
    let is_row = numbers::numbers(text, &mut f) == Some(FIELDS);
    let [code, a, b, c, d, number, got, full, kept] = f;
    let expected = Told {
        number,
        got,
        full,
        kept,
    };
    match make(cells, Call { code, a, b, c, d }) {
        Some((left, told)) => (left, is_row && told == expected),
        None => (cells, false),
    }
}

// What a replay saw: none where the row is no call, or where there is no InvCell to call.
fn make(cells: Cells, call: Call) -> Option<(Cells, Told)> {
    let Ok(code) = Code::try_from(call.code) else {
        return None;
    };
    match code {
        Code::Put | Code::Take | Code::Borrow => on_cell(cells, code, call),
        Code::New => new(cells, call),
        Code::Predicate => Some(predicate(cells, call)),
        _ => on_inv(cells, code, call),
    }
}

fn on_cell(cells: Cells, code: Code, call: Call) -> Option<(Cells, Told)> {
    let perm = Perm {
        id: CellId(call.b),
        content: cells.content,
    };
    let c = CellId(call.a);
    let did = match code {
        Code::Put => value::put(c, perm, call.c),
        Code::Take => value::take(c, perm),
        _ => value::borrow(c, perm),
    };
    left_cell(cells, call.b, did)
}

// No call changes the permission's identity.
fn left_cell(cells: Cells, permission: u64, did: value::Did) -> Option<(Cells, Told)> {
    let Perm { id, content } = did.perm;
    if id.0 != permission {
        return None;
    }
    let told = Told {
        number: number_of(did.answer),
        got: got_of(did.answer),
        full: is_full(content),
        kept: value::kept(content),
    };
    Some((Cells { content, ..cells }, told))
}

fn number_of(answer: Answer) -> u64 {
    match answer {
        Answer::Refused(why) => u64::from(why),
        _ => 0,
    }
}

fn got_of(answer: Answer) -> u64 {
    match answer {
        Answer::Value(v) => v,
        _ => 0,
    }
}

fn is_full(content: Option<u64>) -> u64 {
    match content {
        None => 0,
        Some(_) => 1,
    }
}

fn new(cells: Cells, call: Call) -> Option<(Cells, Told)> {
    let Some(p) = pred::of_kind(call.a, call.b, call.c) else {
        return None;
    };
    let made = inv::new(call.d, p);
    let number = match made {
        Ok(_) => 0,
        Err(why) => u64::from(why),
    };
    Some(left_inv(Cells { made, ..cells }, number, 0))
}

// An InvCell is looked into by `get`.
fn left_inv(cells: Cells, number: u64, got: u64) -> (Cells, Told) {
    let (full, kept) = match cells.made {
        Ok(c) => (1, inv::get(c)),
        Err(_) => (0, 0),
    };
    let told = Told {
        number,
        got,
        full,
        kept,
    };
    (cells, told)
}

fn on_inv(cells: Cells, code: Code, call: Call) -> Option<(Cells, Told)> {
    let Ok(c) = cells.made else {
        return None;
    };
    match code {
        Code::Set => Some(left_did(cells, inv::set(c, call.a))),
        Code::Replace => Some(left_did(cells, inv::replace(c, call.a))),
        Code::Get => Some(left_inv(cells, 0, inv::get(c))),
        _ => {
            let made = no_cell();
            Some(left_inv(Cells { made, ..cells }, 0, inv::into_inner(c)))
        }
    }
}

fn left_did(cells: Cells, did: inv::Did) -> (Cells, Told) {
    let made = Ok(did.cell);
    left_inv(
        Cells { made, ..cells },
        number_of(did.answer),
        got_of(did.answer),
    )
}

fn predicate(cells: Cells, call: Call) -> (Cells, Told) {
    let told = match pred::of_kind(call.a, call.b, call.c) {
        Some(p) => Told {
            number: 0,
            got: u64::from(pred::permits(p, call.d)),
            full: 1,
            kept: u64::from(pred::is_good(p)),
        },
        None => Told {
            number: 0,
            got: 0,
            full: 0,
            kept: 0,
        },
    };
    (cells, told)
}
