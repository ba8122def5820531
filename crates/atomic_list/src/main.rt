// Replays the list on standard input against the three atomics, and prints how many rows agree.
//
// oracle/atomic_list.rs makes the list: each row is one operation with its inputs, and with what
// Rust's own atomics made of them. A line that cannot be read as a row counts as different, so that
// nothing of the list is passed over, and the number of rows shows where some of it is missing.
#![tactic(auto)]

ghost use Rattle.std.specs.Prelude.{◌≡◌};

use atomic::{CellId, Count};
use atomic_access::{Answer, Did, Number, Perm, Value};
use replay::reading::Reading;
use replay::tally::Tally;
use replay::{lists, numbers, reading, tally};
use scenario_lines::number::parse_number;
use std::io::{Read, Stdin, Stdout};

fn main(rt: HostRuntime) {
    let out = rt.stdout();
    let mut chunk = io::large_buffer();
    let mut line = io::large_buffer();
    let mut reading = reading::begin();
    let mut tally = tally::start();
    // A proved loop has to end, and nothing says that the input does: it takes as many turns as no run uses up.
    for _ in 0..u64::MAX {
        if reading.over {
            break;
        }
        reading = read_on(rt.stdin(), &mut chunk, &mut line, reading);
        tally = on_line(out, &line, reading, tally);
    }
    report(out, reading, tally);
}

// A chunk where the last one is used up, else bytes of it up to a line's end. A read that fails ends the list, and the number of rows then shows it.
fn read_on(
    mut input: Stdin,
    chunk: &mut [u8; 65536],
    line: &mut [u8; 65536],
    reading: Reading,
) -> Reading {
    if !reading::is_used_up(reading) {
        return reading::take_line(line, chunk, reading);
    }
    let n = input.read(chunk).unwrap_or(0);
    reading::after_read(reading, n)
}

// The first line is the header, which is no row. Any other first line counts as one that differs.
// A row is below 200 bytes, so that the front of a line that has no room is none.
fn on_line(out: Stdout, line: &[u8; 65536], reading: Reading, tally: Tally) -> Tally {
    let header: &[u8] = b"width,operation,atomic,permission,value,a,b,number,arm,got,left";
    if !reading.done {
        return tally;
    }
    let text = reading::text(line, reading);
    if tally.line > 1 {
        return tally::count(out, tally, agrees(text));
    }
    if text == header {
        return tally::pass(tally);
    }
    tally::count(out, tally, false)
}

// A last line with no break may be cut short, and counts as different.
fn report(out: Stdout, reading: Reading, tally: Tally) {
    tally::report(out, tally::count_cut(out, tally, reading::is_cut(reading)));
}

// A row of the list: read, replayed and compared. Its fields are the width (64, 8, or 1 for bool), the
// operation's name, the five numbers of Input and the first four of Outcome, with a comma between.

// How many numbers follow the operation's name.
const NUMBERS: usize = 9;

// What an operation is called on. An operand that it lacks is 0.
#[derive(Clone, Copy)]
struct Input {
    atomic: u64,
    permission: u64,
    value: u64,
    a: u64,
    b: u64,
}

// What it comes to.
#[derive(Clone, Copy, PartialEq, Eq)]
struct Outcome {
    // The refusal's number, or 0.
    number: u64,
    // 0 where nothing is returned, 1 for the old value or an exchange done, 2 for an exchange failed.
    arm: u64,
    // The value returned, or 0.
    got: u64,
    // The permission's value afterwards, and its identity.
    left: u64,
    permission: u64,
}

// Whether the line is a row, and the atomic answers as the row says.
fn agrees(line: &[u8]) -> bool {
    let first = lists::find(line, 0, b',');
    if first >= line.len() {
        return false;
    }
    let second = lists::find(line, first + 1, b',');
    if second >= line.len() {
        return false;
    }
    let Some(width) = parse_number(lists::part(line, 0, first)) else {
        return false;
    };
    is_row(
        width,
        lists::part(line, first + 1, second),
        lists::part(line, second + 1, line.len()),
    )
}

// What follows the name is nine numbers and nothing more.
fn is_row(width: u64, operation: &[u8], text: &[u8]) -> bool {
    let mut f = [0; NUMBERS];
    let Some(n) = numbers::numbers(text, &mut f) else {
        return false;
    };
    n == NUMBERS && is_made(width, operation, f)
}

// No operation changes the permission's identity, so the row expects the one that went in.
fn is_made(width: u64, operation: &[u8], f: [u64; NUMBERS]) -> bool {
    let input = Input {
        atomic: f[0],
        permission: f[1],
        value: f[2],
        a: f[3],
        b: f[4],
    };
    let expected = Outcome {
        number: f[5],
        arm: f[6],
        got: f[7],
        left: f[8],
        permission: f[1],
    };
    let Some(seen) = replay_on(width, operation, input) else {
        return false;
    };
    takes(operation, input.a, input.b) && expected == seen
}

// What a replay saw. There is none where an input is too wide, or where the width lacks the operation.
fn replay_on(width: u64, operation: &[u8], input: Input) -> Option<Outcome> {
    match width {
        64 => replay_u64(operation, input),
        8 => replay_u8(operation, input),
        1 => replay_bool(operation, input),
        _ => None,
    }
}

fn replay_u64(operation: &[u8], input: Input) -> Option<Outcome> {
    let perm = atomic_u64::Perm {
        id: CellId(input.permission),
        value: Count(input.value),
    };
    let (a, b) = (Count(input.a), Count(input.b));
    let did = on_number(operation, CellId(input.atomic), perm, a, b)?;
    Some(in_numbers(did, |n| n.0))
}

fn replay_u8(operation: &[u8], input: Input) -> Option<Outcome> {
    let perm = atomic_u8::Perm {
        id: CellId(input.permission),
        value: byte(input.value)?,
    };
    let (a, b) = (byte(input.a)?, byte(input.b)?);
    let did = on_number(operation, CellId(input.atomic), perm, a, b)?;
    Some(in_numbers(did, |n| u64::from(n.0)))
}

// A number that the list gives for a byte.
fn byte(n: u64) -> Option<atomic_u8::Count> {
    u8::try_from(n).ok().map(atomic_u8::Count)
}

// The list writes true and false as 1 and 0.
fn replay_bool(operation: &[u8], input: Input) -> Option<Outcome> {
    let perm = atomic_bool::Perm {
        id: CellId(input.permission),
        value: flag(input.value)?,
    };
    let (a, b) = (flag(input.a)?, flag(input.b)?);
    let did = on_value(operation, CellId(input.atomic), perm, a, b)?;
    Some(in_numbers(did, u64::from))
}

fn flag(n: u64) -> Option<bool> {
    match n {
        0 => Some(false),
        1 => Some(true),
        _ => None,
    }
}

// The operations of numbers by their names in the list. A bool has no sums, no nand and no maximum.
fn on_number<V: Number>(operation: &[u8], c: CellId, p: Perm<V>, a: V, b: V) -> Option<Did<V>> {
    match operation {
        b"fetch_add" => Some(atomic_access::fetch_add(c, p, a)),
        b"fetch_sub" => Some(atomic_access::fetch_sub(c, p, a)),
        b"fetch_add_wrapping" => Some(atomic_access::fetch_add_wrapping(c, p, a)),
        b"fetch_sub_wrapping" => Some(atomic_access::fetch_sub_wrapping(c, p, a)),
        b"fetch_nand" => Some(atomic_access::fetch_nand(c, p, a)),
        b"fetch_max" => Some(atomic_access::fetch_max(c, p, a)),
        _ => on_value(operation, c, p, a, b),
    }
}

// Those of every value.
fn on_value<V: Value>(operation: &[u8], c: CellId, p: Perm<V>, a: V, b: V) -> Option<Did<V>> {
    match operation {
        b"load" => Some(atomic_access::load(c, p)),
        b"store" => Some(atomic_access::store(c, p, a)),
        b"swap" => Some(atomic_access::swap(c, p, a)),
        b"compare_exchange" => Some(atomic_access::compare_exchange(c, p, a, b)),
        b"compare_exchange_weak" => Some(atomic_access::compare_exchange_weak(c, p, a, b)),
        b"fetch_and" => Some(atomic_access::fetch_and(c, p, a)),
        b"fetch_or" => Some(atomic_access::fetch_or(c, p, a)),
        b"fetch_xor" => Some(atomic_access::fetch_xor(c, p, a)),
        _ => None,
    }
}

// What was done, in the list's numbers: `number` has a value's.
fn in_numbers<V: Copy, F: Fn(V) -> u64>(did: Did<V>, number: F) -> Outcome
    requires { F.IsAlwaysCallable number }
{
    let left = number(did.perm.value);
    let permission = did.perm.id.0;
    match did.answer {
        Answer::Old(v) => old(number(v), left, permission),
        Answer::Failed(v) => failed(number(v), left, permission),
        Answer::Stored => stored(left, permission),
        Answer::Refused(why) => refused(u64::from(why), left, permission),
    }
}

// An outcome for each arm of an answer.
fn old(got: u64, left: u64, permission: u64) -> Outcome
    ensures { result ≡ record { number = 0; arm = 1; got = got; left = left; permission = permission } }
{
    Outcome {
        number: 0,
        arm: 1,
        got,
        left,
        permission,
    }
}

fn failed(got: u64, left: u64, permission: u64) -> Outcome
    ensures { result ≡ record { number = 0; arm = 2; got = got; left = left; permission = permission } }
{
    Outcome {
        number: 0,
        arm: 2,
        got,
        left,
        permission,
    }
}

fn stored(left: u64, permission: u64) -> Outcome
    ensures { result ≡ record { number = 0; arm = 0; got = 0; left = left; permission = permission } }
{
    Outcome {
        number: 0,
        arm: 0,
        got: 0,
        left,
        permission,
    }
}

fn refused(number: u64, left: u64, permission: u64) -> Outcome
    ensures { result ≡ record { number = number; arm = 0; got = 0; left = left; permission = permission } }
{
    Outcome {
        number,
        arm: 0,
        got: 0,
        left,
        permission,
    }
}

// Whether an operand that the operation lacks is 0, as a row has it.
fn takes(operation: &[u8], a: u64, b: u64) -> bool {
    match operation {
        b"load" => a == 0 && b == 0,
        b"compare_exchange" | b"compare_exchange_weak" => true,
        _ => b == 0,
    }
}
