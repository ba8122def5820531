// Replays the list on standard input against vcd_code's write and read, and prints how many of its calls agree.
//
// oracle/vcd.rs makes the list and says what its fields are: each line is one call with all that is lent and all that comes back. The last
// lines are wrong on purpose, and each of them has to be found. A line that cannot be read is counted too.
#![tactic(auto)]

ghost use Rattle.std.specs.Prelude.{◌<◌, length, IfSome};

use replay::reading::Reading;
use replay::tally::{Tally, Verdict};
use replay::{lists, numbers, reading, tally};
use scenario_lines::number::one_more;
use std::io::{Read, Stdin, Stdout};
use vcd::{Refusal, Signals};
use vcd_code::{read, write};

// Room for the numbers of a line, and for its bytes. The longest of the list have 613 and 2,924.
const WORDS: usize = 1024;

const BYTES: usize = 8192;

// What the lent list is filled with before a call. No text has such a byte.
const BYTE_BEFORE: u8 = 165;

const WORD_BEFORE: u64 = 11936128518282651045;

// How many numbers stand before the words: what, call, room, number, n, exc, rc.
const FIELDS: usize = 7;

// The list's own numbers of the calls: an enum of them would be made only to be matched once.
const WRITE: u64 = 1;

const READ: u64 = 2;

fn main(rt: HostRuntime) {
    let out = rt.stdout();
    let mut chunk = io::large_buffer();
    let mut line = io::large_buffer();
    let mut reading = reading::begin();
    let mut tally = tally::start();
    // A proved loop has to end, and nothing says that the input does: it takes as many turns as no run uses up.
    for _ in 0..u64::MAX {
        if reading.over {
            break;
        }
        reading = read_on(rt.stdin(), &mut chunk, &mut line, reading);
        tally = on_line(out, &line, reading, tally);
    }
    report(out, &line, reading, tally);
}

// A chunk where the last one is used up, else bytes of it up to a line's end. A read that fails ends the list, and the number of rows then shows it.
fn read_on(
    mut input: Stdin,
    chunk: &mut [u8; 65536],
    line: &mut [u8; 65536],
    reading: Reading,
) -> Reading {
    if !reading::is_used_up(reading) {
        return reading::take_line(line, chunk, reading);
    }
    let n = input.read(chunk).unwrap_or(0);
    reading::after_read(reading, n)
}

// The first line is the header.
fn on_line(out: Stdout, line: &[u8; 65536], reading: Reading, tally: Tally) -> Tally {
    if !reading.done {
        return tally;
    }
    if tally.line == 1 {
        return tally::pass(tally);
    }
    let text = reading::text(line, reading);
    let verdict = if reading::is_whole(line, reading) {
        verdict_on(text)
    } else {
        Verdict::Unreadable
    };
    tally::on_verdict(out, tally, numbers::is_wrong(text), verdict)
}

// A last line with no break may be cut short, and cannot be read.
fn report(out: Stdout, line: &[u8; 65536], reading: Reading, tally: Tally) {
    let text = reading::text(line, reading);
    let last = if reading::is_cut(reading) {
        tally::on_verdict(out, tally, numbers::is_wrong(text), Verdict::Unreadable)
    } else {
        tally
    };
    tally::report_all(out, last);
}

// The call of a line.

fn verdict_on(line: &[u8]) -> Verdict {
    let bar = lists::find(line, 0, b'|');
    if bar >= line.len() {
        return Verdict::Unreadable;
    }
    let mut words = [0; WORDS];
    let mut bytes = [0; BYTES];
    let Some(n) = numbers::numbers(lists::part(line, 0, bar), &mut words) else {
        return Verdict::Unreadable;
    };
    let Some(m) = bytes_in(lists::part(line, bar + 1, line.len()), &mut bytes) else {
        return Verdict::Unreadable;
    };
    replay_call(lists::part(&words, 0, n), lists::part(&bytes, 0, m))
}

fn replay_call(line: &[u64], bytes: &[u8]) -> Verdict {
    if line.len() < FIELDS {
        return Verdict::Unreadable;
    }
    let call = line[1];
    match call {
        WRITE => verdict_of(writes(line, bytes)),
        READ => verdict_of(reads(line, bytes)),
        _ => Verdict::Unreadable,
    }
}

fn verdict_of(is_equal: bool) -> Verdict {
    if is_equal {
        Verdict::Agrees
    } else {
        Verdict::Differs
    }
}

// A line with a larger room than the arrays have counts as different.
fn writes(line: &[u64], bytes: &[u8]) -> bool {
    let mut all = [BYTE_BEFORE; BYTES];
    match all.get_mut(..lists::word(line, 2) as usize) {
        Some(out) => writes_into(line, bytes, out),
        None => false,
    }
}

fn writes_into(line: &[u64], bytes: &[u8], out: &mut [u8]) -> bool {
    let s = Signals {
        exc: lists::word(line, 5),
        rc: lists::word(line, 6),
    };
    let answer = write::write(words_of(line), s, out);
    is_told(line, answer.map(|n| n as u64)) && lists::is_front(out, bytes, BYTE_BEFORE)
}

fn reads(line: &[u64], bytes: &[u8]) -> bool {
    let mut all = [WORD_BEFORE; WORDS];
    match all.get_mut(..lists::word(line, 2) as usize) {
        Some(out) => reads_into(line, bytes, out),
        None => false,
    }
}

fn reads_into(line: &[u64], bytes: &[u8], out: &mut [u64]) -> bool {
    let answer = read::read(bytes, out);
    is_told(line, answer) && lists::are_front(out, words_of(line), WORD_BEFORE)
}

// A line has the number of the refusal, 0 where there is none, and how many bytes or rows there are.
fn is_told(line: &[u64], answer: Result<u64, Refusal>) -> bool {
    let (number, n) = match answer {
        Ok(n) => (0, n),
        Err(why) => (u64::from(why), 0),
    };
    number == lists::word(line, 3) && n == lists::word(line, 4)
}

// The words behind the fields of a line.
fn words_of(line: &[u64]) -> &[u64] {
    lists::part(line, FIELDS, line.len())
}

// Bytes, some of them as a backslash with three digits, go to the start of `bytes`; how many there are.
fn bytes_in(text: &[u8], bytes: &mut [u8]) -> Option<usize> {
    let mut left = text;
    let mut n = 0;
    while !left.is_empty() {
        let (b, behind) = byte_ahead(left)?;
        *bytes.get_mut(n)? = b;
        n += 1;
        left = behind;
    }
    Some(n)
}

// The byte that the text begins with, one byte of the list or a backslash with three digits, and what is behind it.
fn byte_ahead(text: &[u8]) -> Option<(u8, &[u8])>
    ensures { IfSome result (λ x. length x.1.now < length text.now) }
{
    match text {
        [b'\\', a, b, c, behind @ ..] => Some((three_digits(*a, *b, *c)?, behind)),
        [b'\\', ..] | [] => None,
        [b, behind @ ..] => Some((*b, behind)),
    }
}

fn three_digits(a: u8, b: u8, c: u8) -> Option<u8> {
    let Some(x) = one_more(0, a) else {
        return None;
    };
    let Some(y) = one_more(x, b) else {
        return None;
    };
    let Some(z) = one_more(y, c) else {
        return None;
    };
    u8::try_from(z).ok()
}
