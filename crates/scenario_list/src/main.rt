// Replays the list on standard input through the crate scenario_read, and prints how many files agree.
//
// oracle/scenarios.rs makes the list and says how it is written: each line is a scenario file with what the second program prints for it.
// A line that cannot be read as such counts as different, so that nothing of the list is passed over, and the number of rows shows where
// some of it is missing.
#![tactic(auto)]

ghost use Rattle.std.specs.Prelude.{◌<◌, ◌≤◌, IfSome};

use cell::pred::Pred;
use machine::ROW_WORDS;
use program_intake::Room;
use replay::reading::Reading;
use replay::tally::Tally;
use replay::{lists, reading, tally};
use scenario_read::Fed;
use std::io::{Read, Stdin, Stdout};

// How much of the list a byte takes that is written as a backslash and two digits.
const ESCAPED: usize = 3;

fn main(rt: HostRuntime) {
    let out = rt.stdout();
    let mut chunk = io::large_buffer();
    let mut line = io::large_buffer();
    let mut reading = reading::begin();
    let mut tally = tally::start();
    // A proved loop has to end, and nothing says that the input does: it takes as many turns as no run uses up.
    for _ in 0..u64::MAX {
        if reading.over {
            break;
        }
        reading = read_on(rt.stdin(), &mut chunk, &mut line, reading);
        tally = on_line(out, &line, reading, tally);
    }
    report(out, reading, tally);
}

// A chunk where the last one is used up, else bytes of it up to a line's end. A read that fails ends the list, and the number of rows then shows it.
// In each program, as the loop: no equation says what it comes to, which a function of a library needs (tests/contracts.sh).
fn read_on(
    mut input: Stdin,
    chunk: &mut [u8; 65536],
    line: &mut [u8; 65536],
    reading: Reading,
) -> Reading {
    if !reading::is_used_up(reading) {
        return reading::take_line(line, chunk, reading);
    }
    let n = input.read(chunk).unwrap_or(0);
    reading::after_read(reading, n)
}

fn on_line(out: Stdout, line: &[u8; 65536], reading: Reading, tally: Tally) -> Tally {
    if !reading.done {
        return tally;
    }
    let agrees = reading::is_whole(line, reading) && is_row(reading::text(line, reading));
    tally::count(out, tally, agrees)
}

// A last line with no break may be cut short, and counts as different.
fn report(out: Stdout, reading: Reading, tally: Tally) {
    tally::report(out, tally::count_cut(out, tally, reading::is_cut(reading)));
}

// What the file before the bar prints is what stands behind it.
fn is_row(line: &[u8]) -> bool {
    let bar = lists::find(line, 0, b'|');
    if bar >= line.len() {
        return false;
    }
    let mut file = io::buffer();
    let mut text = io::buffer();
    let Some(n) = bytes_in(lists::part(line, 0, bar), &mut file) else {
        return false;
    };
    let Some(m) = bytes_in(lists::part(line, bar + 1, line.len()), &mut text) else {
        return false;
    };
    is_printed(lists::part(&file, 0, n), lists::part(&text, 0, m))
}

// Bytes, some of them as a backslash with two digits of base 16, go to the start of `bytes`; how many there are, where all can be read and have room.
// No bar is among them.
fn bytes_in(text: &[u8], bytes: &mut [u8]) -> Option<usize> {
    let mut n = 0;
    let mut at = 0;
    // No `for`: how far a turn goes depends on the byte.
    while at < text.len() {
        let width = width_of(text[at]);
        if width > text.len() - at || n >= bytes.len() {
            return None;
        }
        bytes[n] = byte_in(lists::part(text, at, at + width))?;
        n += 1;
        at += width;
    }
    Some(n)
}

fn width_of(b: u8) -> usize
    ensures { 1 ≤ result }
{
    if b == b'\\' { ESCAPED } else { 1 }
}

// The byte that one byte of the list, or a backslash with two digits, stands for.
fn byte_in(text: &[u8]) -> Option<u8> {
    match text {
        [b'|'] => None,
        [b] => Some(*b),
        [_, high, low] => Some(digit(*high)? * 16 + digit(*low)?),
        _ => None,
    }
}

// A digit of base 16, in small letters.
fn digit(b: u8) -> Option<u8>
    ensures { IfSome result (λ d. d < 16) }
{
    match b {
        b'0'..=b'9' => Some(b - b'0'),
        b'a'..=b'f' => Some(b - b'a' + 10),
        _ => None,
    }
}

// In whatever chunks it comes: as one, byte by byte, and in sevens.
fn is_printed(file: &[u8], text: &[u8]) -> bool {
    is_printed_cut(file, text, file.len().max(1))
        && is_printed_cut(file, text, 1)
        && is_printed_cut(file, text, 7)
}

fn is_printed_cut(file: &[u8], text: &[u8], size: usize) -> bool
    requires { 0 < size }
{
    let mut room = Room::new();
    let mut rows = [0; 6144];
    let mut out = io::large_buffer();
    let fed = feed_cut(file, size, &mut room, &mut rows);
    let stop = scenario_read::stopped(fed.state, rows.len(), fed.at);
    let at = scenario_text::put_header(&mut out, 0);
    let end = scenario_prints::put_more(0, &rows, fed.at / ROW_WORDS, stop, &mut out, at);
    scenario_read::ends(stop) && lists::part(&out, 0, end) == text
}

// Chunks of so many bytes, and one of no bytes behind each; then the end. They are handed over after a refusal too.
fn feed_cut(file: &[u8], size: usize, room: &mut Room, rows: &mut [u64]) -> Fed
    requires { 0 < size }
{
    let mut fed = Fed {
        state: scenario_read::fresh(),
        standing: scenario_pieces::at_first(Pred::Any, 1, 0),
        from: 0,
        at: 0,
    };
    for chunk in file.chunks(size) {
        fed = hand(fed, room, chunk, false, rows);
        fed = hand(fed, room, b"", false, rows);
    }
    hand(fed, room, b"", true, rows)
}

fn hand(fed: Fed, room: &mut Room, chunk: &[u8], last: bool, rows: &mut [u64]) -> Fed {
    scenario_read::feed(
        fed.state,
        fed.standing,
        &mut room.line,
        &mut room.lens,
        &mut room.ops,
        &mut room.vals,
        &mut room.schedule,
        chunk,
        0,
        last,
        rows,
        fed.at,
    )
}
