// A run line that stands whole in a chunk, read where it stands: what is written otherwise, or ends in another chunk, is left to the reader of lines.
ghost use Rattle.std.specs.Prelude.{◌≡◌, ◌+◌, ◌<◌, ◌≤◌, true, IfSome, length, drop, ◌++◌};
ghost use Rattle.scenario_read.specs.RunAt.{NumberAt, RunAt};

use scenario_lines::judge::{THREADS, TIMES};

// From this number on a digit more makes one that is not below TIMES.
const TENTH: u64 = 6554;

// The most bytes of a line before its last field and the comma in front of it.
const LONGEST_START: usize = 78;

// The thread, how often, and the place after the line.
#[derive(Clone, Copy)]
pub(crate) struct Peeked {
    pub(crate) thread: u64,
    pub(crate) times: u64,
    pub(crate) at: usize,
}

// A number, and the place after it.
#[derive(Clone, Copy)]
struct Number {
    value: u64,
    at: usize,
}

// run,THREAD,TIMES,0 and its break.
pub(crate) fn peek_run(s: &[u8], from: usize) -> Option<Peeked>
    ensures { IfSome result (λ p. (0 < p.times) × RunAt s.now from p.thread p.times p.at) }
{
    if !stands(s, from, b"run,") {
        return None;
    }
    let thread = number_at(s, from + 4)?;
    if THREADS <= thread.value || !stands(s, thread.at, b",") {
        return None;
    }
    let times = number_at(s, thread.at + 1)?;
    if times.value == 0 || TIMES <= times.value {
        return None;
    }
    if LONGEST_START < times.at - from || !stands(s, times.at, b",0\r\n") {
        return None;
    }
    Some(Peeked {
        thread: thread.value,
        times: times.value,
        at: times.at + 4,
    })
}

// These bytes stand here.
fn stands(s: &[u8], at: usize, text: &[u8]) -> bool
    ensures { result ≡ true → (at + length text.now ≤ length s.now) × (drop at s.now ≡ text.now ++ drop (at + length text.now) s.now) }
{
    at <= s.len() && s[at..].starts_with(text)
}

// 0, or digits of which the first is none, as long as a digit more may be below TIMES, with a byte after them.
fn number_at(s: &[u8], from: usize) -> Option<Number>
    ensures { IfSome result (λ n. n.value < 65536 → NumberAt s.now from n.at n.value) }
{
    if s.len() <= from {
        return None;
    }
    let first = s[from];
    if first == b'0' {
        return Some(Number {
            value: 0,
            at: from + 1,
        });
    }
    if !first.is_ascii_digit() {
        return None;
    }
    let mut value = u64::from(first - b'0');
    for at in from + 1..s.len() {
        let b = s[at];
        if TENTH <= value || !b.is_ascii_digit() {
            return Some(Number { value, at });
        }
        value = value * 10 + u64::from(b - b'0');
    }
    None
}
