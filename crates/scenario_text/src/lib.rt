// What is printed, as text in a lent list: numbers, rows, the header and a refusal. Each `put` function stores its text from a place on and
// returns the place after it. Where the longest such text has no room, nothing is stored and the place given is returned; no text but that of no
// bytes is empty, so the caller can tell. The `if` in each is no function of its own that takes what to write as a closure: what the closure
// requires and stores would be two clauses more there, and its contract two lines more in each `put`.
#![tactic(auto)]

ghost use Rattle.std.specs.Prelude.{◌+◌, ◌*◌, ◌≤◌, ◌<◌, ◌≡◌, ◌++◌, [], ◌∷◌, leb, length};
ghost use Rattle.std.proofs.lemmas.List.Edits.{sets};
ghost use Rattle.scenario_text.specs.Number.{text};
ghost use Rattle.scenario_text.specs.Lines.{fields, last_field, header, refusal, row_text, four_text};
ghost use Rattle.scenario_text.specs.Put.{Put, stored, place_after};

use machine::{ROW_WORDS, Row};

// The most bytes of a number.
const NUMBER: usize = 20;

// Of a row: seven numbers, six commas and the break.
pub const ROW_BYTES: usize = 148;

// Of a line of four numbers: three commas and the break.
pub const FOUR_BYTES: usize = 85;

const HEADER: usize = 35;

// Of a refusal: the word with its comma, two numbers, a comma and the break.
pub const REFUSAL: usize = 51;

pub fn put_number(out: &mut [u8], at: usize, v: u64) -> usize
    ensures value { result ≡ place_after 20 out.old at (text v) }
    ensures out_after { out.new ≡ stored 20 out.old at (text v) }
{
    if has_room(out.len(), at, NUMBER) {
        write_number(out, at, v)
    } else {
        at
    }
}

// n is the row's number.
#[tactic(auto, unfolding(crate::specs::Lines::row_text))]
pub fn put_row(out: &mut [u8], at: usize, n: u64, row: Row) -> usize
    ensures value { result ≡ place_after 148 out.old at (row_text n row) }
    ensures out_after { out.new ≡ stored 148 out.old at (row_text n row) }
{
    if has_room(out.len(), at, ROW_BYTES) {
        let front = [n, row.thread, row.access, row.answer, row.got, row.exc];
        write_line(out, at, &front, row.rc)
    } else {
        at
    }
}

// A line of four numbers.
#[tactic(auto, unfolding(crate::specs::Lines::four_text))]
pub fn put_four(out: &mut [u8], at: usize, a: u64, b: u64, c: u64, d: u64) -> usize
    ensures value { result ≡ place_after 85 out.old at (four_text a b c d) }
    ensures out_after { out.new ≡ stored 85 out.old at (four_text a b c d) }
{
    if has_room(out.len(), at, FOUR_BYTES) {
        write_line(out, at, &[a, b, c], d)
    } else {
        at
    }
}

#[tactic(auto, unfolding(crate::specs::Lines::header))]
pub fn put_header(out: &mut [u8], at: usize) -> usize
    ensures value { result ≡ place_after 35 out.old at header }
    ensures out_after { out.new ≡ stored 35 out.old at header }
{
    if has_room(out.len(), at, HEADER) {
        write_bytes(out, at, b"n,thread,access,answer,got,exc,rc\r\n")
    } else {
        at
    }
}

#[tactic(auto, unfolding(crate::specs::Lines::refusal))]
pub fn put_refusal(out: &mut [u8], at: usize, number: u64, line: u64) -> usize
    ensures value { result ≡ place_after 51 out.old at (refusal number line) }
    ensures out_after { out.new ≡ stored 51 out.old at (refusal number line) }
{
    if has_room(out.len(), at, REFUSAL) {
        let n = write_bytes(out, at, b"refused,");
        write_line(out, n, &[number], line)
    } else {
        at
    }
}

pub fn put_bytes(out: &mut [u8], at: usize, s: &[u8]) -> usize
    ensures value { result ≡ place_after (length s.now) out.old at s.now }
    ensures out_after { out.new ≡ stored (length s.now) out.old at s.now }
{
    if has_room(out.len(), at, s.len()) {
        write_bytes(out, at, s)
    } else {
        at
    }
}

// So many words hold n rows.
pub fn has_rows(words: usize, n: usize) -> bool
    ensures { result ≡ leb (6 * n) words }
{
    n <= words / ROW_WORDS
}

// Whether `most` bytes have room from `at` on; at + most may not fit a number.
pub fn has_room(len: usize, at: usize, most: usize) -> bool
    ensures { result ≡ leb (at + most) len }
{
    most <= len && at <= len - most
}

// How many digits v has. Not by ilog10: with it a trace, most of whose numbers have one digit, was printed 6% slower.
fn digits_of(v: u64) -> usize
    ensures { result ≡ length (text v) }
{
    let mut n = 1;
    let mut w = v;
    while 10 <= w {
        w /= 10;
        n += 1;
    }
    n
}

fn digit(d: u64) -> u8
    requires { d < 10 }
    ensures { result ≡ 48 + d }
{
    b'0' + d as u8
}

// The digits are stored from the last to the first, each in its place, so that none is copied; what is left of v ends the loop, not a place.
fn write_number(out: &mut [u8], at: usize, v: u64) -> usize
    requires { at + 20 ≤ length out.old }
    ensures { Put out.old at (text v) 20 result out.new }
{
    let end = at + digits_of(v);
    let mut p = end;
    let mut w = v;
    while 10 <= w {
        p -= 1;
        out[p] = digit(w % 10);
        w /= 10;
    }
    out[at] = digit(w);
    end
}

fn write_bytes(out: &mut [u8], at: usize, s: &[u8]) -> usize
    requires { at + length s.now ≤ length out.old }
    ensures { Put out.old at s.now (length s.now) result out.new }
{
    let end = at + s.len();
    out[at..end].copy_from_slice(s);
    end
}

// A number and the comma after it.
fn write_field(out: &mut [u8], at: usize, v: u64) -> usize
    requires { at + 21 ≤ length out.old }
    ensures { Put out.old at (fields (v ∷ [])) 21 result out.new }
{
    let n = write_number(out, at, v);
    out[n] = b',';
    n + 1
}

// Numbers, each with a comma after it, and the last of the line.
fn write_line(out: &mut [u8], at: usize, front: &[u64], last: u64) -> usize
    requires { at + (21 * length front.now + 22) ≤ length out.old }
    ensures { Put out.old at (fields front.now ++ last_field last) (21 * length front.now + 22) result out.new }
{
    let mut n = at;
    for v in front {
        n = write_field(out, n, *v);
    }
    n = write_number(out, n, last);
    write_bytes(out, n, b"\r\n")
}
