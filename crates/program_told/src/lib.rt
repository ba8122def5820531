// What a program tells of a line that is refused, in numbers: how far the scenario was read, how long the line is, and its bytes.
#![tactic(auto)]

ghost use Rattle.std.specs.Prelude.{◌≡◌, ◌+◌, ◌*◌, ◌≤◌, [], ◌∷◌, ◌++◌, length, drop};
ghost use Rattle.scenario_lines.specs.Ascii.{bytes as ascii};
ghost use Rattle.scenario_text.specs.Put.{Put, place_after, stored};
ghost use Rattle.scenario_text.specs.Lines.{break};
ghost use Rattle.program_told.specs.Turn.{length_in_turn, told_end, told_after};
ghost use Rattle.program_told.specs.Told.{anew, through, last_length, missing, refused_length, listed, read_numbers, refused_bytes, read_text};

use program_chunks::Input;
use program_intake::{Came, Intake};
use scenario_lines::bytes::Held;
use scenario_lines::{LONGEST, bytes};
use scenario_read::Stop;
use scenario_stages::Read;

// The most bytes of the text: a word, six numbers, those of a whole line, a comma before each, and the break.
const MOST: usize = 1812;

// How long the line is that a turn of a program refused, 0 where there is none. It was read in this turn: nothing is read behind it, and the rows
// before it, less than a piece, have the room that was asked before it was read.
pub fn length_in_turn(before: Intake, input: Input, came: Came, chunk: &[u8]) -> usize
    ensures { result ≡ length_in_turn before input came chunk.now }
{
    let began = before.state;
    let left = came.intake.state;
    let taken = program_chunks::front(chunk, came.intake.input.from);
    refused_length(
        began.read,
        began.held,
        left.read,
        left.closed,
        taken,
        input.from,
    )
}

// What is told where a refusal stopped the reader is stored from the list's start on, and the place after it is returned: the refusal, and what is
// known of its line.
pub fn put_told(stop: Stop, read: Read, len: usize, line: &[u8], out: &mut [u8]) -> usize
    ensures value { result ≡ told_end stop read len line.now out.old }
    ensures out_after { out.new ≡ told_after stop read len line.now out.old }
{
    let n = scenario_prints::put_stop(stop, out, 0);
    if n == 0 {
        return 0;
    }
    put_read(out, n, read, len, line)
}

// How many bytes the line has that was refused in this turn, 0 where there is none and where the file ended before it: `earlier` and `held` are what
// was read and held before the bytes of the chunk from `from` on.
pub fn refused_length(
    earlier: Read,
    held: Held,
    read: Read,
    closed: bool,
    chunk: &[u8],
    from: usize,
) -> usize
    ensures { result ≡ refused_length earlier held read closed (drop from chunk.now) }
{
    if read.refused.is_none() {
        return 0;
    }
    if is_missing(earlier.line, read.line, closed) {
        return 0;
    }
    last_length(held, chunk, from, closed)
}

// Where two lines are counted at the end of the input, the one that was left is taken, and one is missing behind it.
fn is_missing(before: u64, after: u64, closed: bool) -> bool
    ensures { result ≡ missing before after closed }
{
    closed && after != before.wrapping_add(1)
}

// How many bytes the line has that was read last: `held` is what was held of a line before the bytes of the chunk from `from` on, `closed` says
// that the end of the input came after them. 81 stands for a line that is too long.
fn last_length(held: Held, chunk: &[u8], from: usize, closed: bool) -> usize
    ensures { result ≡ last_length held (drop from chunk.now) closed }
{
    // The bytes are counted, not kept.
    let mut places = [0; 80];
    let h = go_through(&mut places, held, chunk, from);
    if closed {
        let end = bytes::finish(&mut places, anew(h));
        return end.len;
    }
    h.len
}

fn go_through(places: &mut [u8; 80], held: Held, chunk: &[u8], from: usize) -> Held
    ensures { result ≡ through held (drop from chunk.now) }
{
    let mut h = held;
    for i in from..chunk.len() {
        h = bytes::push(places, anew(h), chunk[i]);
    }
    h
}

// Behind a break nothing is held.
fn anew(h: Held) -> Held
    ensures { result ≡ anew h }
{
    if h.done { bytes::begin() } else { h }
}

// The text is stored from `at` on, and the place after it is returned. Where the longest such text has no room, nothing is stored. `len` bytes of
// the line are told, as far as it goes, and 80 at most.
pub fn put_read(out: &mut [u8], at: usize, read: Read, len: usize, line: &[u8]) -> usize
    ensures value { result ≡ place_after 1812 out.old at (read_text read len line.now) }
    ensures out_after { out.new ≡ stored 1812 out.old at (read_text read len line.now) }
{
    if scenario_text::has_room(out.len(), at, MOST) {
        return write_read(out, at, read, len, line);
    }
    at
}

fn write_read(out: &mut [u8], at: usize, read: Read, len: usize, line: &[u8]) -> usize
    requires { at + 1812 ≤ length out.old }
    ensures { Put out.old at (read_text read len line.now) 1812 result out.new }
{
    let n = write_front(out, at, read, len);
    write_rest(out, n, front(line, len))
}

// The word, and what was read.
fn write_front(out: &mut [u8], at: usize, read: Read, len: usize) -> usize
    requires { at + 130 ≤ length out.old }
    ensures { Put out.old at (ascii "read" ++ listed (read_numbers read len)) 130 result out.new }
{
    let n = scenario_text::put_bytes(out, at, b"read");
    write_numbers(out, n, read, len)
}

fn write_numbers(out: &mut [u8], at: usize, read: Read, len: usize) -> usize
    requires { at + 126 ≤ length out.old }
    ensures { Put out.old at (listed (read_numbers read len)) 126 result out.new }
{
    let no = scenario_stages::stage_no(read.stage);
    let n = write_four(out, at, no, read.top, read.first, read.threads);
    write_two(out, n, read.thread, len as u64)
}

// The bytes of the line, and the break.
fn write_rest(out: &mut [u8], at: usize, line: &[u8]) -> usize
    requires { at + (21 * length line.now + 2) ≤ length out.old }
    ensures { Put out.old at (listed line.now ++ break) (21 * length line.now + 2) result out.new }
{
    let n = write_line(out, at, line);
    scenario_text::put_bytes(out, n, b"\r\n")
}

fn write_line(out: &mut [u8], at: usize, line: &[u8]) -> usize
    requires { at + 21 * length line.now ≤ length out.old }
    ensures { Put out.old at (listed line.now) (21 * length line.now) result out.new }
{
    let mut p = at;
    for &b in line {
        p = write_byte(out, p, b);
    }
    p
}

fn write_byte(out: &mut [u8], at: usize, b: u8) -> usize
    requires { at + 21 ≤ length out.old }
    ensures { Put out.old at (listed (b ∷ [])) 21 result out.new }
{
    write_one(out, at, u64::from(b))
}

fn write_four(out: &mut [u8], at: usize, a: u64, b: u64, c: u64, d: u64) -> usize
    requires { at + 84 ≤ length out.old }
    ensures { Put out.old at (listed (a ∷ b ∷ c ∷ d ∷ [])) 84 result out.new }
{
    let n = write_two(out, at, a, b);
    write_two(out, n, c, d)
}

fn write_two(out: &mut [u8], at: usize, a: u64, b: u64) -> usize
    requires { at + 42 ≤ length out.old }
    ensures { Put out.old at (listed (a ∷ b ∷ [])) 42 result out.new }
{
    let n = write_one(out, at, a);
    write_one(out, n, b)
}

// A comma, and a number.
fn write_one(out: &mut [u8], at: usize, v: u64) -> usize
    requires { at + 21 ≤ length out.old }
    ensures { Put out.old at (listed (v ∷ [])) 21 result out.new }
{
    let n = scenario_text::put_bytes(out, at, b",");
    scenario_text::put_number(out, n, v)
}

// Of a line that is too long, the bytes that were kept.
fn front(line: &[u8], len: usize) -> &[u8]
    ensures { result.now ≡ refused_bytes len line.now }
{
    let n = len.min(LONGEST).min(line.len());
    &line[..n]
}
