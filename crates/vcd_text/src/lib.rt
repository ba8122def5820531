// A waveform as text in a lent list: its opening with both signals at time 0, the lines of a row that changed a signal, a time. Each `put`
// function stores its text from a place on and returns the place after it. Where the longest such text has no room, nothing is stored and the
// place given is returned.
#![tactic(auto)]

ghost use Rattle.std.specs.Prelude.{◌≡◌, ◌+◌, ◌<◌, ◌≤◌, [], ◌++◌, length, if◌then◌else◌, nat_eq};
ghost use Rattle.scenario_lines.specs.Ascii.{bytes};
ghost use Rattle.scenario_text.specs.Number.{text};
ghost use Rattle.scenario_text.specs.Put.{Put, stored, place_after};
ghost use Rattle.vcd.specs.Binary.{binary};
ghost use Rattle.vcd.specs.Wave.{counted, close};
ghost use Rattle.vcd.specs.Blocks.{time_line, exc_line, rc_line, front, opening, dump, changed, change, time_bytes, changed_bytes, change_bytes, front_bytes};

use vcd::{Signals, Wave};

// The most bytes of a time, of the signals that changed, of both, and of the opening.
pub const TIME: usize = 22;

pub const CHANGED: usize = 71;

pub const CHANGE: usize = 93;

pub const FRONT: usize = 215;

// After one more row, with the signals x. Its time is taken as written only where it changed a signal.
pub fn counted(p: Wave, x: Signals) -> Wave
    ensures { result ≡ counted p x }
{
    let time = p.time.wrapping_add(1);
    let written = if p.signals == x { p.written } else { time };
    Wave {
        time,
        written,
        signals: x,
    }
}

// The opening lines, and both signals at time 0.
pub fn put_front(out: &mut [u8], at: usize, s: Signals) -> usize
    ensures value { result ≡ place_after front_bytes out.old at (front s) }
    ensures out_after { out.new ≡ stored front_bytes out.old at (front s) }
{
    if scenario_text::has_room(out.len(), at, FRONT) {
        return write_front(out, at, s);
    }
    at
}

pub fn put_time(out: &mut [u8], at: usize, t: u64) -> usize
    ensures value { result ≡ place_after time_bytes out.old at (time_line t) }
    ensures out_after { out.new ≡ stored time_bytes out.old at (time_line t) }
{
    if scenario_text::has_room(out.len(), at, TIME) {
        return write_time(out, at, t);
    }
    at
}

// Those of the signals x that are not as in s; there may be none.
pub fn put_changed(out: &mut [u8], at: usize, s: Signals, x: Signals) -> usize
    ensures value { result ≡ place_after changed_bytes out.old at (changed s x) }
    ensures out_after { out.new ≡ stored changed_bytes out.old at (changed s x) }
{
    if scenario_text::has_room(out.len(), at, CHANGED) {
        return write_changed(out, at, s, x);
    }
    at
}

// The row at time t, after which the signals are x; nothing where they are as before.
#[tactic(auto, unfolding(vcd::specs::Blocks::change))]
pub fn put_change(out: &mut [u8], at: usize, t: u64, s: Signals, x: Signals) -> usize
    ensures value { result ≡ place_after change_bytes out.old at (change t s x) }
    ensures out_after { out.new ≡ stored change_bytes out.old at (change t s x) }
{
    if s == x {
        return at;
    }
    if scenario_text::has_room(out.len(), at, CHANGE) {
        return write_change(out, at, t, s, x);
    }
    at
}

// The last time, where it is not written yet.
#[tactic(auto, unfolding(vcd::specs::Wave::close))]
pub fn put_close(out: &mut [u8], at: usize, p: Wave) -> usize
    ensures value { result ≡ place_after time_bytes out.old at (close p) }
    ensures out_after { out.new ≡ stored time_bytes out.old at (close p) }
{
    if p.time == p.written {
        return at;
    }
    put_time(out, at, p.time)
}

// ---- where there is room

// How many digits v has in binary. `scenario_text` has the same of decimal digits: one for both bases would be public, and would have to require
// a base above 1, and no public function requires anything.
fn bits_of(v: u64) -> usize
    ensures { result ≡ length (binary v) }
{
    if v == 0 {
        return 1;
    }
    v.ilog2() as usize + 1
}

fn bit(d: u64) -> u8
    requires { d < 2 }
    ensures { result ≡ 48 + d }
{
    b'0' + d as u8
}

// The digits are stored from the last to the first, each in its place, so that none is copied.
fn write_binary(out: &mut [u8], at: usize, v: u64) -> usize
    requires { at + 64 ≤ length out.old }
    ensures { Put out.old at (binary v) 64 result out.new }
{
    let n = bits_of(v);
    let mut w = v;
    for k in 0..n {
        out[at + n - 1 - k] = bit(w % 2);
        w /= 2;
    }
    at + n
}

fn write_bytes(out: &mut [u8], at: usize, s: &[u8]) -> usize
    requires { at + length s.now ≤ length out.old }
    ensures { Put out.old at s.now (length s.now) result out.new }
{
    scenario_text::put_bytes(out, at, s)
}

fn write_number(out: &mut [u8], at: usize, v: u64) -> usize
    requires { at + 20 ≤ length out.old }
    ensures { Put out.old at (text v) 20 result out.new }
{
    scenario_text::put_number(out, at, v)
}

fn write_time(out: &mut [u8], at: usize, t: u64) -> usize
    requires { at + 22 ≤ length out.old }
    ensures { Put out.old at (time_line t) 22 result out.new }
{
    let n = write_bytes(out, at, b"#");
    let m = write_number(out, n, t);
    write_bytes(out, m, b"\n")
}

#[tactic(auto, unfolding(vcd::specs::Blocks::exc_line))]
fn write_exc(out: &mut [u8], at: usize, v: u64) -> usize
    requires { at + 3 ≤ length out.old }
    ensures { Put out.old at (exc_line v) 3 result out.new }
{
    if v == 0 {
        return write_bytes(out, at, b"0e\n");
    }
    write_bytes(out, at, b"1e\n")
}

fn write_rc(out: &mut [u8], at: usize, v: u64) -> usize
    requires { at + 68 ≤ length out.old }
    ensures { Put out.old at (rc_line v) 68 result out.new }
{
    let n = write_bytes(out, at, b"b");
    let m = write_binary(out, n, v);
    write_bytes(out, m, b" r\n")
}

// The flag, where it was another.
fn write_exc_of(out: &mut [u8], at: usize, was: u64, exc: u64) -> usize
    requires { at + 3 ≤ length out.old }
    ensures { Put out.old at (if nat_eq was exc then [] else exc_line exc) 3 result out.new }
{
    if was == exc {
        return at;
    }
    write_exc(out, at, exc)
}

// The count, likewise.
fn write_rc_of(out: &mut [u8], at: usize, was: u64, rc: u64) -> usize
    requires { at + 68 ≤ length out.old }
    ensures { Put out.old at (if nat_eq was rc then [] else rc_line rc) 68 result out.new }
{
    if was == rc {
        return at;
    }
    write_rc(out, at, rc)
}

fn write_changed(out: &mut [u8], at: usize, s: Signals, x: Signals) -> usize
    requires { at + 71 ≤ length out.old }
    ensures { Put out.old at (changed s x) 71 result out.new }
{
    let n = write_exc_of(out, at, s.exc, x.exc);
    write_rc_of(out, n, s.rc, x.rc)
}

// The time and the signals of a row that changed one.
fn write_change(out: &mut [u8], at: usize, t: u64, s: Signals, x: Signals) -> usize
    requires { at + 93 ≤ length out.old }
    ensures { Put out.old at (time_line t ++ changed s x) 93 result out.new }
{
    let n = write_time(out, at, t);
    write_changed(out, n, s, x)
}

// Both signals at time 0.
fn write_both(out: &mut [u8], at: usize, s: Signals) -> usize
    requires { at + 76 ≤ length out.old }
    ensures { Put out.old at (exc_line s.exc ++ (rc_line s.rc ++ bytes "$end\n")) 76 result out.new }
{
    let n = write_exc(out, at, s.exc);
    let m = write_rc(out, n, s.rc);
    write_bytes(out, m, b"$end\n")
}

fn write_dump(out: &mut [u8], at: usize, s: Signals) -> usize
    requires { at + 89 ≤ length out.old }
    ensures { Put out.old at (dump s) 89 result out.new }
{
    let n = write_bytes(out, at, b"#0\n$dumpvars\n");
    write_both(out, n, s)
}

#[tactic(auto, unfolding(vcd::specs::Blocks::opening))]
fn write_opening(out: &mut [u8], at: usize) -> usize
    requires { at + 126 ≤ length out.old }
    ensures { Put out.old at opening 126 result out.new }
{
    write_bytes(
        out,
        at,
        b"$timescale 1 ns $end\n$scope module lock $end\n$var wire 1 e exc $end\n$var wire 64 r rc $end\n$upscope $end\n$enddefinitions $end\n",
    )
}

fn write_front(out: &mut [u8], at: usize, s: Signals) -> usize
    requires { at + 215 ≤ length out.old }
    ensures { Put out.old at (front s) 215 result out.new }
{
    let n = write_opening(out, at);
    write_dump(out, n, s)
}
