// A trace as a waveform. The text is gone through twice, first without storing it, so that a refusal has stored nothing.
ghost use Rattle.std.specs.Prelude.{◌+◌, ◌<◌, ◌≤◌, ◌^◌, ◌≡◌, true, length, get_or};
ghost use Rattle.vcd.specs.Blocks.{front, change};
ghost use Rattle.vcd.specs.Wave.{at_first, next, close};
ghost use Rattle.vcd.specs.Trace.{signals_in};
ghost use Rattle.vcd.specs.Write.{any_high, wrong, file_of, written, written_in};
ghost use Rattle.vcd_code.specs.Walk.{rest_of, told, keeps, passes};

use machine::ROW_WORDS;
use vcd::{Refusal, Signals, Wave};
use vcd_text::{CHANGE, FRONT, TIME};

// The places of exc and rc among the words of a row.
const EXC: usize = 4;

const RC: usize = 5;

// The trace has six words a row; s are the signals before its first. What is written stands at the start of `out`, and bytes behind it
// stay; the answer is how many there are. Refused where the trace has no whole rows, or an exc is above 1; then where the text has no room.
pub fn write(trace: &[u64], s: Signals, out: &mut [u8]) -> Result<usize, Refusal>
    ensures value { result ≡ written trace.now s (length out.old) }
    ensures out_after { out.new ≡ written_in trace.now s out.old }
{
    if is_wrong(trace, s) {
        return Err(Refusal::NoTrace);
    }
    walk(trace, s, false, out)?;
    walk(trace, s, true, out)
}

#[tactic(auto, unfolding(vcd::specs::Write::wrong, vcd::specs::Write::any_high))]
fn is_wrong(trace: &[u64], s: Signals) -> bool
    ensures { result ≡ wrong trace.now s }
{
    trace.len() % ROW_WORDS != 0 || 1 < s.exc || any_high(trace)
}

// Whether a row has an exc above 1.
fn any_high(trace: &[u64]) -> bool
    ensures { result ≡ any_high (signals_in trace.now) }
{
    let n = trace.len() / ROW_WORDS;
    for k in 0..n {
        if 1 < trace[ROW_WORDS * k + EXC] {
            return true;
        }
    }
    false
}

// ---- the walk: where `storing`, the text is stored at the start of `out`; otherwise nothing is. Either way it is told where it ends, if it has room.
// A flag and no closure, since `pass` alone asks it.

fn walk(trace: &[u64], s: Signals, storing: bool, out: &mut [u8]) -> Result<usize, Refusal>
    requires { storing ≡ true → length (file_of trace.now s) ≤ length out.old }
    ensures value { result ≡ told (length out.old) (length (file_of trace.now s)) }
    ensures out_after { out.new ≡ keeps storing out.old 0 (file_of trace.now s) }
{
    let at = pass_front(s, 0, storing, out)?;
    walk_rows(trace, s, at, storing, out)
}

// The rows and the close, whose text starts at `from`.
fn walk_rows(
    trace: &[u64],
    s: Signals,
    from: usize,
    storing: bool,
    out: &mut [u8],
) -> Result<usize, Refusal>
    requires { storing ≡ true → from + length (rest_of (at_first s) (signals_in trace.now)) ≤ length out.old }
    ensures value { result ≡ told (length out.old) (from + length (rest_of (at_first s) (signals_in trace.now))) }
    ensures out_after { out.new ≡ keeps storing out.old from (rest_of (at_first s) (signals_in trace.now)) }
{
    let n = trace.len() / ROW_WORDS;
    let mut p = Wave {
        time: 0,
        written: 0,
        signals: s,
    };
    let mut at = from;
    for k in 0..n {
        let x = signals_at(trace, ROW_WORDS * k);
        at = pass_change(p, x, at, storing, out)?;
        p = next_row(p, x);
    }
    pass_close(p, at, storing, out)
}

// Of the row whose words start at p. `vcd_rows` has the same: one for both would be public, and no public function requires anything.
fn signals_at(trace: &[u64], p: usize) -> Signals
    requires { p + 6 ≤ length trace.now }
    ensures { result ≡ record { exc = get_or trace.now (p + 4) 0; rc = get_or trace.now (p + 5) 0 } }
{
    Signals {
        exc: trace[p + EXC],
        rc: trace[p + RC],
    }
}

fn next_row(p: Wave, x: Signals) -> Wave
    requires { p.time + 1 < 2 ^ 64 }
    ensures { result ≡ next p x }
{
    vcd_text::counted(p, x)
}

// ---- pieces of the text: each is made in an array of its own, so that it is known how long it is before any of it is stored

fn pass_front(s: Signals, at: usize, storing: bool, out: &mut [u8]) -> Result<usize, Refusal>
    ensures value { result ≡ told (length out.old) (at + length (front s)) }
    ensures out_after { out.new ≡ passes storing out.old at (front s) }
{
    let mut piece = [0; FRONT];
    let n = vcd_text::put_front(&mut piece, 0, s);
    pass(&piece[..n], at, storing, out)
}

fn pass_change(
    p: Wave,
    x: Signals,
    at: usize,
    storing: bool,
    out: &mut [u8],
) -> Result<usize, Refusal>
    requires { p.time + 1 < 2 ^ 64 }
    ensures value { result ≡ told (length out.old) (at + length (change (p.time + 1) p.signals x)) }
    ensures out_after { out.new ≡ passes storing out.old at (change (p.time + 1) p.signals x) }
{
    let mut piece = [0; CHANGE];
    let n = vcd_text::put_change(&mut piece, 0, p.time + 1, p.signals, x);
    pass(&piece[..n], at, storing, out)
}

fn pass_close(p: Wave, at: usize, storing: bool, out: &mut [u8]) -> Result<usize, Refusal>
    ensures value { result ≡ told (length out.old) (at + length (close p)) }
    ensures out_after { out.new ≡ passes storing out.old at (close p) }
{
    let mut piece = [0; TIME];
    let n = vcd_text::put_close(&mut piece, 0, p);
    pass(&piece[..n], at, storing, out)
}

// A piece, which the text has from `at` on.
fn pass(piece: &[u8], at: usize, storing: bool, out: &mut [u8]) -> Result<usize, Refusal>
    ensures value { result ≡ told (length out.old) (at + length piece.now) }
    ensures out_after { out.new ≡ passes storing out.old at piece.now }
{
    if !scenario_text::has_room(out.len(), at, piece.len()) {
        return Err(Refusal::NoRoom);
    }
    if storing {
        return Ok(scenario_text::put_bytes(out, at, piece));
    }
    Ok(at + piece.len())
}
