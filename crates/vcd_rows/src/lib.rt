// The waveform of rows: rows in, as words, the lines of what changed out.
#![tactic(auto)]

ghost use Rattle.std.specs.Prelude.{◌+◌, ◌*◌, ◌≤◌, ◌≡◌, leb, length};
ghost use Rattle.scenario_text.specs.Put.{Put};
ghost use Rattle.vcd.specs.Trace.{row_signals};
ghost use Rattle.vcd_rows.specs.Waves.{signals_at, left_by, text_by, left_of, stored_of};

use machine::ROW_WORDS;
use vcd::{Signals, Wave};
use vcd_text::CHANGE;

// Where the waveform stands after rows, and the place after what they changed.
#[derive(Clone, Copy)]
pub struct Left {
    pub wave: Wave,
    pub at: usize,
}

// Whether the changes of n rows have room from `at` on, however long they are.
pub fn has_room(len: usize, at: usize, n: usize) -> bool
    ensures { result ≡ leb (at + 93 * n) len }
{
    at <= len && n <= (len - at) / CHANGE
}

// What the first n rows change is stored from `at` on. Where there are not so many rows, or what they change might have no room, nothing is stored
// and all stays.
#[tactic(auto, unfolding(crate::specs::Waves::left_of, crate::specs::Waves::stored_of))]
pub fn put_rows(wave: Wave, rows: &[u64], n: usize, out: &mut [u8], at: usize) -> Left
    ensures value { result ≡ left_of wave rows.now n out.old at }
    ensures out_after { out.new ≡ stored_of wave rows.now n out.old at }
{
    if scenario_text::has_rows(rows.len(), n) && has_room(out.len(), at, n) {
        return write_rows(wave, rows, n, out, at);
    }
    Left { wave, at }
}

fn write_rows(wave: Wave, rows: &[u64], n: usize, out: &mut [u8], at: usize) -> Left
    requires n_in_bounds { 6 * n ≤ length rows.now }
    requires n_in_bounds_2 { at + 93 * n ≤ length out.old }
    ensures wave_value { result.wave ≡ left_by wave (row_signals n rows.now) }
    ensures put { Put out.old at (text_by wave (row_signals n rows.now)) (93 * n) result.at out.new }
{
    let mut w = wave;
    let mut p = at;
    for k in 0..n {
        let x = signals_at(rows, ROW_WORDS * k);
        let v = vcd_text::counted(w, x);
        p = vcd_text::put_change(out, p, v.time, w.signals, x);
        w = v;
    }
    Left { wave: w, at: p }
}

// Of the row whose words start at p. `vcd_code` has the same: one for both would be public, and no public function requires anything.
fn signals_at(rows: &[u64], p: usize) -> Signals
    requires { p + 6 ≤ length rows.now }
    ensures { result ≡ signals_at rows.now p }
{
    Signals {
        exc: rows[p + 4],
        rc: rows[p + 5],
    }
}
