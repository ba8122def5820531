// Rows as text: rows in, as words, the lines of a printed trace out, and behind the last of them the refusal.
#![tactic(auto)]

ghost use Rattle.std.specs.Prelude.{◌≡◌, ◌+◌, ◌*◌, ◌≤◌, length, nat_le};
ghost use Rattle.scenario_text.specs.Put.{Put, place_after, stored};
ghost use Rattle.lock_promises.specs.Reached.{rows_in};
ghost use Rattle.scenario.specs.Printed.{rows_text};
ghost use Rattle.scenario_prints.specs.Prints.{row_at, stop_text, place_of, stored_of};

use machine::{ROW_WORDS, Row};
use scenario_read::Stop;
use scenario_text::{REFUSAL, ROW_BYTES};

// Whether n rows and a refusal have room from `at` on, however long they are.
pub fn has_room(len: usize, at: usize, n: usize) -> bool
    ensures { result ≡ nat_le (at + (148 * n + 51)) len }
{
    at <= len && REFUSAL <= len - at && n <= (len - at - REFUSAL) / ROW_BYTES
}

// The first n rows, of which the first has the number `first`, are stored from `at` on, then the refusal, where the reader was stopped by one, and
// the place after them is returned. Where there are not so many rows, or their text might have no room, nothing is stored.
#[tactic(auto, unfolding(crate::specs::Prints::place_of, crate::specs::Prints::stored_of))]
pub fn put_more(first: u64, rows: &[u64], n: usize, stop: Stop, out: &mut [u8], at: usize) -> usize
    ensures value { result ≡ place_of first rows.now n stop out.old at }
    ensures out_after { out.new ≡ stored_of first rows.now n stop out.old at }
{
    if scenario_text::has_rows(rows.len(), n) && has_room(out.len(), at, n) {
        let end = write_rows(rows, n, first, out, at);
        return put_stop(stop, out, end);
    }
    at
}

// The refusal, where the reader was stopped by one and it has room.
pub fn put_stop(stop: Stop, out: &mut [u8], at: usize) -> usize
    ensures value { result ≡ place_after 51 out.old at (stop_text stop) }
    ensures out_after { out.new ≡ stored 51 out.old at (stop_text stop) }
{
    match stop {
        Stop::Refused(number, line) => scenario_text::put_refusal(out, at, number, line),
        _ => at,
    }
}

fn write_rows(trace: &[u64], n: usize, first: u64, out: &mut [u8], at: usize) -> usize
    requires n_in_bounds { 6 * n ≤ length trace.now }
    requires n_in_bounds_2 { at + 148 * n ≤ length out.old }
    ensures { Put out.old at (rows_text first (rows_in n trace.now)) (148 * n) result out.new }
{
    let mut row = first;
    let mut p = at;
    for k in 0..n {
        let r = row_at(trace, ROW_WORDS * k);
        p = scenario_text::put_row(out, p, row, r);
        row = row.wrapping_add(1);
    }
    p
}

// The row whose words start at p.
fn row_at(trace: &[u64], p: usize) -> Row
    requires { p + 6 ≤ length trace.now }
    ensures { result ≡ row_at trace.now p }
{
    Row {
        thread: trace[p],
        access: trace[p + 1],
        answer: trace[p + 2],
        got: trace[p + 3],
        exc: trace[p + 4],
        rc: trace[p + 5],
    }
}
