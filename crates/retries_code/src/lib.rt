// The rows of a trace counted by thread: how often its exchange on the count failed, and how often it changed the count.
#![tactic(auto)]

ghost use Rattle.std.specs.Prelude.{◌≡◌, true};
ghost use Rattle.retries.specs.Rows.{row_in, rows_of_words};
ghost use Rattle.retries.specs.Retries.{lost, changes};
ghost use Rattle.retries.specs.Counts.{with_rows};
ghost use Rattle.retries_code.specs.Code.{one_more, is_change, with_row};

use lock_words::names::{EXCHANGES_RC, FAILS_RC, GIVES_BACK, RELEASES_RC};
use machine::ROW_WORDS;

// Each row adds one to its thread's number: a failed exchange on the count in `failed`, one that changes the count in `changed`. A thread that a list
// has no number for is not counted in it, and words behind the last whole row are no row. Traces can be handed over one after another.
pub fn count_rows(trace: &[u64], failed: &mut [u64], changed: &mut [u64])
    ensures failed_after { failed.new ≡ with_rows lost 0 failed.old (rows_of_words trace.now) }
    ensures changed_after { changed.new ≡ with_rows changes 0 changed.old (rows_of_words trace.now) }
{
    let (rows, _) = trace.as_chunks::<ROW_WORDS>();
    for row in rows {
        count_row(row, failed, changed);
    }
}

fn count_row(row: &[u64; ROW_WORDS], failed: &mut [u64], changed: &mut [u64])
    ensures failed_after { failed.new ≡ with_row lost (row_in row.now) failed.old }
    ensures changed_after { changed.new ≡ with_row changes (row_in row.now) changed.old }
{
    let [thread, access, ..] = *row;
    if access == FAILS_RC {
        add_one(thread, failed);
    }
    if is_change(access) {
        add_one(thread, changed);
    }
}

fn is_change(access: u64) -> bool
    ensures { result ≡ is_change access }
{
    matches!(access, EXCHANGES_RC | GIVES_BACK | RELEASES_RC)
}

// One more for the thread, where the list has a number for it. A number of 64 bits goes on from 0.
fn add_one(thread: u64, counts: &mut [u64])
    ensures { counts.new ≡ one_more true thread counts.old }
{
    let i = thread as usize;
    if i < counts.len() {
        counts[i] = counts[i].wrapping_add(1);
    }
}
