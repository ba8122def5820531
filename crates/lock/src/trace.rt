// Rows in the trace list: six words a row.
ghost use Rattle.std.specs.Prelude.{◌+◌, ◌*◌, ◌≤◌, ◌≡◌, length};
ghost use Rattle.std.proofs.lemmas.List.Edits.{sets};
ghost use Rattle.lock.specs.Trace.{words_of_row};

use machine::Row;

pub(crate) fn put_row(trace: &mut [u64], p: usize, row: Row)
    requires { p + 6 ≤ length trace.old }
    ensures { trace.new ≡ sets trace.old p (words_of_row row) }
{
    trace[p] = row.thread;
    trace[p + 1] = row.access;
    trace[p + 2] = row.answer;
    trace[p + 3] = row.got;
    trace[p + 4] = row.exc;
    trace[p + 5] = row.rc;
}
