// A piece of a schedule: its entries are run and their rows stored, with the standing that is handed from piece to piece.
#![tactic(auto)]

ghost use Rattle.std.specs.Prelude.{◌+◌, ◌*◌, ◌≤◌, ◌≡◌, length};
ghost use Rattle.machine.specs.Lists.{lent};
ghost use Rattle.scenario_pieces.specs.Piece.{piece, first_of, left_of, stored_of, ran_left, ran_stored};

use atomic::Count;
use cell::pred::Pred;
use lock::run;
use machine::{Lists, Lock, Place, ROW_WORDS, Rec};

// The most entries of a piece.
pub const ENTRIES: u64 = 64;

// The lock and the records as the pieces so far have left them.
#[derive(Clone, Copy)]
pub struct Standing {
    pub lock: Lock,
    pub recs: [Rec; 16],
}

// The standing after a piece, and the place after its rows.
#[derive(Clone, Copy)]
pub struct Left {
    pub standing: Standing,
    pub at: usize,
}

// Before the first piece: the lock and the records as setup makes them.
pub fn at_first(pred: Pred, top: u64, first: u64) -> Standing
    ensures { result ≡ first_of pred top first }
{
    Standing {
        lock: lock_words::unused(pred, Count(top), first),
        recs: [lock_words::plain(0, Place::Idle); 16],
    }
}

// The first entries, as many as a piece has, are run, a record for each script, and their rows stored from the word `at` on. Where there is no
// room for so many rows, or the run is refused, all stays as it is.
pub fn run_piece(lists: Lists, s: Standing, entries: &[u64], rows: &mut [u64], at: usize) -> Left
    ensures value { result ≡ left_of (lent lists.entry) s entries.now rows.old at }
    ensures rows_after { rows.new ≡ stored_of (lent lists.entry) s entries.now rows.old at }
{
    let n = entries.len().min(ENTRIES as usize);
    if scenario_text::has_room(rows.len(), at, ROW_WORDS * n) {
        run_there(lists, s, entries, rows, at)
    } else {
        Left { standing: s, at }
    }
}

// Where there is room. The rows are lent on from there, so that none is copied. A run that is refused has none, and leaves the lock and the
// records.
fn run_there(lists: Lists, s: Standing, entries: &[u64], rows: &mut [u64], at: usize) -> Left
    requires { at + 6 * length (piece entries.now) ≤ length rows.old }
    ensures value { result ≡ ran_left (lent lists.entry) s entries.now at }
    ensures rows_after { rows.new ≡ ran_stored (lent lists.entry) s entries.now rows.old at }
{
    let done = run::run(
        lists,
        s.lock,
        s.recs,
        lists.lens.len() as u64,
        entries,
        ENTRIES,
        &mut rows[at..],
    );
    let recs = done.recs;
    Left {
        standing: Standing {
            lock: done.ran.lock,
            recs,
        },
        at: at + ROW_WORDS * done.ran.n as usize,
    }
}
