// The clauses of soundness on the mover.
ghost use Rattle.std.specs.Prelude.{◌≡◌};
ghost use Rattle.lock_sound.specs.Counts.{unvalued};
ghost use Rattle.lock_sound.specs.Records.{alone, mover_at};

use super::script;
use lock_words::names::INTO_INNER;
use machine::{Lists, Place, Rec};

// The record r, whose operation is o, is at operation 7, and of so many records that are not Idle it is the only one.
fn is_alone(len: u64, o: u64, r: Rec, busy: u64) -> bool
    ensures { result ≡ alone len o r busy }
{
    r.at < len && o == INTO_INNER && busy == u64::from(r.place != Place::Idle)
}

// A mover is a thread that there is, and the clauses on its record hold. `busy` is how many of the records are not Idle.
pub fn holds(lists: Lists, by: Option<u64>, recs: &[Rec], busy: u64) -> bool
    ensures { result ≡ mover_at (unvalued lists.entry.lens.now lists.entry.ops.now) recs.now busy by }
{
    let Some(t) = by else { return true };
    let Some(&r) = recs.get(t as usize) else {
        return false
    };
    let len = lock_scripts::length_at(lists.lens, t);
    let o = script::word_of(lists.lens, lists.ops, t, r.at);
    is_alone(len, o, r, busy)
}
