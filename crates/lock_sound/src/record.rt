// The clauses of soundness on one record, and the loop over the records.
ghost use Rattle.std.specs.Prelude.{◌≡◌};
ghost use Rattle.machine.specs.Sound.{every, in_range, has_its, keeps_seen, keeps_taken};
ghost use Rattle.lock_sound.specs.Records.{keeps_at, sound_at};

use super::script;
use cell::pred;
use cell::pred::Pred;
use lock_words::names::{ACQUIRE_READ, ACQUIRE_WRITE, INTO_INNER, RELEASE_WRITE};
use machine::{Lists, Place, Rec};

// The script place is below the script's length inside an operation, and elsewhere not past it.
fn in_range(len: u64, r: Rec) -> bool
    ensures { result ≡ in_range len r r.place }
{
    match r.place {
        Place::Idle | Place::Reading | Place::Writing => r.at <= len,
        _ => r.at < len,
    }
}

// A place inside an operation has that operation.
fn has_its(o: u64, place: Place) -> bool
    ensures { result ≡ has_its o place }
{
    match place {
        Place::Idle | Place::Reading | Place::Writing => true,
        Place::ReadTry | Place::ReadCheck | Place::ReadBack => o == ACQUIRE_READ,
        Place::WriteWait | Place::WriteTake => o == ACQUIRE_WRITE || o == INTO_INNER,
        Place::WritePut => o == RELEASE_WRITE,
    }
}

// What is seen is below the top at ReadTry, and 0 elsewhere.
fn keeps_seen(top: u64, r: Rec) -> bool
    ensures { result ≡ keeps_seen top r r.place }
{
    if r.place == Place::ReadTry {
        r.seen.0 < top
    } else {
        r.seen.0 == 0
    }
}

// What is taken is permitted at Writing, and 0 elsewhere.
fn keeps_taken(pred: Pred, r: Rec) -> bool
    ensures { result ≡ keeps_taken pred r r.place }
{
    if r.place == Place::Writing {
        pred::permits(pred, r.taken)
    } else {
        r.taken == 0
    }
}

// The clauses on one record, whose operation is o.
fn keeps(pred: Pred, top: u64, len: u64, o: u64, r: Rec) -> bool
    ensures { result ≡ keeps_at pred top len o r }
{
    in_range(len, r) && has_its(o, r.place) && keeps_seen(top, r) && keeps_taken(pred, r)
}

// The clauses on thread t's record.
fn keeps_own(lists: Lists, pred: Pred, top: u64, t: u64, r: Rec) -> bool
    ensures { result ≡ sound_at lists.entry.lens.now lists.entry.ops.now pred top t r }
{
    let len = lock_scripts::length_at(lists.lens, t);
    let o = script::word_of(lists.lens, lists.ops, t, r.at);
    keeps(pred, top, len, o, r)
}

// The clauses on each record.
pub fn all_keep(lists: Lists, pred: Pred, top: u64, recs: &[Rec]) -> bool
    ensures { result ≡ every (sound_at lists.entry.lens.now lists.entry.ops.now pred top) 0 recs.now }
{
    recs.iter()
        .enumerate()
        .all(|(t, &r)| keeps_own(lists, pred, top, t as u64, r))
}
