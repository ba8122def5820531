// The test of soundness: the counts over all records with the clauses on them, and then every record and the mover.
ghost use Rattle.std.specs.Prelude.{◌≡◌, ◌+◌, ◌<◌, ◌^◌};
ghost use Rattle.machine.specs.Lists.{lent, scripts_of};
ghost use Rattle.machine.specs.Sound.{tally, test_counts, sound};
ghost use Rattle.lock_sound.specs.Counts.{Few, unvalued, weighed, as_tally, test_readers, test_writers, test_value, test_ending};

use super::{mover, record, script};
use cell::pred;
use lock_words::names::INTO_INNER;
use machine::{Lists, Lock, Place, Rec};

// How many records stand at each place, are not Idle, or are inside operation 7.
#[derive(Clone, Copy)]
struct Counted {
    check: u64,
    back: u64,
    reading: u64,
    wait: u64,
    take: u64,
    writing: u64,
    put: u64,
    busy: u64,
    inside: u64,
}

// Soundness doesn't look at the values.
#[tactic(auto, using(crate::proofs::Alone::mover_by), unfolding(machine::specs::Sound::sound))]
pub fn is_sound(lists: Lists, lock: Lock, recs: &[Rec]) -> bool
    ensures { result ≡ sound (scripts_of (lent lists.entry)) lock recs.now }
{
    let all = gather(lists, recs);
    1 <= lock.top.0
        && pred::is_good(lock.pred)
        && counts_hold(lock, all)
        && record::all_keep(lists, lock.pred, lock.top.0, recs)
        && mover::holds(lists, lock.mover, recs, all.busy)
}

// The counts with one record more, whose operation is o.
fn weigh(n: Counted, r: Rec, o: u64) -> Counted
    requires { Few n }
    ensures { result ≡ weighed n r o }
{
    let moves = r.place == Place::WriteWait || r.place == Place::WriteTake;
    Counted {
        check: n.check + u64::from(r.place == Place::ReadCheck),
        back: n.back + u64::from(r.place == Place::ReadBack),
        reading: n.reading + u64::from(r.place == Place::Reading),
        wait: n.wait + u64::from(r.place == Place::WriteWait),
        take: n.take + u64::from(r.place == Place::WriteTake),
        writing: n.writing + u64::from(r.place == Place::Writing),
        put: n.put + u64::from(r.place == Place::WritePut),
        busy: n.busy + u64::from(r.place != Place::Idle),
        inside: n.inside + u64::from(moves && o == INTO_INNER),
    }
}

// The counts over the records. Each record is counted at one place at most, so that no sum of counts is above the slice's length.
fn gather(lists: Lists, recs: &[Rec]) -> Counted
    ensures result_value { as_tally result ≡ tally (unvalued lists.entry.lens.now lists.entry.ops.now) recs.now }
    ensures few { Few result }
{
    let mut all = Counted {
        check: 0,
        back: 0,
        reading: 0,
        wait: 0,
        take: 0,
        writing: 0,
        put: 0,
        busy: 0,
        inside: 0,
    };
    for (t, &r) in recs.iter().enumerate() {
        let o = script::word_of(lists.lens, lists.ops, t as u64, r.at);
        all = weigh(all, r, o);
    }
    all
}

// The count is not above its top, and it counts the readers that have raised it and not lowered it.
fn readers_hold(lock: Lock, n: Counted) -> bool
    requires { Few n }
    ensures { result ≡ test_readers lock (as_tally n) }
{
    let pending = n.check + n.back + n.reading;
    lock.rc.0 <= lock.top.0 && lock_words::is_sum(lock.rc.0, pending, lock.reads.0)
}

// The flag is up for one writer, those past access 8 are alone, and the cell is empty for one that has taken the value away.
#[tactic(auto, using(crate::proofs::Gather::byte_light))]
fn writers_hold(lock: Lock, n: Counted) -> bool
    requires { Few n }
    ensures { result ≡ test_writers lock (as_tally n) }
{
    let reads = lock.reads.0;
    let writes = lock.writes.0;
    let gone = n.writing + u64::from(lock.finished);
    let past = n.take + n.put + gone;
    let full = u64::from(lock.cell.is_some());
    lock_words::is_sum(u64::from(lock.exc), n.wait + past, writes)
        && (lock_words::is_sum(0, past, writes) || lock_words::is_sum(0, n.reading, reads))
        && lock_words::is_sum(1, full + gone, writes)
}

// What is in the cell is permitted.
fn value_holds(lock: Lock) -> bool
    ensures { result ≡ test_value lock }
{
    match lock.cell {
        None => true,
        Some(value) => pred::permits(lock.pred, value),
    }
}

// Nobody but the mover is inside operation 7, and a finished lock has everyone Idle and no mover.
fn ending_holds(lock: Lock, n: Counted) -> bool
    ensures { result ≡ test_ending lock (as_tally n) }
{
    n.inside <= u64::from(lock.mover.is_some())
        && (!lock.finished || (n.busy == 0 && lock.mover.is_none()))
}

// The clauses of soundness that are on counts.
fn counts_hold(lock: Lock, n: Counted) -> bool
    requires { Few n }
    ensures { result ≡ test_counts lock (as_tally n) }
{
    readers_hold(lock, n) && writers_hold(lock, n) && value_holds(lock) && ending_holds(lock, n)
}
