// The test of tidiness: the lock is clean, and the rest of every script is made of whole sections that release permitted values.
#![tactic(auto)]

ghost use Rattle.std.specs.Prelude.{◌≡◌, ◌-◌, ◌≤◌};
ghost use Rattle.machine.specs.Lists.{lent, scripts_of};
ghost use Rattle.machine.specs.Sound.{every};
ghost use Rattle.machine.specs.Tidy.{mode_of, tidy_rest, is_clean, tidy};
ghost use Rattle.lock_tidy.specs.Rests.{mode, goes_on, held_after, is_free, words_at, tidy_at};

use cell::pred;
use cell::pred::Pred;
use lock_words::names::{ACQUIRE_READ, ACQUIRE_WRITE, BORROWS, RELEASE_READ, RELEASE_WRITE};
use machine::{Lists, Lock, Place, Rec};

// What a thread holds between two operations.
#[derive(Clone, Copy, PartialEq, Eq)]
enum Held {
    Nothing,
    Read,
    Write,
}

#[tactic(auto, unfolding(machine::specs::Tidy::tidy))]
pub fn is_tidy(lists: Lists, lock: Lock, recs: &[Rec]) -> bool
    ensures { result ≡ tidy (scripts_of (lent lists.entry)) lock recs.now }
{
    is_clean(lock) && all_tidy(lists, lock.pred, recs)
}

// What it holds as its present operation starts.
fn held_at(place: Place) -> Held
    ensures { mode result ≡ mode_of place }
{
    match place {
        Place::Reading => Held::Read,
        Place::Writing | Place::WritePut => Held::Write,
        _ => Held::Nothing,
    }
}

// Whether an operation, with its value, may stand there.
fn goes_on(pred: Pred, held: Held, o: u64, v: u64) -> bool
    ensures { result ≡ goes_on pred (mode held) o v }
{
    match held {
        Held::Nothing => o == ACQUIRE_READ || o == ACQUIRE_WRITE,
        Held::Read => o == BORROWS || o == RELEASE_READ,
        Held::Write => o == RELEASE_WRITE && pred::permits(pred, v),
    }
}

// What is held after an operation that may stand there.
fn held_after(o: u64) -> Held
    ensures { result ≡ held_after o }
{
    match o {
        ACQUIRE_READ | BORROWS => Held::Read,
        ACQUIRE_WRITE => Held::Write,
        _ => Held::Nothing,
    }
}

// The rest of a script of length len, from the script place `from` on, where `first` is held; its operations start at op0 and its
// values at val0. Past the end of the list all words are 0, which may stand nowhere, so that a length above it costs no turns.
fn rest_holds(
    ops: &[u64],
    op0: u64,
    vals: &[u64],
    val0: u64,
    pred: Pred,
    first: Held,
    from: u64,
    len: u64,
) -> bool
    requires { from ≤ len }
    ensures { result ≡ tidy_rest pred (words_at ops.now op0) (words_at vals.now val0) (mode first) from (len - from) }
{
    let mut held = first;
    for at in from..len {
        let o = lock_scripts::word_at(ops, op0, at);
        let v = lock_scripts::word_at(vals, val0, at);
        if !goes_on(pred, held, o, v) {
            return false;
        }
        held = held_after(o);
    }
    held == Held::Nothing
}

// The rest of thread i's script, from its record on.
fn rest_tidy(lists: Lists, i: u64, pred: Pred, r: Rec) -> bool
    ensures { result ≡ tidy_at lists.entry.lens.now lists.entry.ops.now lists.entry.vals.now pred i r }
{
    let len = lock_scripts::length_at(lists.lens, i);
    if len < r.at {
        return false;
    }
    let op0 = lock_scripts::start_of(lists.lens, i, lists.ops.len() as u64);
    let val0 = lock_scripts::start_of(lists.lens, i, lists.vals.len() as u64);
    rest_holds(
        lists.ops,
        op0,
        lists.vals,
        val0,
        pred,
        held_at(r.place),
        r.at,
        len,
    )
}

// The rest of each record's script.
fn all_tidy(lists: Lists, pred: Pred, recs: &[Rec]) -> bool
    ensures { result ≡ every (tidy_at lists.entry.lens.now lists.entry.ops.now lists.entry.vals.now pred) 0 recs.now }
{
    recs.iter()
        .enumerate()
        .all(|(i, &r)| rest_tidy(lists, i as u64, pred, r))
}

// Nothing is dropped, nobody moves the value out, and the lock isn't finished.
fn is_clean(lock: Lock) -> bool
    ensures { result ≡ is_clean lock }
{
    lock.reads.0 == 0 && lock.writes.0 == 0 && lock.mover.is_none() && !lock.finished
}
