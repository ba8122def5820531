// Setup: the refusals 1 to 7, and the state that it leaves.
ghost use Rattle.std.specs.Prelude.{◌≤◌, ◌≡◌, ◌||◌, eqb, ltb};
ghost use Rattle.machine.specs.Refusals.{lowest};
ghost use Rattle.machine.specs.Lists.{lent, answered};
ghost use Rattle.machine.specs.Setup.{fresh, setup_refusal};
ghost use Rattle.lock_words.specs.Refused.{number_told};
ghost use Rattle.lock.specs.ByValue.{put_back};
ghost use Rattle.lock.specs.Setup.{own_checks, begun_of};

use atomic::Count;
use cell::pred;
use cell::pred::Pred;
use lock_words::names::{MOST_THREADS, Refused};
use machine::{Lists, Lock, Place, Rec, Refusal};

// What setup answers, and the records as it leaves them.
#[derive(Clone, Copy)]
pub struct Begun {
    pub start: Result<Lock, Refusal>,
    pub recs: [Rec; 16],
}

// The records are the first `count` of the array; the others stay as they are.
pub fn setup(pred: Pred, top: Count, first: u64, lists: Lists, recs: [Rec; 16], count: u64) -> Begun
    ensures { result ≡ begun_of pred top.0 first (lent lists.entry) count recs }
{
    match refused(pred, top, first, lists, count) {
        Ok(()) => Begun {
            start: Ok(lock_words::unused(pred, top, first)),
            recs: begin(recs, count),
        },
        Err(why) => Begun {
            start: Err(why),
            recs,
        },
    }
}

// 1 to 4 are setup's own, 5 to 7 the lists'.
fn refused(pred: Pred, top: Count, first: u64, lists: Lists, count: u64) -> Result<(), Refusal>
    ensures { let s = lent lists.entry in result ≡ answered s (setup_refusal pred top.0 first s count) }
{
    own_refusal(pred, top, first, lists.lens.len() as u64)?;
    lock_scripts::refused(lists, count)
}

// The first of 1 to 4 that applies.
#[tactic(auto, unfolding(machine::specs::Refusals::lowest))]
fn own_refusal(pred: Pred, top: Count, first: u64, threads: u64) -> Result<(), Refused>
    ensures { number_told result ≡ lowest (own_checks pred top.0 first threads) }
{
    if threads == 0 || MOST_THREADS < threads {
        return Err(Refused::ThreadCount);
    }
    if top.0 == 0 {
        return Err(Refused::TopIsZero);
    }
    if !pred::is_good(pred) {
        return Err(Refused::BadPredicate);
    }
    if !pred::permits(pred, first) {
        return Err(Refused::FirstValue);
    }
    Ok(())
}

// The first n records of the array as setup makes them.
fn begin(recs: [Rec; 16], n: u64) -> [Rec; 16]
    requires { n ≤ 16 }
    ensures { result ≡ put_back n recs (fresh n) }
{
    let mut rs = recs;
    rs[..n as usize].fill(lock_words::plain(0, Place::Idle));
    rs
}
