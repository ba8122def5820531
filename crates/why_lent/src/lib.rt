// Why a thread is waiting, asked over a lent list of records: the records are read out of the list, and the question is asked of them by
// value.
#![tactic(auto)]

ghost use Rattle.std.specs.Prelude.{◌≡◌};
ghost use Rattle.machine.specs.Lists.{lent};
ghost use Rattle.lock_lent.specs.Taken.{taken};
ghost use Rattle.why.specs.Told.{told_lent};

use lock_lent::exchange;
use machine::{Lists, Lock, Rec, Refusal};
use why::Reason;

// Of any list of any length. Nothing is changed.
pub fn why(lists: Lists, lock: Lock, recs: &[Rec], thread: u64) -> Result<Reason, Refusal>
    ensures { result ≡ told_lent (lent lists.entry) lock recs.now thread }
{
    why_code::why(lists, lock, taken(recs), recs.len() as u64, thread)
}

// The first sixteen records of the list; where it has fewer, records as setup makes them fill the array.
pub(crate) fn taken(recs: &[Rec]) -> [Rec; 16]
    ensures { result ≡ taken recs.now }
{
    let mut out = exchange::blank();
    let n = recs.len().min(out.len());
    out[..n].copy_from_slice(&recs[..n]);
    out
}
