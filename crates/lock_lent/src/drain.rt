// Drain over a lent list of records.
ghost use Rattle.std.specs.Prelude.{◌≡◌};
ghost use Rattle.machine.specs.Lists.{lent};
ghost use Rattle.machine.specs.Drain.{drain_lent};
ghost use Rattle.lock_lent.specs.Drain.{drained_of, drained_told};

use super::exchange;
use lock::drain::Drained;
use machine::{Lists, Lock, Rec};

// The records are changed in their list.
pub fn drain(lists: Lists, lock: Lock, recs: &mut [Rec]) -> Drained
    ensures value { result ≡ drained_told (drained_of (drain_lent (lent lists.entry) lock recs.old)) }
    ensures recs_after { recs.new ≡ (drain_lent (lent lists.entry) lock recs.old).recs }
{
    let taken = exchange::exchange(recs, exchange::blank());
    let left = lock::drain::drain(lists, lock, taken, recs.len() as u64);
    exchange::exchange(recs, left.recs);
    left.drained
}
