// Records taken out of a lent list into an array of sixteen, and put back.
ghost use Rattle.std.specs.Prelude.{min, ◌≡◌};
ghost use Rattle.machine.specs.Setup.{fresh};
ghost use Rattle.lock_lent.specs.Exchange.{shared, front};

use machine::{Place, Rec};

// The array has room for as many records as there may be threads.
const ARRAY: usize = 16;

// The list and the array change their first records with each other, as many as both have.
pub(crate) fn exchange(recs: &mut [Rec], with: [Rec; 16]) -> [Rec; 16]
    ensures value { result ≡ front (shared recs.old) recs.old with }
    ensures recs_after { recs.new ≡ front (shared recs.old) with recs.old }
{
    let n = at_most_sixteen(recs.len());
    let mut out = with;
    recs[..n].swap_with_slice(&mut out[..n]);
    out
}

pub fn at_most_sixteen(n: usize) -> usize
    ensures { result ≡ min n 16 }
{
    n.min(ARRAY)
}

// Sixteen records as setup makes them, to take out against.
pub fn blank() -> [Rec; 16]
    ensures { result ≡ fresh 16 }
{
    [lock_words::plain(0, Place::Idle); 16]
}
