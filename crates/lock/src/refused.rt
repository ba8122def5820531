// The refusals that run and drain have in common: 5, 6, 7 and 10.
ghost use Rattle.std.specs.Prelude.{◌≡◌, ◌||◌, not, eqb, ltb, take};
ghost use Rattle.machine.specs.Names.{most_threads};
ghost use Rattle.machine.specs.Lists.{lent, answered};
ghost use Rattle.lock.specs.ByValue.{run_refusal_of};

use lock_sound::sound;
use lock_words::names::{MOST_THREADS, Refused};
use machine::{Lists, Lock, Rec, Refusal};

// 5, 6 and 7 are the lists'. 10 is a thread count of 0 or above 16, or a state that is not sound.
pub(crate) fn refused(lists: Lists, lock: Lock, recs: [Rec; 16], count: u64) -> Result<(), Refusal>
    ensures { let s = lent lists.entry in result ≡ answered s (run_refusal_of s count lock (take count recs)) }
{
    lock_scripts::refused(lists, count)?;
    if some_and_few(lists.lens.len() as u64)
        && sound::is_sound(lists, lock, &recs[..count as usize])
    {
        Ok(())
    } else {
        Err(Refusal::from(Refused::Unsound))
    }
}

fn some_and_few(threads: u64) -> bool
    ensures { result ≡ not (eqb threads 0 || ltb most_threads threads) }
{
    threads != 0 && threads <= MOST_THREADS
}
