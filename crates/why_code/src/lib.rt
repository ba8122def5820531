// Why a thread is waiting: its next step is tried on a copy, and where that step is a failed look or exchange, the state says what stands in
// its way.
#![tactic(auto)]

ghost use Rattle.std.specs.Prelude.{◌≡◌, Bool};
ghost use Rattle.std.specs.Fn.{FnReturnsAt};
ghost use Rattle.machine.specs.Lists.{lent};
ghost use Rattle.machine.specs.declared.Rec.{Rec as Record};
ghost use Rattle.why.specs.Why.{has_flag, is_counted, blocker_of, reason_of, reason_no, who_no};
ghost use Rattle.why.specs.Told.{numbers_of};
ghost use Rattle.why_code.specs.ByValue.{told_of};

use lock::run;
use lock_words::names::{FAILS_EXC, FAILS_RC, LOADS_EXC, LOADS_RC, NONE, WAITS_RC, YES};
use machine::{Lists, Lock, Place, ROW_WORDS, Rec, Refusal};
use why::{Numbers, Reason};

// The records are the first `count` of the array. Nothing is changed. An array and its count, since `told_of` compares the count itself, past sixteen too.
pub fn why(
    lists: Lists,
    lock: Lock,
    recs: [Rec; 16],
    count: u64,
    thread: u64,
) -> Result<Reason, Refusal>
    ensures { result ≡ told_of (lent lists.entry) count lock recs thread }
{
    let mut row = [0; ROW_WORDS];
    let left = run::run(lists, lock, recs, count, &[thread], 1, &mut row);
    if let Some(refusal) = left.ran.refusal {
        return Err(refusal);
    }
    let [_, access, answer, got, ..] = row;
    if answer != NONE {
        return Err(Refusal {
            number: answer,
            thread: 0,
            place: 0,
        });
    }
    let n = (count as usize).min(recs.len());
    Ok(reason_of(lock.top.0, &recs[..n], access, got))
}

// The reason, out of the next row's access and value got.
#[tactic(auto, unfolding(why::specs::Why::reason_of))]
fn reason_of(top: u64, recs: &[Rec], access: u64, got: u64) -> Reason
    ensures { result ≡ reason_of top recs.now access got }
{
    match access {
        LOADS_RC if got == top => Reason::CountFull,
        FAILS_RC => Reason::CountChanged,
        LOADS_EXC if got == YES => Reason::Flag(blocker_of(recs, has_flag)),
        FAILS_EXC => Reason::Flag(blocker_of(recs, has_flag)),
        WAITS_RC if got != 0 => Reason::Readers(blocker_of(recs, is_counted)),
        _ => Reason::NotWaiting,
    }
}

// ---- whom the thread waits for
// The lowest-numbered record of which the test holds.
fn blocker_of<F: Fn(&Rec) -> bool>(recs: &[Rec], test: F) -> Option<u64>
    requires { F.IsAlwaysCallable test }
    ensures { (p : Record → Bool) → ((r : Record) (b : Bool) → FnReturnsAt F.Fn test r b → b ≡ p r) → result ≡ blocker_of p recs.now }
{
    recs.iter().position(|r| test(r)).map(|w| w as u64)
}

fn has_flag(r: &Rec) -> bool
    ensures { result ≡ has_flag r.now }
{
    matches!(
        r.place,
        Place::WriteWait | Place::WriteTake | Place::Writing | Place::WritePut
    )
}

fn is_counted(r: &Rec) -> bool
    ensures { result ≡ is_counted r.now }
{
    matches!(r.place, Place::ReadCheck | Place::ReadBack | Place::Reading)
}

// ---- in numbers
// 0 where there is none: these are the words of the line that is printed (`why_prints`), and `NumbersTell` of `why` is said of them.
pub fn numbers_of(told: Result<Reason, Refusal>) -> Numbers
    ensures { result ≡ numbers_of told }
{
    match told {
        Err(refusal) => Numbers {
            answer: refusal.number,
            reason: 0,
            who: 0,
        },
        Ok(reason) => Numbers {
            answer: NONE,
            reason: reason_no(reason),
            who: who_no(reason),
        },
    }
}

fn reason_no(reason: Reason) -> u64
    ensures { result ≡ reason_no reason }
{
    match reason {
        Reason::NotWaiting => 0,
        Reason::CountFull => 1,
        Reason::CountChanged => 2,
        Reason::Flag(Some(_)) => 3,
        Reason::Flag(None) => 4,
        Reason::Readers(Some(_)) => 5,
        Reason::Readers(None) => 6,
    }
}

fn who_no(reason: Reason) -> u64
    ensures { result ≡ who_no reason }
{
    match reason {
        Reason::Flag(Some(w)) | Reason::Readers(Some(w)) => w,
        _ => 0,
    }
}
