// One entry of a schedule, for a thread that there is: the refusals 12 to 16, and the turn.
ghost use Rattle.std.specs.Prelude.{◌<◌, ◌≡◌, ◌||◌, eqb};
ghost use Rattle.machine.specs.Step.{fits};
ghost use Rattle.lock_words.specs.Refused.{number_told};
ghost use Rattle.lock.specs.Room.{Room};
ghost use Rattle.lock.specs.Turn.{gone, others_are_busy, forbidden, turn_refusal, turn_of};

use super::table;
use cell::pred;
use lock_words::names::{
    ACQUIRE_READ, ACQUIRE_WRITE, BORROWS, DROP_HANDLE, INTO_INNER, RELEASE_READ, RELEASE_WRITE,
    Refused,
};
use machine::{Did, Lock, Place, Rec};

// Thread i has the record rec and a script of the length len, at its script place the operation op with the value v; of the other
// records so many are not Idle.
pub(crate) fn turn(
    lock: Lock,
    rec: Rec,
    i: u64,
    len: u64,
    others: u64,
    op: u64,
    v: u64,
) -> Result<Did, u64>
    requires { rec.at < len → Room lock rec }
    ensures { result ≡ turn_of lock rec i len others op v }
{
    refusal(lock, rec, i, len, others, op, v)?;
    Ok(table::act(i, lock, rec, op, v))
}

// The first refusal that applies.
#[tactic(auto, unfolding(crate::specs::Turn::turn_refusal, machine::specs::Refusals::lowest))]
fn refusal(
    lock: Lock,
    rec: Rec,
    i: u64,
    len: u64,
    others: u64,
    op: u64,
    v: u64,
) -> Result<(), Refused>
    ensures { number_told result ≡ turn_refusal lock rec i len others op v }
{
    if len <= rec.at {
        return Err(Refused::ScriptFinished);
    }
    if gone(lock, i) {
        return Err(Refused::LockGone);
    }
    if !fits(rec.place, op) {
        return Err(Refused::DoesNotFit);
    }
    if others_are_busy(lock, i, others, op) {
        return Err(Refused::OthersBusy);
    }
    if forbidden(lock, rec, op, v) {
        return Err(Refused::NotPermitted);
    }
    Ok(())
}

fn gone(lock: Lock, i: u64) -> bool
    ensures { result ≡ gone lock i }
{
    lock.finished || !lock_words::may_go(lock.mover, i)
}

fn others_are_busy(lock: Lock, i: u64, others: u64, op: u64) -> bool
    ensures { result ≡ others_are_busy lock i others op }
{
    op == INTO_INNER && !lock_words::begun(lock.mover, i) && 0 < others
}

fn forbidden(lock: Lock, rec: Rec, op: u64, v: u64) -> bool
    ensures { result ≡ forbidden lock rec op v }
{
    rec.place == Place::Writing && op == RELEASE_WRITE && !pred::permits(lock.pred, v)
}

// Which operations fit which place.
#[tactic(auto, unfolding(machine::specs::Step::fits))]
fn fits(place: Place, op: u64) -> bool
    ensures { result ≡ fits place op }
{
    match place {
        Place::Idle => matches!(op, ACQUIRE_READ | ACQUIRE_WRITE | INTO_INNER),
        Place::ReadTry | Place::ReadCheck | Place::ReadBack => op == ACQUIRE_READ,
        Place::Reading => matches!(op, BORROWS | RELEASE_READ | DROP_HANDLE),
        Place::WriteWait | Place::WriteTake => matches!(op, ACQUIRE_WRITE | INTO_INNER),
        Place::Writing => matches!(op, RELEASE_WRITE | DROP_HANDLE),
        Place::WritePut => op == RELEASE_WRITE,
    }
}
