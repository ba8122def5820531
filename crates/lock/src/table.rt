// The table of places and accesses: what an accepted entry does, and each outcome by the one access that it makes. Of a load and a
// borrow only the answer is used; every other access's count, flag or cell goes into the lock.
ghost use Rattle.std.specs.Prelude.{ℕ, ◌+◌, ◌<◌, ◌^◌, ◌≡◌, None};
ghost use Rattle.machine.specs.Words.{next};
ghost use Rattle.machine.specs.Step.{does, load_rc, try_rc, load_exc, back_done, lent, released, try_exc, wait_rc, taken, taken_last, put_done, stored, read_dropped, write_dropped, act};
ghost use Rattle.lock.specs.Room.{Room};

use atomic::Count;
use lock_words::names::{
    ACQUIRE_READ, ACQUIRE_WRITE, BORROWS, BORROWS_CELL, DROPS_HANDLE, EXCHANGES_EXC, EXCHANGES_RC,
    FAILS_EXC, FAILS_RC, GIVES_BACK, LOADS_EXC, LOADS_RC, NO, NOTHING, PUTS_CELL, RELEASE_READ,
    RELEASE_WRITE, RELEASES_RC, STORES_EXC, TAKES_CELL, WAITS_RC, YES,
};
use machine::{Did, Lock, Place, Rec};

// Thread i has the record rec, the operation op and its value v; the operation fits the place.
#[tactic(auto, unfolding(machine::specs::Step::act))]
pub(crate) fn act(i: u64, lock: Lock, rec: Rec, op: u64, v: u64) -> Did
    requires { Room lock rec }
    ensures { result ≡ act i lock rec rec.place op v }
{
    match rec.place {
        Place::Idle => at_idle(i, lock, rec, op),
        Place::ReadTry => try_rc(lock, rec),
        Place::ReadCheck => load_exc(lock, rec),
        Place::ReadBack => give_back(lock, rec),
        Place::Reading => at_reading(lock, rec, op),
        Place::WriteWait => wait_rc(lock, rec),
        Place::WriteTake => at_take(lock, rec, op),
        Place::Writing => at_writing(lock, rec, op, v),
        Place::WritePut => store(lock, rec),
    }
}

// ---- the places with more than one operation; the last one is not asked for
#[tactic(auto, unfolding(machine::specs::Step::act))]
fn at_idle(i: u64, lock: Lock, rec: Rec, op: u64) -> Did
    ensures { (v : ℕ) → result ≡ act i lock rec Place.Idle op v }
{
    match op {
        ACQUIRE_READ => load_rc(lock, rec),
        ACQUIRE_WRITE => try_exc(lock, rec),
        _ => try_exc(
            Lock {
                mover: Some(i),
                ..lock
            },
            rec,
        ),
    }
}

#[tactic(auto, unfolding(machine::specs::Step::act))]
fn at_reading(lock: Lock, rec: Rec, op: u64) -> Did
    requires room { Room lock rec }
    requires place_value { rec.place ≡ Place.Reading }
    ensures { (i v : ℕ) → result ≡ act i lock rec Place.Reading op v }
{
    match op {
        BORROWS => lend(lock, rec),
        RELEASE_READ => release(lock, rec),
        _ => drop_read(lock, rec),
    }
}

#[tactic(auto, unfolding(machine::specs::Step::act))]
fn at_take(lock: Lock, rec: Rec, op: u64) -> Did
    requires { rec.at + 1 < 2 ^ 64 }
    ensures { (i v : ℕ) → result ≡ act i lock rec Place.WriteTake op v }
{
    if op == ACQUIRE_WRITE {
        take(lock, rec)
    } else {
        take_last(lock, rec)
    }
}

#[tactic(auto, unfolding(machine::specs::Step::act))]
fn at_writing(lock: Lock, rec: Rec, op: u64, v: u64) -> Did
    requires room { Room lock rec }
    requires place_value { rec.place ≡ Place.Writing }
    ensures { (i : ℕ) → result ≡ act i lock rec Place.Writing op v }
{
    if op == RELEASE_WRITE {
        put(lock, rec, v)
    } else {
        drop_write(lock, rec)
    }
}

// ---- readers
fn load_rc(lock: Lock, rec: Rec) -> Did
    ensures { result ≡ load_rc lock rec }
{
    let old = lock_access::load_count(lock.rc).old;
    if old.0 < lock.top.0 {
        does(
            lock,
            lock_words::rec_at(rec.at, Place::ReadTry, old, 0),
            LOADS_RC,
            old.0,
        )
    } else {
        does(lock, lock_words::goes(rec, Place::Idle), LOADS_RC, old.0)
    }
}

fn try_rc(lock: Lock, rec: Rec) -> Did
    requires { rec.seen.0 + 1 < 2 ^ 64 }
    ensures { result ≡ try_rc lock rec }
{
    let seen = rec.seen;
    let x = lock_access::exchange_count(lock.rc, seen, Count(seen.0 + 1));
    let after = Lock { rc: x.left, ..lock };
    if x.done {
        does(
            after,
            lock_words::goes(rec, Place::ReadCheck),
            EXCHANGES_RC,
            x.old.0,
        )
    } else {
        does(after, lock_words::goes(rec, Place::Idle), FAILS_RC, x.old.0)
    }
}

fn load_exc(lock: Lock, rec: Rec) -> Did
    requires { rec.at + 1 < 2 ^ 64 }
    ensures { result ≡ load_exc lock rec }
{
    let x = lock_access::load_flag(lock.exc);
    if x.old {
        does(lock, lock_words::goes(rec, Place::ReadBack), LOADS_EXC, YES)
    } else {
        does(lock, next(rec, Place::Reading), LOADS_EXC, NO)
    }
}

fn give_back(lock: Lock, rec: Rec) -> Did
    ensures { result ≡ back_done lock rec }
{
    let x = lock_access::lower_count(lock.rc);
    does(
        Lock { rc: x.left, ..lock },
        lock_words::goes(rec, Place::Idle),
        GIVES_BACK,
        x.old.0,
    )
}

fn lend(lock: Lock, rec: Rec) -> Did
    requires { rec.at + 1 < 2 ^ 64 }
    ensures { result ≡ lent lock rec }
{
    let x = lock_access::borrow_cell(lock.cell);
    does(lock, next(rec, Place::Reading), BORROWS_CELL, x.got)
}

fn release(lock: Lock, rec: Rec) -> Did
    requires { rec.at + 1 < 2 ^ 64 }
    ensures { result ≡ released lock rec }
{
    let x = lock_access::lower_count(lock.rc);
    does(
        Lock { rc: x.left, ..lock },
        next(rec, Place::Idle),
        RELEASES_RC,
        x.old.0,
    )
}

fn drop_read(lock: Lock, rec: Rec) -> Did
    requires at_bound { rec.at + 1 < 2 ^ 64 }
    requires reads_bound { lock.reads.0 + 1 < 2 ^ 64 }
    ensures { result ≡ read_dropped lock rec }
{
    does(
        Lock {
            reads: Count(lock.reads.0 + 1),
            ..lock
        },
        next(rec, Place::Idle),
        DROPS_HANDLE,
        NOTHING,
    )
}

// ---- writers
fn try_exc(lock: Lock, rec: Rec) -> Did
    ensures { result ≡ try_exc lock rec }
{
    let x = lock_access::raise_flag(lock.exc);
    let after = Lock {
        exc: x.left,
        ..lock
    };
    if x.done {
        does(
            after,
            lock_words::goes(rec, Place::WriteWait),
            EXCHANGES_EXC,
            NO,
        )
    } else {
        does(after, lock_words::goes(rec, Place::Idle), FAILS_EXC, YES)
    }
}

fn wait_rc(lock: Lock, rec: Rec) -> Did
    ensures { result ≡ wait_rc lock rec }
{
    let old = lock_access::load_count(lock.rc).old;
    let place = if old.0 == 0 {
        Place::WriteTake
    } else {
        Place::WriteWait
    };
    does(lock, lock_words::goes(rec, place), WAITS_RC, old.0)
}

fn take(lock: Lock, rec: Rec) -> Did
    requires { rec.at + 1 < 2 ^ 64 }
    ensures { result ≡ taken lock rec }
{
    let x = lock_access::take_cell(lock.cell);
    does(
        Lock {
            cell: x.left,
            ..lock
        },
        lock_words::rec_at(rec.at + 1, Place::Writing, Count(0), x.got),
        TAKES_CELL,
        x.got,
    )
}

fn take_last(lock: Lock, rec: Rec) -> Did
    requires { rec.at + 1 < 2 ^ 64 }
    ensures { result ≡ taken_last lock rec }
{
    let x = lock_access::take_cell(lock.cell);
    does(
        Lock {
            cell: x.left,
            mover: None,
            finished: true,
            ..lock
        },
        next(rec, Place::Idle),
        TAKES_CELL,
        x.got,
    )
}

fn put(lock: Lock, rec: Rec, v: u64) -> Did
    requires { lock.cell ≡ None }
    ensures { result ≡ put_done lock rec v }
{
    let x = lock_access::put_cell(lock.cell, v);
    does(
        Lock {
            cell: x.left,
            ..lock
        },
        lock_words::goes(rec, Place::WritePut),
        PUTS_CELL,
        v,
    )
}

fn store(lock: Lock, rec: Rec) -> Did
    requires { rec.at + 1 < 2 ^ 64 }
    ensures { result ≡ stored lock rec }
{
    let x = lock_access::clear_flag(lock.exc);
    does(
        Lock {
            exc: x.left,
            ..lock
        },
        next(rec, Place::Idle),
        STORES_EXC,
        NOTHING,
    )
}

fn drop_write(lock: Lock, rec: Rec) -> Did
    requires at_bound { rec.at + 1 < 2 ^ 64 }
    requires writes_bound { lock.writes.0 + 1 < 2 ^ 64 }
    ensures { result ≡ write_dropped lock rec }
{
    does(
        Lock {
            writes: Count(lock.writes.0 + 1),
            ..lock
        },
        next(rec, Place::Idle),
        DROPS_HANDLE,
        NOTHING,
    )
}

// The script place moves on by one.
fn next(rec: Rec, place: Place) -> Rec
    requires { rec.at + 1 < 2 ^ 64 }
    ensures { result ≡ next rec place }
{
    lock_words::plain(rec.at + 1, place)
}

fn does(lock: Lock, rec: Rec, access: u64, got: u64) -> Did
    ensures { result ≡ does lock rec access got }
{
    Did {
        lock,
        rec,
        access,
        got,
    }
}
