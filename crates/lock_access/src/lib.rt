// The accesses of the lock: each is one call of an atomic or of the value cell, said in numbers. The lock keeps the values alone; a
// permission is made of one here, with the identity that the call names, so that nothing above sees an identity.
#![tactic(auto)]

ghost use Rattle.std.specs.Prelude.{◌-◌, ◌≡◌, true, false, not, cond, eqb, leb};
ghost use Rattle.cell.specs.Value.{kept, put};
ghost use Rattle.lock_access.specs.Access.{on_count, on_flag, on_cell, told, cell_told};

use atomic::{CellId, Count};
use atomic_access::{Answer, Did, Perm};
use cell::value;

// The identities of the lock's two atomics and of its cell: three that differ.
const COUNT: CellId = CellId(1);

const FLAG: CellId = CellId(2);

const CELL: CellId = CellId(3);

// Whether an access of the count or of the flag was done, the value that it found, and the one that it left. It is no Option: what was
// not done found and left something too.
#[derive(Clone, Copy)]
pub struct On<V> {
    pub done: bool,
    pub old: V,
    pub left: V,
}

// What the cell gave, 0 if nothing, as `kept` has it in the clauses of the functions below, and what is left in it.
#[derive(Clone, Copy)]
pub struct OnCell {
    pub got: u64,
    pub left: Option<u64>,
}

pub fn load_count(rc: Count) -> On<Count>
    ensures { result ≡ on_count true rc.0 rc.0 }
{
    told(atomic_u64::load(COUNT, perm(COUNT, rc)), Count(0))
}

pub fn exchange_count(rc: Count, from: Count, to: Count) -> On<Count>
    ensures { result ≡ on_count (eqb rc.0 from.0) rc.0 (cond (eqb rc.0 from.0) to.0 rc.0) }
{
    told(
        atomic_u64::compare_exchange(COUNT, perm(COUNT, rc), from, to),
        Count(0),
    )
}

// At 0 the atomic refuses and leaves 0, which is 0 - 1 among natural numbers.
pub fn lower_count(rc: Count) -> On<Count>
    ensures { result ≡ on_count (leb 1 rc.0) rc.0 (rc.0 - 1) }
{
    told(
        atomic_u64::fetch_sub(COUNT, perm(COUNT, rc), Count(1)),
        Count(0),
    )
}

pub fn load_flag(exc: bool) -> On<bool>
    ensures { result ≡ on_flag true exc exc }
{
    told(atomic_bool::load(FLAG, perm(FLAG, exc)), false)
}

// Done where the flag was down. It is up afterwards in both cases.
pub fn raise_flag(exc: bool) -> On<bool>
    ensures { result ≡ on_flag (not exc) exc true }
{
    told(
        atomic_bool::compare_exchange(FLAG, perm(FLAG, exc), false, true),
        false,
    )
}

pub fn clear_flag(exc: bool) -> On<bool>
    ensures { result ≡ on_flag true false false }
{
    told(atomic_bool::store(FLAG, perm(FLAG, exc), false), false)
}

pub fn borrow_cell(cell: Option<u64>) -> OnCell
    ensures { result ≡ on_cell (kept cell) cell }
{
    cell_told(value::borrow(CELL, cell_perm(CELL, cell)))
}

pub fn take_cell(cell: Option<u64>) -> OnCell
    ensures { result ≡ on_cell (kept cell) None }
{
    cell_told(value::take(CELL, cell_perm(CELL, cell)))
}

// A full cell stays as it is.
pub fn put_cell(cell: Option<u64>, v: u64) -> OnCell
    ensures { result ≡ on_cell 0 (put v cell).leaves }
{
    cell_told(value::put(CELL, cell_perm(CELL, cell), v))
}

// The permission of a value, with the identity that it is for.
fn perm<V>(id: CellId, value: V) -> Perm<V>
    ensures { result ≡ record { id = id; value = value } }
{
    Perm { id, value }
}

fn cell_perm(id: CellId, content: Option<u64>) -> value::Perm
    ensures { result ≡ record { id = id; content = content } }
{
    value::Perm { id, content }
}

// What an access did. A store does not tell what it found, nor does what is refused: `untold` stands for it.
fn told<V: Copy>(d: Did<V>, untold: V) -> On<V>
    ensures { result ≡ told untold d }
{
    let left = d.perm.value;
    match d.answer {
        Answer::Old(old) => On {
            done: true,
            old,
            left,
        },
        Answer::Failed(old) => On {
            done: false,
            old,
            left,
        },
        Answer::Stored => On {
            done: true,
            old: untold,
            left,
        },
        Answer::Refused(_) => On {
            done: false,
            old: untold,
            left,
        },
    }
}

fn cell_told(d: value::Did) -> OnCell
    ensures { result ≡ cell_told d }
{
    let left = d.perm.content;
    match d.answer {
        cell::Answer::Value(got) => OnCell { got, left },
        cell::Answer::Stored | cell::Answer::Refused(_) => OnCell { got: 0, left },
    }
}
