// The value cell with its permission lent: each operation leaves in the permission, and answers, what `cell` says of it.
ghost use Rattle.std.specs.Prelude.{◌≡◌};
ghost use Rattle.cell.specs.Value.{put, take, borrow, on_cell};

use atomic::CellId;
use cell::Answer;
use cell::value::Perm;

// Three functions over the cell's own types: a `lend` for those would be that of `of_atomic` once more, and save no line.

pub fn put(c: CellId, p: &mut Perm, v: u64) -> Answer
    ensures { (result ≡ (on_cell c p.old (put v)).answer) × (p.new ≡ (on_cell c p.old (put v)).perm) }
{
    let did = cell::value::put(c, *p, v);
    *p = did.perm;
    did.answer
}

pub fn take(c: CellId, p: &mut Perm) -> Answer
    ensures { (result ≡ (on_cell c p.old take).answer) × (p.new ≡ (on_cell c p.old take).perm) }
{
    let did = cell::value::take(c, *p);
    *p = did.perm;
    did.answer
}

pub fn borrow(c: CellId, p: &mut Perm) -> Answer
    ensures { (result ≡ (on_cell c p.old borrow).answer) × (p.new ≡ (on_cell c p.old borrow).perm) }
{
    let did = cell::value::borrow(c, *p);
    *p = did.perm;
    did.answer
}
