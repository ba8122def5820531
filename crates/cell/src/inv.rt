// The source's InvCell: a cell that holds only what its predicate permits. The source keeps a cell, its permission and an invariant
// over both; here the value is in the struct, so that predicate and value are all there is.
ghost use Rattle.std.specs.Prelude.{◌≡◌};
ghost use Rattle.cell.specs.Inv.{new, set, replace, get, into_inner, without_value, on_inv};

use super::pred::Pred;
use super::{Answer, Refusal, pred};

// The fields are private: outside this file an InvCell comes from `new`, `set` and `replace` alone.
#[derive(Clone, Copy)]
pub struct InvCell {
    pred: Pred,
    value: u64,
}

// The cell as it is left, and the answer.
#[derive(Clone, Copy)]
pub struct Did {
    pub cell: InvCell,
    pub answer: Answer,
}

pub fn new(v: u64, pred: Pred) -> Result<InvCell, Refusal>
    ensures { result ≡ new v pred }
{
    if pred::permits(pred, v) {
        Ok(InvCell { pred, value: v })
    } else {
        Err(Refusal::NotPermitted)
    }
}

pub fn set(c: InvCell, v: u64) -> Did
    ensures { result ≡ on_inv c (set v) }
{
    let did = replace(c, v);
    Did {
        answer: without_value(did.answer),
        ..did
    }
}

pub fn replace(c: InvCell, v: u64) -> Did
    ensures { result ≡ on_inv c (replace v) }
{
    if pred::permits(c.pred, v) {
        Did {
            cell: InvCell { value: v, ..c },
            answer: Answer::Value(c.value),
        }
    } else {
        Did {
            cell: c,
            answer: Answer::Refused(Refusal::NotPermitted),
        }
    }
}

pub fn get(c: InvCell) -> u64
    ensures { result ≡ get c }
{
    c.value
}

pub fn into_inner(cell: InvCell) -> u64
    ensures { result ≡ into_inner cell }
{
    cell.value
}

fn without_value(a: Answer) -> Answer
    ensures { result ≡ without_value a }
{
    match a {
        Answer::Value(_) => Answer::Stored,
        other => other,
    }
}
