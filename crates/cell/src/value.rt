// The value cell: a cell for one number, with a permission that holds what is in it. The identity is compared first, in one
// place, `access`; each operation then makes its one access.
ghost use Rattle.std.specs.Prelude.{◌≡◌};
ghost use Rattle.atomic.specs.Permission.{keeps};
ghost use Rattle.cell.specs.Value.{put, take, borrow, kept, did, on_cell, asks};

use super::{Answer, Refusal};
use atomic::CellId;

// The permission holds the content: the number in the cell, if there is one.
#[derive(Clone, Copy)]
pub struct Perm {
    pub id: CellId,
    pub content: Option<u64>,
}

// An operation with its operand.
#[derive(Clone, Copy)]
enum Op {
    Put(u64),
    Take,
    Borrow,
}

// The permission as it is left, and the answer.
#[derive(Clone, Copy)]
pub struct Did {
    pub perm: Perm,
    pub answer: Answer,
}

pub fn put(c: CellId, p: Perm, v: u64) -> Did
    ensures { result ≡ on_cell c p (put v) }
{
    access(c, p, Op::Put(v))
}

pub fn take(c: CellId, p: Perm) -> Did
    ensures { result ≡ on_cell c p take }
{
    access(c, p, Op::Take)
}

pub fn borrow(c: CellId, p: Perm) -> Did
    ensures { result ≡ on_cell c p borrow }
{
    access(c, p, Op::Borrow)
}

// The number that a cell keeps, 0 in an empty one.
pub fn kept(c: Option<u64>) -> u64
    ensures { result ≡ kept c }
{
    c.unwrap_or(0)
}

fn access(c: CellId, p: Perm, op: Op) -> Did
    ensures { result ≡ on_cell c p (asks op) }
{
    if c.0 == p.id.0 {
        act(p, op)
    } else {
        refuse(p, Refusal::Foreign)
    }
}

fn act(p: Perm, op: Op) -> Did
    ensures { result ≡ did p (asks op p.content) }
{
    match (p.content, op) {
        (None, Op::Put(v)) => leave(p, Some(v), Answer::Stored),
        (None, Op::Take | Op::Borrow) => refuse(p, Refusal::IsEmpty),
        (Some(_), Op::Put(_)) => refuse(p, Refusal::IsFull),
        (Some(was), Op::Take) => leave(p, None, Answer::Value(was)),
        (Some(was), Op::Borrow) => leave(p, Some(was), Answer::Value(was)),
    }
}

fn leave(p: Perm, content: Option<u64>, answer: Answer) -> Did
    ensures { result ≡ did p (record { leaves = content; answers = answer }) }
{
    Did {
        perm: Perm { content, ..p },
        answer,
    }
}

// The content stays.
fn refuse(p: Perm, why: Refusal) -> Did
    ensures { result ≡ did p (keeps p.content (Answer.Refused why)) }
{
    Did {
        perm: p,
        answer: Answer::Refused(why),
    }
}
