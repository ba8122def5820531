// The accesses of an atomic, whatever it holds: `Value` says what that can be, and `Number` what more a number of a width can do. The
// identity is compared first, in one place, `access`; each operation then makes its one access.
#![tactic(auto)]

ghost use Rattle.std.specs.Prelude.{◌≡◌, ◌≢◌};
ghost use Rattle.atomic.specs.Bits.{both, either, differ, not_both};
ghost use Rattle.atomic.specs.Access.{load, store, swap, compare_exchange, compare_exchange_weak, fetch_add, fetch_sub, fetch_add_wrapping, fetch_sub_wrapping, fetch_nand, fetch_max};
ghost use Rattle.atomic.specs.declared.Refusal.TheVariants.{Foreign};
ghost use Rattle.atomic_access.specs.Held.{on_held, fetch_bits, within};
ghost use Rattle.atomic_access.specs.declared.Answer.TheVariants.{Refused};

mod number;
mod value;

use atomic::{CellId, Refusal};
pub use number::Number;
pub use value::Value;

// The permission holds the value.
#[derive(Clone, Copy)]
pub struct Perm<V> {
    pub id: CellId,
    pub value: V,
}

// One type for all accesses, as `Reply` of `atomic`, of which the laws of Published.antt speak: an exchange that was not done has the old
// value as one that was done has, and a store has none, so it is neither an Option nor a Result.
#[derive(Clone, Copy)]
pub enum Answer<V> {
    // The old value; of an exchange: it was done.
    Old(V),
    // The old value of an exchange that was not done.
    Failed(V),
    // A store returns nothing.
    Stored,
    Refused(Refusal),
}

// The permission as it is left, and the answer.
#[derive(Clone, Copy)]
pub struct Did<V> {
    pub perm: Perm<V>,
    pub answer: Answer<V>,
}

pub fn load<V: Value>(c: CellId, p: Perm<V>) -> Did<V>
    ensures { result ≡ on_held V.plain V.of c p load }
{
    access(c, p, |was| (was, Answer::Old(was)))
}

pub fn store<V: Value>(c: CellId, p: Perm<V>, v: V) -> Did<V>
    ensures { result ≡ on_held V.plain V.of c p (store (V.plain v)) }
{
    access(c, p, |_was| (v, Answer::Stored))
}

pub fn swap<V: Value>(c: CellId, p: Perm<V>, v: V) -> Did<V>
    ensures { result ≡ on_held V.plain V.of c p (swap (V.plain v)) }
{
    access(c, p, |was| (v, Answer::Old(was)))
}

pub fn compare_exchange<V: Value>(c: CellId, p: Perm<V>, from: V, to: V) -> Did<V>
    ensures { result ≡ on_held V.plain V.of c p (compare_exchange V.same (V.plain from) (V.plain to)) }
{
    access(c, p, |was| {
        if was.is(from) {
            (to, Answer::Old(was))
        } else {
            (was, Answer::Failed(was))
        }
    })
}

pub fn compare_exchange_weak<V: Value>(c: CellId, p: Perm<V>, from: V, to: V) -> Did<V>
    ensures { result ≡ on_held V.plain V.of c p (compare_exchange_weak V.same (V.plain from) (V.plain to)) }
{
    compare_exchange(c, p, from, to)
}

pub fn fetch_and<V: Value>(c: CellId, p: Perm<V>, n: V) -> Did<V>
    ensures { result ≡ on_held V.plain V.of c p (fetch_bits V.bits both (V.plain n)) }
{
    access(c, p, |was| (was.and(n), Answer::Old(was)))
}

pub fn fetch_or<V: Value>(c: CellId, p: Perm<V>, n: V) -> Did<V>
    ensures { result ≡ on_held V.plain V.of c p (fetch_bits V.bits either (V.plain n)) }
{
    access(c, p, |was| (was.or(n), Answer::Old(was)))
}

pub fn fetch_xor<V: Value>(c: CellId, p: Perm<V>, n: V) -> Did<V>
    ensures { result ≡ on_held V.plain V.of c p (fetch_bits V.bits differ (V.plain n)) }
{
    access(c, p, |was| (was.xor(n), Answer::Old(was)))
}

pub fn fetch_add<V: Number>(c: CellId, p: Perm<V>, n: V) -> Did<V>
    ensures { result ≡ on_held V.nat V.number c p (fetch_add V.width (V.nat n)) }
{
    access(c, p, |was| in_width(was, was.checked_add(n)))
}

pub fn fetch_sub<V: Number>(c: CellId, p: Perm<V>, n: V) -> Did<V>
    ensures { result ≡ on_held V.nat V.number c p (fetch_sub (V.nat n)) }
{
    access(c, p, |was| in_width(was, was.checked_sub(n)))
}

pub fn fetch_add_wrapping<V: Number>(c: CellId, p: Perm<V>, n: V) -> Did<V>
    ensures { result ≡ on_held V.nat V.number c p (fetch_add_wrapping V.width (V.nat n)) }
{
    access(c, p, |was| (was.wrapping_add(n), Answer::Old(was)))
}

pub fn fetch_sub_wrapping<V: Number>(c: CellId, p: Perm<V>, n: V) -> Did<V>
    ensures { result ≡ on_held V.nat V.number c p (fetch_sub_wrapping V.width (V.nat n)) }
{
    access(c, p, |was| (was.wrapping_sub(n), Answer::Old(was)))
}

pub fn fetch_nand<V: Number>(c: CellId, p: Perm<V>, n: V) -> Did<V>
    ensures { result ≡ on_held V.nat V.number c p (fetch_nand V.width (V.nat n)) }
{
    access(c, p, |was| (was.nand(n), Answer::Old(was)))
}

pub fn fetch_max<V: Number>(c: CellId, p: Perm<V>, n: V) -> Did<V>
    ensures { result ≡ on_held V.nat V.number c p (fetch_max (V.nat n)) }
{
    access(c, p, |was| (was.max(n), Answer::Old(was)))
}

// What the access leaves and answers is `made` of the value before; where the identities differ nothing is made.
// The identities are compared by their numbers, as `compared` of `atomic` does.
fn access<V: Copy, F: FnOnce(V) -> (V, Answer<V>)>(c: CellId, p: Perm<V>, made: F) -> Did<V>
    requires { F.pre made p.value }
    ensures agree { c.0 ≡ p.id.0 → (F.post made p.value (result.perm.value, result.answer)) × (result.perm.id ≡ p.id) }
    ensures foreign { c.0 ≢ p.id.0 → result ≡ record { perm = p; answer = Refused Foreign } }
{
    if c.0 != p.id.0 {
        return Did {
            perm: p,
            answer: Answer::Refused(Refusal::Foreign),
        };
    }
    let (value, answer) = made(p.value);
    Did {
        perm: Perm { value, ..p },
        answer,
    }
}

// A sum or a difference that the width has is left; where there is none the value stays.
fn in_width<V: Copy>(was: V, now: Option<V>) -> (V, Answer<V>)
    ensures { result ≡ within was now }
{
    match now {
        Some(v) => (v, Answer::Old(was)),
        None => (was, Answer::Refused(Refusal::Outside)),
    }
}
