// The operations of an atomic, whatever it holds, with its permission lent: each operation leaves in the permission, and answers, what
// `atomic_access` says of it.
ghost use Rattle.std.specs.Prelude.{◌≡◌};
ghost use Rattle.atomic.specs.Bits.{both, either, differ};
ghost use Rattle.atomic.specs.Access.{load, store, swap, compare_exchange, compare_exchange_weak, fetch_add, fetch_sub, fetch_add_wrapping, fetch_sub_wrapping, fetch_nand, fetch_max};
ghost use Rattle.atomic_access.specs.Held.{on_held, fetch_bits};

use atomic::CellId;
use atomic_access::{Answer, Did, Number, Perm, Value};

pub fn load<V: Value>(c: CellId, p: &mut Perm<V>) -> Answer<V>
    ensures { (result ≡ (on_held V.plain V.of c p.old load).answer) × (p.new ≡ (on_held V.plain V.of c p.old load).perm) }
{
    lend(p, |perm| atomic_access::load(c, perm))
}

pub fn store<V: Value>(c: CellId, p: &mut Perm<V>, v: V) -> Answer<V>
    ensures { (result ≡ (on_held V.plain V.of c p.old (store (V.plain v))).answer) × (p.new ≡ (on_held V.plain V.of c p.old (store (V.plain v))).perm) }
{
    lend(p, |perm| atomic_access::store(c, perm, v))
}

pub fn swap<V: Value>(c: CellId, p: &mut Perm<V>, v: V) -> Answer<V>
    ensures { (result ≡ (on_held V.plain V.of c p.old (swap (V.plain v))).answer) × (p.new ≡ (on_held V.plain V.of c p.old (swap (V.plain v))).perm) }
{
    lend(p, |perm| atomic_access::swap(c, perm, v))
}

pub fn compare_exchange<V: Value>(c: CellId, p: &mut Perm<V>, from: V, to: V) -> Answer<V>
    ensures { (result ≡ (on_held V.plain V.of c p.old (compare_exchange V.same (V.plain from) (V.plain to))).answer) × (p.new ≡ (on_held V.plain V.of c p.old (compare_exchange V.same (V.plain from) (V.plain to))).perm) }
{
    lend(p, |perm| atomic_access::compare_exchange(c, perm, from, to))
}

pub fn compare_exchange_weak<V: Value>(c: CellId, p: &mut Perm<V>, from: V, to: V) -> Answer<V>
    ensures { (result ≡ (on_held V.plain V.of c p.old (compare_exchange_weak V.same (V.plain from) (V.plain to))).answer) × (p.new ≡ (on_held V.plain V.of c p.old (compare_exchange_weak V.same (V.plain from) (V.plain to))).perm) }
{
    lend(
        p,
        |perm| atomic_access::compare_exchange_weak(c, perm, from, to),
    )
}

pub fn fetch_and<V: Value>(c: CellId, p: &mut Perm<V>, n: V) -> Answer<V>
    ensures { (result ≡ (on_held V.plain V.of c p.old (fetch_bits V.bits both (V.plain n))).answer) × (p.new ≡ (on_held V.plain V.of c p.old (fetch_bits V.bits both (V.plain n))).perm) }
{
    lend(p, |perm| atomic_access::fetch_and(c, perm, n))
}

pub fn fetch_or<V: Value>(c: CellId, p: &mut Perm<V>, n: V) -> Answer<V>
    ensures { (result ≡ (on_held V.plain V.of c p.old (fetch_bits V.bits either (V.plain n))).answer) × (p.new ≡ (on_held V.plain V.of c p.old (fetch_bits V.bits either (V.plain n))).perm) }
{
    lend(p, |perm| atomic_access::fetch_or(c, perm, n))
}

pub fn fetch_xor<V: Value>(c: CellId, p: &mut Perm<V>, n: V) -> Answer<V>
    ensures { (result ≡ (on_held V.plain V.of c p.old (fetch_bits V.bits differ (V.plain n))).answer) × (p.new ≡ (on_held V.plain V.of c p.old (fetch_bits V.bits differ (V.plain n))).perm) }
{
    lend(p, |perm| atomic_access::fetch_xor(c, perm, n))
}

pub fn fetch_add<V: Number>(c: CellId, p: &mut Perm<V>, n: V) -> Answer<V>
    ensures { (result ≡ (on_held V.nat V.number c p.old (fetch_add V.width (V.nat n))).answer) × (p.new ≡ (on_held V.nat V.number c p.old (fetch_add V.width (V.nat n))).perm) }
{
    lend(p, |perm| atomic_access::fetch_add(c, perm, n))
}

pub fn fetch_sub<V: Number>(c: CellId, p: &mut Perm<V>, n: V) -> Answer<V>
    ensures { (result ≡ (on_held V.nat V.number c p.old (fetch_sub (V.nat n))).answer) × (p.new ≡ (on_held V.nat V.number c p.old (fetch_sub (V.nat n))).perm) }
{
    lend(p, |perm| atomic_access::fetch_sub(c, perm, n))
}

pub fn fetch_add_wrapping<V: Number>(c: CellId, p: &mut Perm<V>, n: V) -> Answer<V>
    ensures { (result ≡ (on_held V.nat V.number c p.old (fetch_add_wrapping V.width (V.nat n))).answer) × (p.new ≡ (on_held V.nat V.number c p.old (fetch_add_wrapping V.width (V.nat n))).perm) }
{
    lend(p, |perm| atomic_access::fetch_add_wrapping(c, perm, n))
}

pub fn fetch_sub_wrapping<V: Number>(c: CellId, p: &mut Perm<V>, n: V) -> Answer<V>
    ensures { (result ≡ (on_held V.nat V.number c p.old (fetch_sub_wrapping V.width (V.nat n))).answer) × (p.new ≡ (on_held V.nat V.number c p.old (fetch_sub_wrapping V.width (V.nat n))).perm) }
{
    lend(p, |perm| atomic_access::fetch_sub_wrapping(c, perm, n))
}

pub fn fetch_nand<V: Number>(c: CellId, p: &mut Perm<V>, n: V) -> Answer<V>
    ensures { (result ≡ (on_held V.nat V.number c p.old (fetch_nand V.width (V.nat n))).answer) × (p.new ≡ (on_held V.nat V.number c p.old (fetch_nand V.width (V.nat n))).perm) }
{
    lend(p, |perm| atomic_access::fetch_nand(c, perm, n))
}

pub fn fetch_max<V: Number>(c: CellId, p: &mut Perm<V>, n: V) -> Answer<V>
    ensures { (result ≡ (on_held V.nat V.number c p.old (fetch_max (V.nat n))).answer) × (p.new ≡ (on_held V.nat V.number c p.old (fetch_max (V.nat n))).perm) }
{
    lend(p, |perm| atomic_access::fetch_max(c, perm, n))
}

// The permission that is lent becomes the one that the access leaves.
fn lend<V: Copy, F: FnOnce(Perm<V>) -> Did<V>>(p: &mut Perm<V>, access: F) -> Answer<V>
    requires { F.pre access p.old }
    ensures { F.post access p.old (record { perm = p.new; answer = result }) }
{
    let did = access(*p);
    *p = did.perm;
    did.answer
}
