// The 8-bit atomic: the accesses of `atomic_access` at a count of 8 bits, of which `on_u8` says what they leave and answer.
#![tactic(auto)]

ghost use Rattle.std.specs.Prelude.{nat_eq, refl};
ghost use Rattle.atomic.specs.Bits.{bitwise};
ghost use Rattle.atomic_u8.specs.Count.{count};

use atomic_access::{Number, Value};
pub use atomic_access::{
    compare_exchange, compare_exchange_weak, fetch_add, fetch_add_wrapping, fetch_and, fetch_max,
    fetch_nand, fetch_or, fetch_sub, fetch_sub_wrapping, fetch_xor, load, store, swap,
};

// What the atomic holds. It is a type of its own, so that no identity is passed for it.
#[derive(Clone, Copy)]
pub struct Count(pub u8);

pub type Perm = atomic_access::Perm<Count>;

pub type Answer = atomic_access::Answer<Count>;

pub type Did = atomic_access::Did<Count>;

impl Value for Count {
    type Plain = u8;

    ghost plain = { λ n. n.0 };

    ghost of = { count };

    ghost same = { nat_eq };

    ghost bits = { bitwise 8 };

    ghost back = { λ v. refl };

    fn is(self, other: Count) -> bool {
        self.0 == other.0
    }

    fn and(self, other: Count) -> Count {
        Count(self.0 & other.0)
    }

    fn or(self, other: Count) -> Count {
        Count(self.0 | other.0)
    }

    fn xor(self, other: Count) -> Count {
        Count(self.0 ^ other.0)
    }
}

impl Number for Count {
    ghost width = { 8 };

    ghost nat = { λ n. n.0 };

    ghost number = { count };

    ghost counted = { λ n. refl };

    fn checked_add(self, n: Count) -> Option<Count> {
        self.0.checked_add(n.0).map(Count)
    }

    fn checked_sub(self, n: Count) -> Option<Count> {
        self.0.checked_sub(n.0).map(Count)
    }

    fn wrapping_add(self, n: Count) -> Count {
        Count(self.0.wrapping_add(n.0))
    }

    fn wrapping_sub(self, n: Count) -> Count {
        Count(self.0.wrapping_sub(n.0))
    }

    fn nand(self, n: Count) -> Count {
        Count(!(self.0 & n.0))
    }

    fn max(self, n: Count) -> Count {
        if n.0 < self.0 { self } else { n }
    }
}
