// A number of a width: what an atomic of numbers can do more.
ghost use Rattle.std.specs.Prelude.{◌≡◌, ℕ, ◌+◌, ◌-◌, ◌%◌, ◌^◌, cond, leb, ltb, Option, Some, None, refl};
ghost use Rattle.atomic.specs.Bits.{bitwise, not_both};
ghost use Rattle.atomic_access.specs.Count.{count};

use super::value::Value;
use atomic::Count;

pub trait Number: Value {
    // How many bits it has.
    ghost width: { ℕ };

    ghost nat: { Self → ℕ };

    ghost number: { ℕ → Self };

    fn checked_add(self, n: Self) -> Option<Self>
        ensures { result ≡ cond (ltb (nat self + nat n) (2 ^ width)) (Some (number (nat self + nat n))) None };

    fn checked_sub(self, n: Self) -> Option<Self>
        ensures { result ≡ cond (leb (nat n) (nat self)) (Some (number (nat self - nat n))) None };

    fn wrapping_add(self, n: Self) -> Self
        ensures { result ≡ number ((nat self + nat n) % 2 ^ width) };

    fn wrapping_sub(self, n: Self) -> Self
        ensures { result ≡ number ((nat self + (2 ^ width - nat n)) % 2 ^ width) };

    fn nand(self, n: Self) -> Self
        ensures { result ≡ number (bitwise width not_both (nat self) (nat n)) };

    fn max(self, n: Self) -> Self
        ensures { result ≡ number (cond (ltb (nat n) (nat self)) (nat self) (nat n)) };

    // A number is that of what it counts.
    ghost counted: { (n : Self) → number (nat n) ≡ n };
}

// What the 64-bit atomic counts.
impl Number for Count {
    ghost width = { 64 };

    ghost nat = { λ n. n.0 };

    ghost number = { count };

    ghost counted = { λ n. refl };

    fn checked_add(self, n: Count) -> Option<Count> {
        self.0.checked_add(n.0).map(Count)
    }

    fn checked_sub(self, n: Count) -> Option<Count> {
        self.0.checked_sub(n.0).map(Count)
    }

    fn wrapping_add(self, n: Count) -> Count {
        Count(self.0.wrapping_add(n.0))
    }

    fn wrapping_sub(self, n: Count) -> Count {
        Count(self.0.wrapping_sub(n.0))
    }

    fn nand(self, n: Count) -> Count {
        Count(!(self.0 & n.0))
    }

    fn max(self, n: Count) -> Count {
        if n.0 < self.0 { self } else { n }
    }
}
