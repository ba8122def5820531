// What an atomic can hold: numbers of a width, and true and false.
ghost use Rattle.std.specs.Prelude.{◌≡◌, Bool, nat_eq, refl};
ghost use Rattle.std.specs.Bool.{beq};
ghost use Rattle.atomic.specs.Bits.{bitwise, both, either, differ};
ghost use Rattle.atomic_access.specs.Count.{count};

use atomic::Count;

pub trait Value: Copy {
    // The value without its type's name, of which the definitions of the accesses speak.
    type Plain;

    ghost plain: { Self → Self.Plain };

    ghost of: { Self.Plain → Self };

    // Whether two values are equal.
    ghost same: { Self.Plain → Self.Plain → Bool };

    // The value whose bits are those that the first argument makes of the bits of two.
    ghost bits: { (Bool → Bool → Bool) → Self.Plain → Self.Plain → Self.Plain };

    fn is(self, other: Self) -> bool
        ensures { result ≡ same (plain self) (plain other) };

    fn and(self, other: Self) -> Self
        ensures { result ≡ of (bits both (plain self) (plain other)) };

    fn or(self, other: Self) -> Self
        ensures { result ≡ of (bits either (plain self) (plain other)) };

    fn xor(self, other: Self) -> Self
        ensures { result ≡ of (bits differ (plain self) (plain other)) };

    // A value is that of its plain one.
    ghost back: { (v : Self) → of (plain v) ≡ v };
}

// What the 64-bit atomic holds.
impl Value for Count {
    type Plain = u64;

    ghost plain = { λ n. n.0 };

    ghost of = { count };

    ghost same = { nat_eq };

    ghost bits = { bitwise 64 };

    ghost back = { λ v. refl };

    fn is(self, other: Count) -> bool {
        self.0 == other.0
    }

    fn and(self, other: Count) -> Count {
        Count(self.0 & other.0)
    }

    fn or(self, other: Count) -> Count {
        Count(self.0 | other.0)
    }

    fn xor(self, other: Count) -> Count {
        Count(self.0 ^ other.0)
    }
}

// What the bool atomic holds: one bit.
impl Value for bool {
    type Plain = bool;

    ghost plain = { λ b. b };

    ghost of = { λ b. b };

    ghost same = { beq };

    ghost bits = { λ f. f };

    ghost back = { λ v. refl };

    fn is(self, other: bool) -> bool {
        self == other
    }

    fn and(self, other: bool) -> bool {
        self & other
    }

    fn or(self, other: bool) -> bool {
        self | other
    }

    fn xor(self, other: bool) -> bool {
        self ^ other
    }
}
