// What the atomics share: their identities, their numbers, their refusals, and what each access means (specs/Access.antt).
#![tactic(auto)]

ghost use Rattle.std.specs.Prelude.{◌≡◌};
ghost use Rattle.atomic.specs.Access.{number_of};

// The identity of an atomic or a cell. It is a type of its own, so that no count is passed for it.
#[derive(Clone, Copy)]
pub struct CellId(pub u64);

// What a 64-bit atomic counts. It is a type of its own, so that no identity is passed for it.
#[derive(Clone, Copy)]
pub struct Count(pub u64);

// Why an access was not made.
#[derive(Clone, Copy)]
pub enum Refusal {
    // The identities of atomic and permission differ.
    Foreign,
    // The sum or the difference would leave the width.
    Outside,
}

// The number that the table of refusals has for it.
impl From<Refusal> for u64 {
    ghost from_gives = { λ why number. number ≡ number_of why };

    fn from(why: Refusal) -> u64 {
        match why {
            Refusal::Foreign => 21,
            Refusal::Outside => 22,
        }
    }
}
