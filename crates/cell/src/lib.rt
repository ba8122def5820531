// The value cell, the predicates and the source's InvCell: modules two and three of the rules.
#![tactic(auto)]

ghost use Rattle.std.specs.Prelude.{◌≡◌};
ghost use Rattle.cell.specs.Access.{number_of};

pub mod inv;
pub mod pred;
pub mod value;

// Why an operation was not done.
#[derive(Clone, Copy)]
pub enum Refusal {
    // The identities of cell and permission differ.
    Foreign,
    // A put into a full cell.
    IsFull,
    // A take or a borrow from an empty cell.
    IsEmpty,
    // The predicate of an InvCell does not permit the value.
    NotPermitted,
}

#[derive(Clone, Copy)]
pub enum Answer {
    // The value taken or borrowed; of a replace: the one before.
    Value(u64),
    // A put or a set returns nothing.
    Stored,
    Refused(Refusal),
}

// The number that the table of refusals has for it.
impl From<Refusal> for u64 {
    ghost from_gives = { λ why number. number ≡ number_of why };

    fn from(why: Refusal) -> u64 {
        match why {
            Refusal::Foreign => 21,
            Refusal::IsFull => 23,
            Refusal::IsEmpty => 24,
            Refusal::NotPermitted => 25,
        }
    }
}
