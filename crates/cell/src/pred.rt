// The predicates: which values a lock or an InvCell may hold. Whoever uses one asks `permits` and `is_good` and never looks at
// its kind, so that a kind can change here alone.
ghost use Rattle.std.specs.Prelude.{◌≡◌};
ghost use Rattle.cell.specs.Pred.{permits, good, of_kind};

#[derive(Clone, Copy)]
pub enum Pred {
    // Every value.
    Any,
    // Either of the two.
    Either(u64, u64),
    // The values whose rest by 2 is the parameter.
    Parity(u64),
}

#[tactic(auto, unfolding(crate::specs::Pred::permits))]
pub fn permits(p: Pred, v: u64) -> bool
    ensures { result ≡ permits p v }
{
    match p {
        Pred::Any => true,
        Pred::Either(a, b) => v == a || v == b,
        Pred::Parity(a) => v % 2 == a,
    }
}

#[tactic(auto, unfolding(crate::specs::Pred::good))]
pub fn is_good(p: Pred) -> bool
    ensures { result ≡ good p }
{
    match p {
        Pred::Any | Pred::Either(_, _) => true,
        Pred::Parity(a) => a <= 1,
    }
}

// What a file's kind and two parameters name, if a kind has that number. Parameters that the kind has no use for are ignored.
#[tactic(auto, unfolding(crate::specs::Pred::of_kind))]
pub fn of_kind(kind: u64, a: u64, b: u64) -> Option<Pred>
    ensures { result ≡ of_kind kind a b }
{
    match kind {
        0 => Some(Pred::Any),
        1 => Some(Pred::Either(a, b)),
        2 => Some(Pred::Parity(a)),
        _ => None,
    }
}
