// The stage of a scenario file: which lines may come next. What is read and what is printed stands in specs/.
#![tactic(auto)]

#[derive(Clone, Copy, PartialEq, Eq, PartialOrd, Ord)]
pub enum Stage {
    Header,
    Lock,
    Pred,
    // Op lines, or the first run line.
    Ops,
    // Run lines alone.
    Runs,
}
