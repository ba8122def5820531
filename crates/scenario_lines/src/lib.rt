// The lines of a scenario file: where a line ends, read a byte at a time, and what one line says.
#![tactic(auto)]

pub mod bytes;
pub mod judge;
pub mod number;

// The most bytes of a line, before its break.
pub const LONGEST: usize = 80;

// What one line says.
#[derive(Clone, Copy)]
pub enum Line {
    // Too long, with a quote, a CR or an LF in it, or not four fields.
    Broken,
    Header,
    // Four fields, but a number is broken or out of range.
    BadNumber,
    // M, first value, threads.
    Lock(u64, u64, u64),
    // Kind, a, b.
    Pred(u64, u64, u64),
    // Thread, code, value.
    Op(u64, u64, u64),
    // Thread, times.
    Run(u64, u64),
    // Three numbers after a word that is no kind.
    NoKind,
}
