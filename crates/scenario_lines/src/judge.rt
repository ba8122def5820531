// The judge of one line: its form first, then its three numbers, then its kind.
ghost use Rattle.std.specs.Prelude.{◌≡◌};
ghost use Rattle.scenario_lines.specs.Judge.{clean, foul, fields, first, kinds, runs, numbered, judge};

use super::number::parse_number;
use super::{LONGEST, Line};

// A run line's thread and times are below these.
pub const THREADS: u64 = 256;

pub const TIMES: u64 = 65536;

#[tactic(auto, unfolding(crate::specs::Judge::judge), using(crate::proofs::Scans::equal_pointwise))]
pub fn judge_line(s: &[u8]) -> Line
    ensures { result ≡ judge s.now }
{
    if s == b"kind,a,b,c".as_slice() {
        return Line::Header;
    }
    if LONGEST < s.len() || !is_clean(s) {
        return Line::Broken;
    }
    four_fields(s)
}

// A kind and three numbers.
fn four_fields(s: &[u8]) -> Line
    ensures { result ≡ first (fields s.now) }
{
    let mut parts = s.split(|b| *b == b',');
    let (Some(kind), Some(a), Some(b), Some(c), None) = (
        parts.next(),
        parts.next(),
        parts.next(),
        parts.next(),
        parts.next(),
    ) else {
        return Line::Broken;
    };
    of_numbers(kind, parse_number(a), parse_number(b), parse_number(c))
}

// The numbers come before the kind.
fn of_numbers(k: &[u8], x: Option<u64>, y: Option<u64>, z: Option<u64>) -> Line
    ensures { result ≡ numbered k.now x y z }
{
    let (Some(a), Some(b), Some(c)) = (x, y, z) else {
        return Line::BadNumber;
    };
    of_kind(k, a, b, c)
}

#[tactic(auto, unfolding(crate::specs::Judge::kinds), using(crate::proofs::Scans::equal_reads, crate::proofs::Scans::equal_unlike))]
fn of_kind(k: &[u8], a: u64, b: u64, c: u64) -> Line
    ensures { result ≡ kinds k.now a b c }
{
    match k {
        b"lock" => Line::Lock(a, b, c),
        b"pred" => Line::Pred(a, b, c),
        b"op" => Line::Op(a, b, c),
        b"run" => run_line(a, b, c),
        _ => Line::NoKind,
    }
}

fn run_line(a: u64, b: u64, c: u64) -> Line
    ensures { result ≡ runs a b c }
{
    if a < THREADS && 0 < b && b < TIMES && c == 0 {
        Line::Run(a, b)
    } else {
        Line::BadNumber
    }
}

fn is_clean(s: &[u8]) -> bool
    ensures { result ≡ clean s.now }
{
    s.iter().all(|b| !is_foul(*b))
}

// A quote, a CR or an LF.
fn is_foul(b: u8) -> bool
    ensures { result ≡ foul b }
{
    matches!(b, b'"' | b'\r' | b'\n')
}
