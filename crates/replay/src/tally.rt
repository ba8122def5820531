// What became of each line of a list, counted and printed.
ghost use Rattle.std.specs.Prelude.{true, false, ◌≡◌};
ghost use Rattle.replay.specs.Tally.{fresh, passed, agreed, differed, left_unread, left_outside, found_wrong, counted, cut_short, after_verdict, rows_of, sum_of};

use std::io::Stdout;

// How many lines that differ are named.
const NAMED: u64 = 5;

#[derive(Clone, Copy)]
pub struct Tally {
    // The number of the line that is being read, from 1.
    pub line: u64,
    pub equal: u64,
    pub different: u64,
    // Lines that cannot be read.
    pub unreadable: u64,
    // Lines whose state the types of the crate do not have, so that no call is made.
    pub outside: u64,
    // Lines that are wrong on purpose and were found so.
    pub found: u64,
}

// What a line comes to.
#[derive(Clone, Copy)]
pub enum Verdict {
    Agrees,
    Differs,
    Unreadable,
    Outside,
}

pub fn start() -> Tally
    ensures { result ≡ fresh }
{
    Tally {
        line: 1,
        equal: 0,
        different: 0,
        unreadable: 0,
        outside: 0,
        found: 0,
    }
}

// A line that is no row: the header.
pub fn pass(t: Tally) -> Tally
    ensures { result ≡ passed t }
{
    Tally {
        line: up(t.line),
        ..t
    }
}

// A row of a list that tells only whether its lines agree.
pub fn count(out: Stdout, t: Tally, equal: bool) -> Tally
    ensures { result ≡ counted t equal }
{
    if equal { agree(t) } else { differ(out, t) }
}

// A last line with no break may be cut short, and counts as different.
pub fn count_cut(out: Stdout, t: Tally, cut: bool) -> Tally
    ensures { result ≡ cut_short t cut }
{
    if cut { differ(out, t) } else { t }
}

// A line, which is wrong on purpose or not. A wrong one has to be found.
pub fn on_verdict(out: Stdout, t: Tally, wrong: bool, verdict: Verdict) -> Tally
    ensures { result ≡ after_verdict t wrong verdict }
{
    if wrong {
        on_wrong(out, t, verdict)
    } else {
        on_good(out, t, verdict)
    }
}

// Prints the first three numbers and returns how many rows there were.
pub fn report(out: Stdout, t: Tally) -> u64
    ensures { result ≡ rows_of t }
{
    let rows = t.equal.saturating_add(t.different);
    print(out, b"rows ", rows);
    print(out, b"equal ", t.equal);
    print(out, b"different ", t.different);
    rows
}

// The same, with the lines that cannot be read and the wrong ones that were found.
pub fn report_all(out: Stdout, t: Tally) -> u64
    ensures { result ≡ rows_of t }
{
    let rows = report(out, t);
    print(out, b"unreadable ", t.unreadable);
    print(out, b"wrong on purpose and found ", t.found);
    rows
}

// The same, with the lines outside the types under the list's own name for them.
pub fn report_outside(out: Stdout, t: Tally, what: &[u8]) -> u64
    ensures { result ≡ rows_of t }
{
    let rows = report(out, t);
    print(out, b"unreadable ", t.unreadable);
    print(out, what, t.outside);
    print(out, b"wrong on purpose and found ", t.found);
    rows
}

fn on_good(out: Stdout, t: Tally, verdict: Verdict) -> Tally
    ensures { result ≡ after_verdict t false verdict }
{
    match verdict {
        Verdict::Agrees => agree(t),
        Verdict::Differs => differ(out, t),
        Verdict::Unreadable => leave_unread(out, t),
        Verdict::Outside => leave_outside(t),
    }
}

// A wrong line that agrees differs from what it is there for, and is named as a line that differs.
fn on_wrong(out: Stdout, t: Tally, verdict: Verdict) -> Tally
    ensures { result ≡ after_verdict t true verdict }
{
    match verdict {
        Verdict::Agrees => differ(out, t),
        Verdict::Differs => find(out, t, b"wrong on purpose, different at line "),
        Verdict::Unreadable => find(out, t, b"wrong on purpose, unreadable at line "),
        Verdict::Outside => differ(out, t),
    }
}

fn agree(t: Tally) -> Tally
    ensures { result ≡ agreed t }
{
    Tally {
        equal: up(t.equal),
        ..pass(t)
    }
}

// The first lines that differ are named as they come.
fn differ(out: Stdout, t: Tally) -> Tally
    ensures { result ≡ differed t }
{
    if t.different < NAMED {
        print(out, b"different at line ", t.line);
    }
    Tally {
        different: up(t.different),
        ..pass(t)
    }
}

fn leave_unread(out: Stdout, t: Tally) -> Tally
    ensures { result ≡ left_unread t }
{
    print(out, b"unreadable at line ", t.line);
    Tally {
        unreadable: up(t.unreadable),
        ..pass(t)
    }
}

fn leave_outside(t: Tally) -> Tally
    ensures { result ≡ left_outside t }
{
    Tally {
        outside: up(t.outside),
        ..pass(t)
    }
}

fn find(out: Stdout, t: Tally, how: &[u8]) -> Tally
    ensures { result ≡ found_wrong t }
{
    print(out, how, t.line);
    Tally {
        found: up(t.found),
        ..pass(t)
    }
}

// A count that cannot grow stays, so that none turns over to 0.
fn up(n: u64) -> u64
    ensures { result ≡ sum_of n 1 }
{
    n.saturating_add(1)
}

// What cannot be written is passed over: the tally counts on, and whoever reads the report misses a line.
fn print(out: Stdout, what: &[u8], n: u64) {
    let _ = out.write_all(what);
    let _ = out.println(n);
}
