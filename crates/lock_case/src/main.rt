// Case L over a lent list of records: set up, run in two pieces into one trace list, and drained; then the entries of that drain, and a
// run of them. Prints the words of each row, the two words of the trace list that no row takes, what each piece returned, what the drain
// returned, how many its entries are and may be, the list that they are in, and what their run returned.
#![tactic(auto)]

use atomic::Count;
use cell::pred::Pred;
use lock::drain::Drained;
use machine::{Lists, Lock, Place, Rec, Refusal};
use std::io::Stdout;

const THREADS: u64 = 3;

fn main(rt: HostRuntime) {
    let to = rt.stdout();
    let lists = Lists {
        lens: &[2, 2, 2],
        ops: &[1, 3, 1, 3, 4, 5],
        vals: &[0; 6],
    };
    let begun = lock_held::setup(Pred::Any, Count(2), 0, lists, records(), THREADS);
    match begun.start {
        Ok(lock) => replay(to, lists, lock, begun.recs),
        Err(why) => refused(to, why),
    }
}

// After 0, 0, 2 the second piece, a cycle, comes back to the same state.
fn replay(to: Stdout, lists: Lists, lock: Lock, recs: [Rec; 16]) {
    let mut trace = [99u64; 80];
    let first = [0u64, 0, 2];
    let one = lock_held::run(lists, lock, recs, THREADS, &first, 3, &mut trace);
    let cycle = [1u64, 1, 0, 0, 2, 0, 0, 1, 1, 2];
    let two = lock_held::run_rest(
        lists,
        one.ran.lock,
        one.recs,
        THREADS,
        &cycle,
        10,
        one.ran.n,
        &mut trace,
    );
    print_words(to, &trace);
    print_numbers(to, "run", one.ran.n, one.ran.done);
    print_numbers(to, "run", two.ran.n, two.ran.done);
    finish(to, lists, two.ran.lock, two.recs);
}

fn finish(to: Stdout, lists: Lists, lock: Lock, recs: [Rec; 16]) {
    let left = lock_held::drain(lists, lock, recs, THREADS);
    let Drained { refusal, n, .. } = left.drained;
    print_numbers(to, "drain", refusal.map_or(0, |why| why.number), n);
    order(to, lists, lock, recs);
}

// The entries of that drain, from where it began, and a run of them.
fn order(to: Stdout, lists: Lists, lock: Lock, recs: [Rec; 16]) {
    let mut out = [99u64; 18];
    let asked = lock_order::drain_order(lists, lock, recs, THREADS, &mut out);
    print_numbers(to, "order", asked.n, asked.bound);
    print_words(to, &out);
    let mut trace = [99u64; 84];
    let left = lock_held::run(lists, lock, recs, THREADS, &out, asked.n, &mut trace);
    print_numbers(to, "run", left.ran.n, left.ran.done);
}

fn refused(to: Stdout, why: Refusal) {
    print_numbers(to, "refused", why.number, why.thread);
}

// Records of any content: setup makes them anew.
fn records() -> [Rec; 16] {
    [Rec {
        at: 7,
        place: Place::Writing,
        seen: Count(7),
        taken: 7,
    }; 16]
}

// Six words a line, and what is left on the last.
fn print_words(to: Stdout, words: &[u64]) {
    for (i, &word) in words.iter().enumerate() {
        let _ = to.print(word);
        print_end(to, i + 1, words.len());
    }
}

// After the i-th word of n.
fn print_end(to: Stdout, i: usize, n: usize) {
    let end = if i % 6 == 0 || i == n { "\n" } else { "," };
    let _ = to.print(end);
}

fn print_numbers(to: Stdout, name: &str, a: u64, b: u64) {
    let _ = println!(to; "{name},{a},{b}");
}
