// The numbers of a line: plain decimal below 2^64 with no needless zero, and commas between them.
ghost use Rattle.std.specs.Prelude.{◌≡◌};
ghost use Rattle.replay.specs.Numbers.{numbers_of, is_put, put_in, on_purpose};

use super::lists::{find, part};
use scenario_lines::number::parse_number;

// What the first number of a line says that is wrong on purpose.
const WRONG: u64 = 999;

// The numbers of a line go to the start of `words`, up to the first that is none or has no room. How many they are, where each is read and has room.
pub fn numbers(text: &[u8], words: &mut [u64]) -> Option<usize>
    ensures value { result ≡ (numbers_of text.now words.old).told }
    ensures words_after { words.new ≡ (numbers_of text.now words.old).words }
{
    let mut n = 0;
    let mut at = 0;
    // No `for`: where the next number starts, the comma behind this one tells.
    loop {
        let end = find(text, at, b',');
        if !put(words, n, parse_number(part(text, at, end))) {
            return None;
        }
        n += 1;
        if end >= text.len() {
            return Some(n);
        }
        at = end + 1;
    }
}

// Whether the line is one that is wrong on purpose, by its first number.
pub fn is_wrong(text: &[u8]) -> bool
    ensures { result ≡ on_purpose text.now }
{
    let what = parse_number(part(text, 0, find(text, 0, b',')));
    match what {
        Some(n) => n == WRONG,
        None => false,
    }
}

fn put(words: &mut [u64], at: usize, what: Option<u64>) -> bool
    ensures value { result ≡ is_put what at words.old }
    ensures words_after { words.new ≡ put_in what at words.old }
{
    let Some(n) = what else {
        return false;
    };
    if at >= words.len() {
        return false;
    }
    words[at] = n;
    true
}
