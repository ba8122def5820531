// The reader of lines, a byte at a time: a lent line of 80 bytes, and what is held of it by value.
ghost use Rattle.std.specs.Prelude.{◌≡◌, drop};
ghost use Rattle.scenario_lines.specs.Judge.{judge};
ghost use Rattle.scenario_lines.specs.Held.{unheld, grown, kept, held_after, line_after, took, taken_from, held_end, line_end, view};

use super::judge::judge_line;
use super::{LONGEST, Line};

// What stands for the number of bytes of a line that has more.
const TOO_LONG: usize = 81;

const CR: u8 = 13;

const LF: u8 = 10;

// The places are lent beside it: `take_line` and the others, which docs/READING.md names with these parameters, keep the two apart.
#[derive(Clone, Copy)]
pub struct Held {
    // How many places of the line are taken; 81 stands for a line that is too long, a number since the theorem `Chunks.AtMost80` bounds it as one.
    pub len: usize,
    // A CR is held back, until it is known whether an LF follows.
    pub cr: bool,
    // The last byte completed the line. Whoever reads on begins with nothing held.
    pub done: bool,
}

#[derive(Clone, Copy)]
pub struct Taken {
    pub held: Held,
    // The place in the chunk after the last byte read.
    pub at: usize,
}

// Nothing is held.
pub fn begin() -> Held
    ensures { result ≡ unheld }
{
    Held {
        len: 0,
        cr: false,
        done: false,
    }
}

// One byte.
#[tactic(auto, unfolding(crate::specs::Held::held_after, crate::specs::Held::line_after))]
pub fn push(line: &mut [u8; 80], h: Held, b: u8) -> Held
    ensures value { result ≡ held_after h b }
    ensures line_after { line.new ≡ line_after line.old h b }
{
    if h.cr && b == LF {
        return Held {
            cr: false,
            done: true,
            ..h
        };
    }
    let n = if h.cr { put(line, h.len, CR) } else { h.len };
    Held {
        len: if b == CR { n } else { put(line, n, b) },
        cr: b == CR,
        done: false,
    }
}

// The bytes of a chunk from a place on, until one completes the line or there is none left.
pub fn take_line(line: &mut [u8; 80], h: Held, chunk: &[u8], from: usize) -> Taken
    ensures value { result ≡ taken_from from (took (drop from chunk.now) line.old h) }
    ensures line_after { line.new ≡ (took (drop from chunk.now) line.old h).line }
{
    let mut g = Held { done: false, ..h };
    for i in from..chunk.len() {
        g = push(line, g, chunk[i]);
        if g.done {
            return Taken { held: g, at: i + 1 };
        }
    }
    Taken {
        held: g,
        at: from.max(chunk.len()),
    }
}

// The end of the input: what is held is the last line, unless nothing is.
#[tactic(auto, unfolding(crate::specs::Held::held_end, crate::specs::Held::line_end))]
pub fn finish(line: &mut [u8; 80], h: Held) -> Held
    ensures value { result ≡ held_end h }
    ensures line_after { line.new ≡ line_end line.old h }
{
    Held {
        len: if h.cr { put(line, h.len, CR) } else { h.len },
        cr: false,
        done: h.cr || 0 < h.len,
    }
}

// What the line says of which n places are taken.
#[tactic(auto, unfolding(crate::specs::Held::view), using(crate::proofs::Judged::for_too_long))]
pub fn judge_held(line: &[u8; 80], n: usize) -> Line
    ensures { result ≡ judge (view line.now n) }
{
    if n <= LONGEST {
        judge_line(&line[..n])
    } else {
        Line::Broken
    }
}

// One byte more of the line.
fn put(line: &mut [u8; 80], n: usize, b: u8) -> usize
    ensures value { result ≡ grown n }
    ensures line_after { line.new ≡ kept line.old n b }
{
    if n < LONGEST {
        line[n] = b;
        n + 1
    } else {
        TOO_LONG
    }
}
