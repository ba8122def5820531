// A waveform's signals. The file is gone through twice, first without storing them, so that a refusal has stored nothing.
ghost use Rattle.std.specs.Prelude.{suc, ◌≡◌, ◌&&◌, ◌||◌, not, cond, [], ◌∷◌, ltb, leb, length, drop, true, false, is_ok, IsOk, MatchOption};
ghost use Rattle.std.proofs.lemmas.List.Edits.{sets};
ghost use Rattle.vcd.specs.Blocks.{front};
ghost use Rattle.vcd.specs.Trace.{most_rows};
ghost use Rattle.vcd.specs.Read.{starts, block_at, behind, rows_found, read_as, words_of, read, read_in};

use super::{ahead, fill};
use vcd::{Block, Refusal, Signals};
use vcd_text::{CHANGE, FRONT};

// The rows of the longest trace that can be lent.
const MOST: u64 = 3074457345618258602;

// Where the signals of time 0 stand.
const DUMP: usize = 139;

// The signals of time 0 and after every row go to the start of `out`, exc and rc in turn, and words behind them stay; the answer is the number
// of rows. They are words and no `Signals`, since `Reader41` and `ReaderTakes` speak of words. Refused where the file is not the waveform of any
// signals; then where its signals have no room.
pub fn read(file: &[u8], out: &mut [u64]) -> Result<u64, Refusal>
    ensures value { result ≡ read file.now (length out.old) }
    ensures out_after { out.new ≡ read_in file.now out.old }
{
    let none = Signals { exc: 0, rc: 0 };
    let s = ahead::signals_ahead(none, ahead::behind(file, DUMP));
    match behind_front(s, file) {
        Some(rest) => read_rows(s, rest, out),
        None => Err(Refusal::NoWave),
    }
}

// What is behind the opening of signals s, where the file begins with it.
fn behind_front(s: Signals, file: &[u8]) -> Option<&[u8]>
    ensures { MatchOption result (starts (front s) file.now ≡ false) (λ rest. (starts (front s) file.now ≡ true) × (rest.now ≡ drop (length (front s)) file.now)) }
{
    let mut text = [0; FRONT];
    let n = vcd_text::put_front(&mut text, 0, s);
    file.strip_prefix(&text[..n])
}

// What is behind the opening, where s are the signals of time 0.
fn read_rows(s: Signals, rest: &[u8], out: &mut [u64]) -> Result<u64, Refusal>
    ensures value { result ≡ read_as (behind (s ∷ []) (rows_found (suc (length rest.now)) 0 s rest.now)) (length out.old) }
    ensures out_after { let all = behind (s ∷ []) (rows_found (suc (length rest.now)) 0 s rest.now) in out.new ≡ cond (is_ok result) (sets out.old 0 (words_of all)) out.old }
{
    let n = answer_of(s, rest, out.len())?;
    store(s, rest, out);
    Ok(n)
}

// The answer for them, without storing.
fn answer_of(first: Signals, rest: &[u8], room: usize) -> Result<u64, Refusal>
    ensures { result ≡ read_as (behind (first ∷ []) (rows_found (suc (length rest.now)) 0 first rest.now)) room }
{
    let mut rows: u64 = 0;
    let mut s = first;
    let mut left = rest;
    while !left.is_empty() {
        let k = block_at(rows, s, left).ok_or(Refusal::NoWave)?;
        rows = k.time;
        s = k.signals;
        left = ahead::behind(left, k.len);
    }
    if rows < room as u64 / 2 {
        Ok(rows)
    } else {
        Err(Refusal::NoRoom)
    }
}

// Stores all of them, where nothing is refused.
fn store(first: Signals, rest: &[u8], out: &mut [u64])
    requires { IsOk (read_as (behind (first ∷ []) (rows_found (suc (length rest.now)) 0 first rest.now)) (length out.old)) }
    ensures { out.new ≡ sets out.old 0 (words_of (behind (first ∷ []) (rows_found (suc (length rest.now)) 0 first rest.now))) }
{
    fill::rows_to(out, 0, 0, first, first);
    store_rows(first, rest, out);
}

// Stores the rows behind the signals of time 0, which are two words.
fn store_rows(first: Signals, rest: &[u8], out: &mut [u64])
    requires { IsOk (read_as (behind (first ∷ []) (rows_found (suc (length rest.now)) 0 first rest.now)) (length out.old)) }
    ensures { out.new ≡ sets out.old 2 (words_of (rows_found (suc (length rest.now)) 0 first rest.now)) }
{
    let mut p = 2;
    let mut t: u64 = 0;
    let mut s = first;
    let mut left = rest;
    while !left.is_empty() {
        let k = block_at(t, s, left).unwrap();
        p = fill::rows_to(out, p, k.time - t - 1, s, k.signals);
        t = k.time;
        s = k.signals;
        left = ahead::behind(left, k.len);
    }
}

// ---- a block

// Whether the block `text` stands at the start of `rest` and may stand there: its time is after t, and where it changes no signal it is the last.
#[tactic(auto, using(crate::proofs::Gather::starts_as))]
fn is_good(text: &[u8], rest: &[u8], t: u64, time: u64, still: bool) -> bool
    ensures { result ≡ (starts text.now rest.now && (ltb t time && (leb time most_rows && (not still || leb (length rest.now) (length text.now))))) }
{
    rest.starts_with(text) && t < time && time <= MOST && (!still || rest.len() <= text.len())
}

// The block at the start of `rest`, where t is the time so far and s are the signals.
fn block_at(t: u64, s: Signals, rest: &[u8]) -> Option<Block>
    ensures { result ≡ block_at t s rest.now }
{
    let time = ahead::digits_ahead(ahead::behind(rest, 1));
    let mut text = [0; CHANGE];
    let n = vcd_text::put_time(&mut text, 0, time);
    let signals = ahead::signals_ahead(s, ahead::behind(rest, n));
    let len = vcd_text::put_changed(&mut text, n, s, signals);
    is_good(&text[..len], rest, t, time, s == signals).then_some(Block { time, signals, len })
}
