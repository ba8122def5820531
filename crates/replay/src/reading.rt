// A list that is read a chunk at a time: its lines gather in a lent room, so that a line may end in a later chunk than it starts.
ghost use Rattle.std.specs.Prelude.{◌≡◌, length, set, take, drop, min};
ghost use Rattle.replay.specs.Reading.{before_reading, used_up, after_read, opened, grown, took, taken_from, line_taken, line_by, is_whole, is_cut};

const BREAK: u8 = b'\n';

#[derive(Clone, Copy)]
pub struct Reading {
    // How many bytes the chunk has, and how many of them were taken.
    pub len: usize,
    pub from: usize,
    // How many bytes the line has; one more than its room for all that are longer.
    pub held: usize,
    // The line is read to its break.
    pub done: bool,
    // The list has ended.
    pub over: bool,
}

// What was taken of a chunk.
#[derive(Clone, Copy)]
struct TakenSome {
    held: usize,
    at: usize,
    done: bool,
}

// Before the first read.
pub fn begin() -> Reading
    ensures { result ≡ before_reading }
{
    Reading {
        len: 0,
        from: 0,
        held: 0,
        done: false,
        over: false,
    }
}

// Whether a chunk has to be read.
pub fn is_used_up(r: Reading) -> bool
    ensures { result ≡ used_up r }
{
    r.len <= r.from
}

// After a read of n bytes. A read of none ends the list, and so does one that failed: the number of rows then shows it.
pub fn after_read(r: Reading, n: usize) -> Reading
    ensures { result ≡ after_read r n }
{
    Reading {
        len: n,
        from: 0,
        held: open(r),
        done: false,
        over: n == 0,
    }
}

// Takes bytes of the chunk until a line is read to its break or none is left. A line that was done makes room.
pub fn take_line(line: &mut [u8], chunk: &[u8], r: Reading) -> Reading
    ensures value { result ≡ line_taken chunk.now line.old r }
    ensures line_after { line.new ≡ line_by chunk.now line.old r }
{
    let bytes = program_chunks::front(chunk, r.len);
    let taken = take_some(line, bytes, r.from, open(r));
    Reading {
        from: taken.at,
        held: taken.held,
        done: taken.done,
        ..r
    }
}

// The bytes of the line as far as the room has them.
pub fn text(line: &[u8], r: Reading) -> &[u8]
    ensures { result.now ≡ take (min r.held (length line.now)) line.now }
{
    program_chunks::front(line, r.held)
}

// Whether a line is read to its break and the room has all of it.
pub fn is_whole(line: &[u8], r: Reading) -> bool
    ensures { result ≡ is_whole line.now r }
{
    r.done && r.held <= line.len()
}

// Whether the list ends within a line, which may be cut short.
pub fn is_cut(r: Reading) -> bool
    ensures { result ≡ is_cut r }
{
    r.over && 0 < r.held
}

fn open(r: Reading) -> usize
    ensures { result ≡ opened r }
{
    if r.done { 0 } else { r.held }
}

fn take_some(line: &mut [u8], chunk: &[u8], from: usize, held: usize) -> TakenSome
    ensures value { result ≡ taken_from from (took (drop from chunk.now) line.old held) }
    ensures line_after { line.new ≡ (took (drop from chunk.now) line.old held).line }
{
    let mut n = held;
    for i in from..chunk.len() {
        if chunk[i] == BREAK {
            return TakenSome {
                held: n,
                at: i + 1,
                done: true,
            };
        }
        n = keep(line, n, chunk[i]);
    }
    TakenSome {
        held: n,
        at: chunk.len().max(from),
        done: false,
    }
}

// One byte more of the line.
fn keep(line: &mut [u8], n: usize, b: u8) -> usize
    ensures value { result ≡ grown (length line.old) n }
    ensures line_after { line.new ≡ set line.old n b }
{
    if n < line.len() {
        line[n] = b;
        return n + 1;
    }
    line.len() + 1
}
