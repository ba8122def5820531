// What the programs that read their input a chunk at a time share: where the input stands, and the front of a list.
#![tactic(auto)]

ghost use Rattle.std.specs.Prelude.{min, ◌≡◌, length, take};
ghost use Rattle.program_chunks.specs.Chunks.{unread, stays, ended_by, read_of, taken_to};

#[derive(Clone, Copy)]
pub struct Input {
    // How many bytes the chunk has, and how many of them were taken.
    pub len: usize,
    pub from: usize,
    // The input has ended.
    pub last: bool,
    // It could not be read to its end. That is not its end: what was cut off there might make another input of it.
    pub failed: bool,
}

// Before the first read.
pub fn unread() -> Input
    ensures { result ≡ unread }
{
    Input {
        len: 0,
        from: 0,
        last: false,
        failed: false,
    }
}

// No chunk has to be read now.
pub fn stays(i: Input) -> bool
    ensures { result ≡ stays i }
{
    i.last || i.failed || i.from < i.len
}

// After a read of n bytes, or one that failed.
pub fn after_read(n: usize, failed: bool) -> Input
    ensures { result ≡ read_of n failed }
{
    Input {
        len: n,
        from: 0,
        last: is_end(n, failed),
        failed,
    }
}

// The chunk is taken up to there.
pub fn taken_to(i: Input, from: usize) -> Input
    ensures { result ≡ taken_to i from }
{
    Input { from, ..i }
}

// The first n bytes, as far as there are bytes.
pub fn front(list: &[u8], n: usize) -> &[u8]
    ensures { result.now ≡ take (min n (length list.now)) list.now }
{
    let m = n.min(list.len());
    &list[..m]
}

// A read of no bytes that did not fail.
fn is_end(n: usize, failed: bool) -> bool
    ensures { result ≡ ended_by n failed }
{
    !failed && n == 0
}
