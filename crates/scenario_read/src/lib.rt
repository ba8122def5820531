// Scenario bytes in, rows out: a chunk at a time, one move after another, with what is read and run so far handed from call to call.
#![tactic(auto)]

mod peek;
mod run_lines;

ghost use Rattle.std.specs.Prelude.{◌≡◌, ◌-◌, ◌^◌, take, replicate, if◌then◌else◌, nat_lt, ◌==◌, ◌&&◌, ◌||◌, not};
ghost use Rattle.std.proofs.lemmas.List.Edits.{sets};
ghost use Rattle.std.specs.Option.{is_none};
ghost use Rattle.scenario_lines.specs.Judge.{judge};
ghost use Rattle.scenario_lines.specs.Held.{view};
ghost use Rattle.scenario_stages.specs.Kept.{on_line, lens_after, ops_after, vals_after};
ghost use Rattle.scenario_pieces.specs.Piece.{first_of};
ghost use Rattle.scenario_read.specs.declared.Move.TheVariants.{Line as ALine, Close, Rest};
ghost use Rattle.scenario_read.specs.Feed.{fresh as freshState, over, end_of, stop_of, is_end, is_full, ready, roomy_move, what, rests, more, runs, takes, ends, feed};
ghost use Rattle.scenario_read.specs.Code.{world_of, lock_world, other_world, line_world, fed_of, of_lock, to_stand, lock_moved, other_moved, now_stood, closed_with, gathered_in};

use machine::Lists;
use scenario_lines::bytes;
use scenario_lines::bytes::Held;
use scenario_pieces::{ENTRIES, Standing};
use scenario_stages::Read;

// The words of the rows of a whole piece.
const PIECE: usize = 384;

// What is handed from call to call besides the lists and the standing.
#[derive(Clone, Copy)]
pub struct State {
    // The line so far.
    pub held: Held,
    // What is read so far.
    pub read: Read,
    // How many entries wait in the schedule list.
    pub gathered: u64,
    // The standing is that of the lock that was set up.
    pub stood: bool,
    // The end of the input was taken.
    pub closed: bool,
}

// What comes next. It stays an enum: `next_of` and `moved` of specs/Feed, and what is promised of them, speak of it.
#[derive(Clone, Copy)]
pub enum Move {
    Stand,
    Piece,
    Gather,
    Line,
    Close,
    Rest,
}

// Why a call came to rest.
#[derive(Clone, Copy)]
pub enum Stop {
    // The chunk is all taken, and another is wanted.
    Wants,
    // There is no room for the rows of a whole piece.
    Full,
    // All rows are out, and the input was refused: the number, and the line.
    Refused(u64, u64),
    // All rows are out, and the input has ended.
    Over,
}

// What a call returns: the state, the standing, and the places in the chunk and in the list for rows after what was taken and stored.
#[derive(Clone, Copy)]
pub struct Fed {
    pub state: State,
    pub standing: Standing,
    pub from: usize,
    pub at: usize,
}

// What a move other than those of the lock leaves.
#[derive(Clone, Copy)]
struct Moved {
    state: State,
    from: usize,
}

// Before the first byte.
pub fn fresh() -> State
    ensures { result ≡ freshState }
{
    State {
        held: bytes::begin(),
        read: scenario_stages::begin(),
        gathered: 0,
        stood: false,
        closed: false,
    }
}

// Why a call that left this state rests, where it left the place `at` in a list of `room` words.
#[tactic(auto, unfolding(crate::specs::Feed::stop_of))]
pub fn stopped(s: State, room: usize, at: usize) -> Stop
    ensures { result ≡ stop_of s room at }
{
    if is_over(s) {
        return end_of(s);
    }
    if scenario_text::has_room(room, at, PIECE) {
        return Stop::Wants;
    }
    Stop::Full
}

// Nothing comes any more.
pub fn ends(stop: Stop) -> bool
    ensures { result ≡ is_end stop }
{
    matches!(stop, Stop::Refused(_, _) | Stop::Over)
}

// The list was full: rows may still come of what was read.
pub fn is_full(stop: Stop) -> bool
    ensures { result ≡ is_full stop }
{
    matches!(stop, Stop::Full)
}

// Moves are made until nothing comes next: the chunk's bytes from `from` on are taken, and the rows that come of them are stored from the word `at` on. `last` says
// that no chunk comes after this one.
pub fn feed(
    state: State,
    standing: Standing,
    line: &mut [u8; 80],
    lens: &mut [u64],
    ops: &mut [u64],
    vals: &mut [u64],
    schedule: &mut [u64],
    chunk: &[u8],
    from: usize,
    last: bool,
    rows: &mut [u64],
    at: usize,
) -> Fed
    ensures result_value { let w = world_of state standing line.old lens.old ops.old vals.old schedule.old from rows.old at in result ≡ fed_of (feed chunk.now last (2 ^ 64 - 1) w) }
    ensures line_after { let w = world_of state standing line.old lens.old ops.old vals.old schedule.old from rows.old at in line.new ≡ (feed chunk.now last (2 ^ 64 - 1) w).line }
    ensures lens_after { let w = world_of state standing line.old lens.old ops.old vals.old schedule.old from rows.old at in lens.new ≡ (feed chunk.now last (2 ^ 64 - 1) w).lens }
    ensures ops_after { let w = world_of state standing line.old lens.old ops.old vals.old schedule.old from rows.old at in ops.new ≡ (feed chunk.now last (2 ^ 64 - 1) w).ops }
    ensures vals_after { let w = world_of state standing line.old lens.old ops.old vals.old schedule.old from rows.old at in vals.new ≡ (feed chunk.now last (2 ^ 64 - 1) w).vals }
    ensures schedule_after { let w = world_of state standing line.old lens.old ops.old vals.old schedule.old from rows.old at in schedule.new ≡ (feed chunk.now last (2 ^ 64 - 1) w).schedule }
    ensures rows_after { let w = world_of state standing line.old lens.old ops.old vals.old schedule.old from rows.old at in rows.new ≡ (feed chunk.now last (2 ^ 64 - 1) w).out }
{
    let mut s = state;
    let mut p = standing;
    let mut i = from;
    let mut k = at;
    let mut turns = u64::MAX;
    // No `for`: run lines that are read ahead take several turns at once.
    while 0 < turns {
        let ran = run_lines::runs_first(s, line, schedule, chunk, i, rows.len(), k, turns);
        s = ran.state;
        i = ran.from;
        turns = ran.turns - 1;
        let m = what(s, chunk.len(), i, last, rows.len(), k);
        if rests(m) {
            return after(s, p, i, k);
        }
        if of_lock(m) {
            let r = lock_move(m, s, p, lens, ops, vals, schedule, i, rows, k);
            s = r.state;
            p = r.standing;
            k = r.at;
            continue;
        }
        let r = other_move(m, s, line, lens, ops, vals, schedule, chunk, i);
        s = r.state;
        i = r.from;
    }
    after(s, p, i, k)
}

fn after(state: State, standing: Standing, from: usize, at: usize) -> Fed
    ensures { result ≡ record { state = state; standing = standing; from = from; at = at } }
{
    Fed {
        state,
        standing,
        from,
        at,
    }
}

// ---- why it rests

// No entry comes after those that wait.
fn is_read(s: State) -> bool
    ensures { result ≡ (s.read.run_left == 0 && (not (is_none s.read.refused) || s.closed)) }
{
    s.read.run_left == 0 && (s.read.refused.is_some() || s.closed)
}

// All rows of the input are out.
#[tactic(auto, unfolding(crate::specs::Feed::over))]
fn is_over(s: State) -> bool
    ensures { result ≡ over s }
{
    s.gathered == 0 && is_read(s)
}

fn end_of(s: State) -> Stop
    ensures { result ≡ end_of s }
{
    match s.read.refused {
        Some(number) => Stop::Refused(number, s.read.line),
        None => Stop::Over,
    }
}

// ---- what comes next

// A move is made only where the rows of a whole piece have room.
#[tactic(auto, unfolding(crate::specs::Feed::what))]
fn what(s: State, len: usize, from: usize, last: bool, room: usize, at: usize) -> Move
    ensures { result ≡ what s len from last room at }
{
    if scenario_text::has_room(room, at, PIECE) {
        return roomy_move(s, len, from, last);
    }
    Move::Rest
}

#[tactic(auto, unfolding(crate::specs::Feed::roomy_move))]
fn roomy_move(s: State, len: usize, from: usize, last: bool) -> Move
    ensures { result ≡ roomy_move s len from last }
{
    if to_stand(s) {
        return Move::Stand;
    }
    if is_ready(s) {
        return Move::Piece;
    }
    if 0 < s.read.run_left {
        return Move::Gather;
    }
    if s.read.refused.is_some() || s.closed {
        return Move::Rest;
    }
    input_move(len, from, last)
}

// The lock is to be set up: the first entries come.
fn to_stand(s: State) -> bool
    ensures { result ≡ to_stand s }
{
    !s.stood && 0 < s.read.run_left
}

// All that was gathered is run.
fn is_ready(s: State) -> bool
    ensures { result ≡ ready s }
{
    ENTRIES <= s.gathered || (0 < s.gathered && is_read(s))
}

// Bytes are left, or no chunk comes after this one, or there is nothing to do.
fn input_move(len: usize, from: usize, last: bool) -> Move
    ensures { result ≡ (if nat_lt from len then ALine else (if last then Close else Rest)) }
{
    if from < len {
        return Move::Line;
    }
    if last {
        return Move::Close;
    }
    Move::Rest
}

fn rests(m: Move) -> bool
    ensures { result ≡ rests m }
{
    matches!(m, Move::Rest)
}

fn of_lock(m: Move) -> bool
    ensures { result ≡ of_lock m }
{
    matches!(m, Move::Stand | Move::Piece)
}

// ---- the moves of the lock

// Other moves change nothing here.
fn lock_move(
    m: Move,
    s: State,
    p: Standing,
    lens: &[u64],
    ops: &[u64],
    vals: &[u64],
    schedule: &[u64],
    from: usize,
    rows: &mut [u64],
    at: usize,
) -> Fed
    ensures result_value { let w = lock_world s p lens.now ops.now vals.now schedule.now from rows.old at in result ≡ fed_of (lock_moved w m) }
    ensures rows_after { let w = lock_world s p lens.now ops.now vals.now schedule.now from rows.old at in rows.new ≡ (lock_moved w m).out }
{
    match m {
        Move::Stand => stand(s, from, at),
        Move::Piece => run_waiting(s, p, lens, ops, vals, schedule, from, rows, at),
        _ => after(s, p, from, at),
    }
}

fn stand(s: State, from: usize, at: usize) -> Fed
    ensures { result ≡ record { state = now_stood s; standing = first_of s.read.pred s.read.top s.read.first; from = from; at = at } }
{
    let standing = scenario_pieces::at_first(s.read.pred, s.read.top, s.read.first);
    after(State { stood: true, ..s }, standing, from, at)
}

fn run_waiting(
    s: State,
    p: Standing,
    lens: &[u64],
    ops: &[u64],
    vals: &[u64],
    schedule: &[u64],
    from: usize,
    rows: &mut [u64],
    at: usize,
) -> Fed
    ensures result_value { let w = lock_world s p lens.now ops.now vals.now schedule.now from rows.old at in result ≡ fed_of (runs w) }
    ensures rows_after { let w = lock_world s p lens.now ops.now vals.now schedule.now from rows.old at in rows.new ≡ (runs w).out }
{
    let lists = Lists {
        lens: upto(lens, s.read.threads),
        ops: upto(ops, s.read.count),
        vals: upto(vals, s.read.count),
    };
    let done = scenario_pieces::run_piece(lists, p, upto(schedule, s.gathered), rows, at);
    after(State { gathered: 0, ..s }, done.standing, from, done.at)
}

// The first n places, as far as there are places.
pub fn upto(list: &[u64], n: u64) -> &[u64]
    ensures { result.now ≡ take n list.now }
{
    let m = n.min(list.len() as u64) as usize;
    &list[..m]
}

// ---- the other moves

// Those of the lock change nothing here. The standing, which is large, is no part of this.
fn other_move(
    m: Move,
    s: State,
    line: &mut [u8; 80],
    lens: &mut [u64],
    ops: &mut [u64],
    vals: &mut [u64],
    schedule: &mut [u64],
    chunk: &[u8],
    from: usize,
) -> Moved
    ensures { let w = other_world s line.old lens.old ops.old vals.old schedule.old from in other_world result.state line.new lens.new ops.new vals.new schedule.new result.from ≡ other_moved chunk.now w m }
{
    match m {
        Move::Gather => Moved {
            state: gather(s, schedule),
            from,
        },
        Move::Line => take_in(s, line, lens, ops, vals, chunk, from),
        Move::Close => close(s, line, lens, ops, vals, from),
        _ => Moved { state: s, from },
    }
}

// As many entries as have room wait in the schedule list.
fn gather(s: State, schedule: &mut [u64]) -> State
    ensures value { result ≡ gathered_in s }
    ensures schedule_after { schedule.new ≡ sets schedule.old s.gathered (replicate (more s) s.read.run_thread) }
{
    let n = more(s);
    fill(schedule, s.gathered, n, s.read.run_thread);
    State {
        read: Read {
            run_left: s.read.run_left - n,
            ..s.read
        },
        gathered: s.gathered + n,
        ..s
    }
}

fn more(s: State) -> u64
    ensures { result ≡ more s }
{
    s.read.run_left.min(ENTRIES.saturating_sub(s.gathered))
}

// v stands n times from a place on, as far as there are places.
fn fill(list: &mut [u64], from: u64, n: u64, v: u64)
    ensures { list.new ≡ sets list.old from (replicate n v) }
{
    let len = list.len() as u64;
    if from < len {
        let end = from + n.min(len - from);
        list[from as usize..end as usize].fill(v);
    }
}

// Bytes of the chunk until a line is complete, or there is none left.
fn take_in(
    s: State,
    line: &mut [u8; 80],
    lens: &mut [u64],
    ops: &mut [u64],
    vals: &mut [u64],
    chunk: &[u8],
    from: usize,
) -> Moved
    ensures { line_world result.state line.new lens.new ops.new vals.new result.from ≡ takes chunk.now (line_world s line.old lens.old ops.old vals.old from) }
{
    let taken = bytes::take_line(line, s.held, chunk, from);
    let h = taken.held;
    if !h.done {
        return Moved {
            state: State { held: h, ..s },
            from: taken.at,
        };
    }
    let read = read_line(s.read, line, h.len, lens, ops, vals);
    Moved {
        state: State {
            held: bytes::begin(),
            read,
            ..s
        },
        from: taken.at,
    }
}

// The end of the input: the last line, if there is one, and a missing line.
fn close(
    s: State,
    line: &mut [u8; 80],
    lens: &mut [u64],
    ops: &mut [u64],
    vals: &mut [u64],
    from: usize,
) -> Moved
    ensures { line_world result.state line.new lens.new ops.new vals.new result.from ≡ ends (line_world s line.old lens.old ops.old vals.old from) }
{
    let h = bytes::finish(line, s.held);
    let read = if h.done {
        read_line(s.read, line, h.len, lens, ops, vals)
    } else {
        s.read
    };
    Moved {
        state: closed_with(s, read),
        from,
    }
}

// One more line, of which n places are taken.
fn read_line(
    r: Read,
    line: &[u8; 80],
    n: usize,
    lens: &mut [u64],
    ops: &mut [u64],
    vals: &mut [u64],
) -> Read
    ensures value { result ≡ on_line r (judge (view line.now n)) lens.old }
    ensures lens_after { lens.new ≡ lens_after r (judge (view line.now n)) lens.old }
    ensures ops_after { ops.new ≡ ops_after r (judge (view line.now n)) lens.old ops.old }
    ensures vals_after { vals.new ≡ vals_after r (judge (view line.now n)) lens.old vals.old }
{
    let l = bytes::judge_held(line, n);
    scenario_stages::on_line(r, l, lens, ops, vals)
}

// The last line was read into r.
fn closed_with(s: State, r: Read) -> State
    ensures { result ≡ closed_with s r }
{
    State {
        held: bytes::begin(),
        read: scenario_stages::at_end(r),
        closed: true,
        ..s
    }
}
