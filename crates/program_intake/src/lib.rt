// What the programs share that read a scenario: standard input, a chunk at a time, and the rows that come of it.
#![tactic(auto)]

ghost use Rattle.std.specs.Prelude.{◌≤◌, ◌≡◌, ◌||◌, false, true, length, IfOk, IfErr};
ghost use Rattle.program_chunks.specs.Chunks.{stays, read_of};
ghost use Rattle.scenario_read.specs.Code.{fed_of};
ghost use Rattle.scenario_promises.specs.Piped.{standing_of};
ghost use Rattle.program_intake.specs.Intake.{nothing_taken, failed, turned, came_of, InHand};
ghost use Rattle.program_intake.specs.Room.{no_room_taken, turned_in, room_of};

use cell::pred::Pred;
use program_chunks::Input;
use scenario_pieces::Standing;
use scenario_read::{Fed, State, Stop};
use std::io::{self, Read, Stdin};

// What is handed from turn to turn besides the lists.
#[derive(Clone, Copy)]
pub struct Intake {
    pub state: State,
    pub standing: Standing,
    pub input: Input,
    // The last turn stopped where the list was full: rows may still come of what was read.
    pub full: bool,
}

// What a turn leaves, how many words of rows came, and why no more of them.
#[derive(Clone, Copy)]
pub struct Came {
    pub intake: Intake,
    pub at: usize,
    pub stop: Stop,
}

// The lists that the reader is lent, with the places that it needs, but for the chunk and the rows.
#[derive(Clone, Copy)]
pub struct Room {
    pub line: [u8; 80],
    pub lens: [u64; 16],
    pub ops: [u64; 1024],
    pub vals: [u64; 1024],
    pub schedule: [u64; 64],
}

impl Room {
    pub fn new() -> Room
        ensures value { result ≡ no_room_taken }
        ensures in_bounds { (16 ≤ length result.lens) × (1024 ≤ length result.ops) × (1024 ≤ length result.vals) × (64 ≤ length result.schedule) }
    {
        Room {
            line: [0; 80],
            lens: [0; 16],
            ops: [0; 1024],
            vals: [0; 1024],
            schedule: [0; 64],
        }
    }

    // A turn over these lists.
    pub fn take_more(
        &mut self,
        intake: Intake,
        input: Input,
        chunk: &[u8],
        rows: &mut [u64],
    ) -> Came
        ensures value { result ≡ came_of input (fed_of (turned_in intake input self.old chunk.now rows.old)) (length rows.old) }
        ensures self_after { self.new ≡ room_of (turned_in intake input self.old chunk.now rows.old) }
        ensures rows_after { rows.new ≡ (turned_in intake input self.old chunk.now rows.old).out }
        ensures at_in_bounds { result.at ≤ length rows.new }
    {
        take_more(
            intake,
            input,
            &mut self.line,
            &mut self.lens,
            &mut self.ops,
            &mut self.vals,
            &mut self.schedule,
            chunk,
            rows,
        )
    }
}

// Before the first byte. The standing is any, until the lock is set up.
pub fn begin() -> Intake
    ensures { result ≡ nothing_taken }
{
    Intake {
        state: scenario_read::fresh(),
        standing: scenario_pieces::at_first(Pred::Any, 1, 0),
        input: program_chunks::unread(),
        full: false,
    }
}

// A chunk is read where the one in hand is all taken and no row comes of it any more: a read may take long. One that fails is not the end of the
// input: what was cut off there might be another scenario.
pub fn read_chunk(mut source: Stdin, intake: Intake, chunk: &mut [u8]) -> Input
    ensures { InHand intake chunk.old result chunk.new }
{
    if keeps(intake.full, intake.input) {
        return intake.input;
    }
    gave(source.read(chunk))
}

// What a read gave: so many bytes, or that it failed.
fn gave(got: io::Result<usize>) -> Input
    ensures ok { IfOk got (λ n. result ≡ read_of n false) }
    ensures err { IfErr got (λ e. result ≡ read_of 0 true) }
{
    match got {
        Ok(n) => program_chunks::after_read(n, false),
        Err(_) => program_chunks::after_read(0, true),
    }
}

fn keeps(full: bool, input: Input) -> bool
    ensures { result ≡ (full || stays input) }
{
    full || program_chunks::stays(input)
}

// Of the chunk in hand as much is taken as the list has room for rows, which stand from its start on. That they end within it follows from the
// rest, and saves the callers the argument.
pub fn take_more(
    intake: Intake,
    input: Input,
    line: &mut [u8; 80],
    lens: &mut [u64],
    ops: &mut [u64],
    vals: &mut [u64],
    schedule: &mut [u64],
    chunk: &[u8],
    rows: &mut [u64],
) -> Came
    ensures value { result ≡ came_of input (fed_of (turned intake input line.old lens.old ops.old vals.old schedule.old chunk.now rows.old)) (length rows.old) }
    ensures line_after { line.new ≡ (turned intake input line.old lens.old ops.old vals.old schedule.old chunk.now rows.old).line }
    ensures lens_after { lens.new ≡ (turned intake input line.old lens.old ops.old vals.old schedule.old chunk.now rows.old).lens }
    ensures ops_after { ops.new ≡ (turned intake input line.old lens.old ops.old vals.old schedule.old chunk.now rows.old).ops }
    ensures vals_after { vals.new ≡ (turned intake input line.old lens.old ops.old vals.old schedule.old chunk.now rows.old).vals }
    ensures schedule_after { schedule.new ≡ (turned intake input line.old lens.old ops.old vals.old schedule.old chunk.now rows.old).schedule }
    ensures rows_after { rows.new ≡ (turned intake input line.old lens.old ops.old vals.old schedule.old chunk.now rows.old).out }
    ensures at_in_bounds { result.at ≤ length rows.new }
{
    let fed = scenario_read::feed(
        intake.state,
        intake.standing,
        line,
        lens,
        ops,
        vals,
        schedule,
        program_chunks::front(chunk, input.len),
        input.from,
        input.last,
        rows,
        0,
    );
    hand_on(input, fed, rows.len())
}

// The lock is set up when the first entry comes, so without a run line it stands as it would be set up.
pub fn standing_of(intake: Intake) -> Standing
    ensures { result ≡ standing_of intake.state intake.standing }
{
    let State { read, stood, .. } = intake.state;
    if stood {
        return intake.standing;
    }
    scenario_pieces::at_first(read.pred, read.top, read.first)
}

fn hand_on(input: Input, fed: Fed, room: usize) -> Came
    ensures { result ≡ came_of input fed room }
{
    let Fed {
        state,
        standing,
        from,
        at,
    } = fed;
    let stop = scenario_read::stopped(state, room, at);
    let intake = Intake {
        state,
        standing,
        input: program_chunks::taken_to(input, from),
        full: scenario_read::is_full(stop),
    };
    Came { intake, at, stop }
}
