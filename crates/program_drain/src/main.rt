// A scenario on standard input, and the same on standard output, with a run line behind it for each entry of the drain order: whoever runs that has
// the trace, and then the drain. How many entries they are and how many they may be is said on standard error, or the refusal of drain. Of a scenario
// that is refused nothing is said here: whoever runs it finds that.
#![tactic(auto)]

ghost use Rattle.std.specs.Prelude.{◌≤◌, ◌≡◌, length};

use machine::Lists;
use program_chunks::Input;
use program_intake::{Came, Intake, Room};
use program_out::{Lost, Outputs};
use scenario_read::Stop;
use std::io::{Stderr, Stdin};
use std::process::ExitCode;

// So many bytes of text are written at once; behind them the list has room for a line.
const FULL: usize = 50000;

// What is handed from turn to turn, besides the lists.
#[derive(Clone, Copy)]
struct Run {
    intake: Intake,
    // The chunk in hand begins within a line.
    within: bool,
}

fn main(rt: HostRuntime) -> ExitCode {
    let to = Outputs {
        out: rt.stdout(),
        err: rt.stderr(),
        cut: b"trestlecat: the scenario could not be handed on to its end, so the trace is not whole: make room, or let the reader take all of it\n",
    };
    let mut room = Room::new();
    let mut rows = [0; 1536];
    let mut chunk = io::large_buffer();
    let mut order = order_room();
    let mut out = io::large_buffer();
    let written = turns(
        rt.stdin(),
        to,
        &mut room,
        &mut rows,
        &mut chunk,
        &mut order,
        &mut out,
    );
    ExitCode::from(program_out::status(written))
}

// The most entries that drain makes. The `ensures` gives only the length, which lending the array needs.
fn order_room() -> [u64; 3120]
    ensures { 3120 ≡ length result }
{
    [0; 3120]
}

// The lists have the places that the reader and drain need.
// In each program, since no equation says what it comes to, which a function of a library needs (tests/contracts.sh).
fn turns(
    input: Stdin,
    to: Outputs,
    room: &mut Room,
    rows: &mut [u64],
    chunk: &mut [u8],
    order: &mut [u64],
    out: &mut [u8],
) -> Result<(), Lost>
    requires { (384 ≤ length rows.old) × (3120 ≤ length order.old) }
{
    let mut run = Run {
        intake: program_intake::begin(),
        within: false,
    };
    // A proved loop has to end, and nothing says that the input does: it takes as many turns as no run uses up.
    for _ in 0..u64::MAX {
        let Some(next) = turn(input, to, run, room, rows, chunk, order, out)? else {
            break;
        };
        run = next;
    }
    Ok(())
}

// What the next turn begins with, if one comes.
fn turn(
    input: Stdin,
    to: Outputs,
    run: Run,
    room: &mut Room,
    rows: &mut [u64],
    chunk: &mut [u8],
    order: &mut [u64],
    out: &mut [u8],
) -> Result<Option<Run>, Lost> {
    let got = program_intake::read_chunk(input, run.intake, chunk);
    let next = on_chunk(to, run, got, room, rows, chunk, order, out);
    if got.failed {
        let _ = to.err.write_all(
            b"trestlecat: the input could not be read to its end, so the trace is not whole: give a file or a pipe that can be read\n",
        );
    }
    next
}

// A chunk goes out as it came, and is then run; its rows are those that the next program prints. The last chunk has no bytes, so where it begins within
// a line, the last line has no break.
fn on_chunk(
    to: Outputs,
    run: Run,
    got: Input,
    room: &mut Room,
    rows: &mut [u64],
    chunk: &[u8],
    order: &mut [u64],
    out: &mut [u8],
) -> Result<Option<Run>, Lost> {
    let mut within = run.within;
    if has_read(run.intake) {
        to.judge(to.out.write_all(program_chunks::front(chunk, got.len)))?;
        within = 0 < run.intake.state.held.len;
    }
    let came = room.take_more(run.intake, got, chunk, rows);
    if matches!(came.stop, Stop::Over) {
        drain(to, came.intake, within, room, order, out)?;
    }
    if got.failed || scenario_read::ends(came.stop) {
        return Ok(None);
    }
    Ok(Some(Run {
        intake: came.intake,
        within,
    }))
}

// Whether another chunk was read in the place of the one that this turn began with.
fn has_read(before: Intake) -> bool {
    !before.full && !program_chunks::stays(before.input)
}

// At the end of an accepted scenario, what drain makes.
fn drain(
    to: Outputs,
    intake: Intake,
    within: bool,
    room: &Room,
    order: &mut [u64],
    out: &mut [u8],
) -> Result<(), Lost> {
    let read = intake.state.read;
    let standing = program_intake::standing_of(intake);
    let lists = Lists {
        lens: scenario_read::upto(&room.lens, read.threads),
        ops: scenario_read::upto(&room.ops, read.count),
        vals: scenario_read::upto(&room.vals, read.count),
    };
    let answer = lock_order::drain_order(lists, standing.lock, standing.recs, read.threads, order);
    if let Some(why) = answer.refusal {
        say_refused(to.err, why.number, out);
        return Ok(());
    }
    write_lines(to, within, order, answer.n, out)?;
    say_drained(to.err, answer.n, answer.bound, out);
    Ok(())
}

// A run line for each of the first n entries, on lines of their own.
fn write_lines(
    to: Outputs,
    within: bool,
    order: &[u64],
    n: u64,
    out: &mut [u8],
) -> Result<(), Lost> {
    let mut at = put_break(within, n, out);
    for &thread in order.iter().take(n as usize) {
        at = put_line(thread, out, at);
        if FULL < at {
            to.judge(to.out.write_all(program_chunks::front(out, at)))?;
            at = 0;
        }
    }
    to.judge(to.out.write_all(program_chunks::front(out, at)))
}

fn put_break(within: bool, n: u64, out: &mut [u8]) -> usize {
    if within && 0 < n {
        return scenario_text::put_bytes(out, 0, b"\r\n");
    }
    0
}

fn put_line(thread: u64, out: &mut [u8], at: usize) -> usize {
    let n = scenario_text::put_bytes(out, at, b"run,");
    let m = scenario_text::put_number(out, n, thread);
    scenario_text::put_bytes(out, m, b",1,0\r\n")
}

fn say_refused(err: Stderr, number: u64, out: &mut [u8]) {
    let n = scenario_text::put_refusal(out, 0, number, 0);
    let _ = err.write_all(program_chunks::front(out, n));
}

fn say_drained(err: Stderr, entries: u64, bound: u64, out: &mut [u8]) {
    let n = scenario_text::put_bytes(out, 0, b"drained,");
    let m = scenario_text::put_number(out, n, entries);
    let k = scenario_text::put_bytes(out, m, b",");
    let j = scenario_text::put_number(out, k, bound);
    let end = scenario_text::put_bytes(out, j, b"\r\n");
    let _ = err.write_all(program_chunks::front(out, end));
}
