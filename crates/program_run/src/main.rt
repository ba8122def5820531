// A scenario on standard input, its trace on standard output. A refusal is said on standard error too, with what is known of its line, in numbers.
#![tactic(auto)]

ghost use Rattle.std.specs.Prelude.{◌≡◌, ◌+◌, ◌*◌, ◌/◌, ◌≤◌, length, if◌then◌else◌, nat_le, IfOk};
ghost use Rattle.std.proofs.lemmas.List.Edits.{sets};
ghost use Rattle.scenario_prints.specs.Prints.{more_text};

use machine::ROW_WORDS;
use program_chunks::Input;
use program_intake::{Came, Intake, Room};
use program_out::{Lost, Outputs};
use scenario_read::Stop;
use std::io::Stdin;
use std::process::ExitCode;

// What is handed from turn to turn, besides the lists.
#[derive(Clone, Copy)]
struct Run {
    intake: Intake,
    // The number of the next row, modulo 2^64.
    row: u64,
    // How many bytes of text wait to be written.
    at: usize,
}

fn main(rt: HostRuntime) -> ExitCode {
    let to = Outputs {
        out: rt.stdout(),
        err: rt.stderr(),
        cut: b"trestlecat: the trace could not be written to its end, so it must not be used: make room, or let the reader take all of it\n",
    };
    let mut room = Room::new();
    let mut rows = [0; 1536];
    let mut chunk = io::large_buffer();
    let mut out = io::large_buffer();
    let written = turns(rt.stdin(), to, &mut room, &mut rows, &mut chunk, &mut out);
    ExitCode::from(program_out::status(written))
}

// The text of as many rows as the list holds, and of a refusal, has room in the other; and the list has the places that the reader needs.
// In each program, since no equation says what it comes to, which a function of a library needs (tests/contracts.sh).
fn turns(
    input: Stdin,
    to: Outputs,
    room: &mut Room,
    rows: &mut [u64],
    chunk: &mut [u8],
    out: &mut [u8],
) -> Result<(), Lost>
    requires rows_in_bounds { 148 * (length rows.old / 6) + 51 ≤ length out.old }
    requires in_bounds { 384 ≤ length rows.old }
{
    let mut run = Run {
        intake: program_intake::begin(),
        row: 0,
        at: scenario_text::put_header(out, 0),
    };
    // A proved loop has to end, and nothing says that the input does: it takes as many turns as no run uses up.
    for _ in 0..u64::MAX {
        let Some(next) = turn(input, to, run, room, rows, chunk, out)? else {
            break;
        };
        run = next;
    }
    Ok(())
}

// What the next turn begins with, if one comes.
fn turn(
    input: Stdin,
    to: Outputs,
    run: Run,
    room: &mut Room,
    rows: &mut [u64],
    chunk: &mut [u8],
    out: &mut [u8],
) -> Result<Option<Run>, Lost>
    requires { 148 * (length rows.old / 6) + 51 ≤ length out.old }
{
    let got = program_intake::read_chunk(input, run.intake, chunk);
    let next = on_chunk(to, run, got, room, rows, chunk, out);
    if got.failed {
        let _ = to.err.write_all(
            b"trestlecat: the input could not be read to its end, so the trace is not whole: give a file or a pipe that can be read\n",
        );
    }
    next
}

// More rows, and their text behind what waits. Before more is read, which may take long, and at the end, what waits is written.
fn on_chunk(
    to: Outputs,
    run: Run,
    got: Input,
    room: &mut Room,
    rows: &mut [u64],
    chunk: &[u8],
    out: &mut [u8],
) -> Result<Option<Run>, Lost>
    requires { 148 * (length rows.old / 6) + 51 ≤ length out.old }
{
    let came = room.take_more(run.intake, got, chunk, rows);
    let Came { intake, stop, .. } = came;
    let n = came.at / ROW_WORDS;
    let from = make_room(to, n, out, run.at)?;
    let at = put_more(run.row, rows, n, stop, out, from);
    let row = run.row.wrapping_add(n as u64);
    let ends = got.failed || scenario_read::ends(stop);
    if scenario_read::is_full(stop) && !ends {
        return Ok(Some(Run { intake, row, at }));
    }
    to.judge(to.out.write_all(program_chunks::front(out, at)))?;
    let len = program_told::length_in_turn(run.intake, got, came, chunk);
    let told = program_told::put_told(stop, intake.state.read, len, &room.line, out);
    let _ = to.err.write_all(program_chunks::front(out, told));
    if ends {
        return Ok(None);
    }
    Ok(Some(Run { intake, row, at: 0 }))
}

// What waits is written where n rows and a refusal have no room behind it. From where on there is room for them.
fn make_room(to: Outputs, n: usize, out: &[u8], at: usize) -> Result<usize, Lost>
    requires { 148 * n + 51 ≤ length out.now }
    ensures at_value { IfOk result (λ from. from ≡ (if nat_le (at + (148 * n + 51)) (length out.now) then at else 0)) }
    ensures n_in_bounds { IfOk result (λ from. from + (148 * n + 51) ≤ length out.now) }
{
    if scenario_prints::has_room(out.len(), at, n) {
        return Ok(at);
    }
    to.judge(to.out.write_all(program_chunks::front(out, at)))?;
    Ok(0)
}

// No row is lost, since there is room.
#[tactic(auto, using(scenario_prints::proofs::Laws::none_lost))]
fn put_more(row: u64, rows: &[u64], n: usize, stop: Stop, out: &mut [u8], at: usize) -> usize
    requires n_in_bounds { 6 * n ≤ length rows.now }
    requires n_in_bounds_2 { at + (148 * n + 51) ≤ length out.old }
    ensures value { result ≡ at + length (more_text row rows.now n stop) }
    ensures out_after { out.new ≡ sets out.old at (more_text row rows.now n stop) }
{
    scenario_prints::put_more(row, rows, n, stop, out, at)
}
