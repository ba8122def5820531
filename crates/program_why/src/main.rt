// A scenario on standard input, and on standard output, once it has been run, why each thread waits, a line for each; or its refusal alone, which is
// said on standard error too. What is wrong with a refused line is not said here: a run of the scenario tells it.
#![tactic(auto)]

ghost use Rattle.std.specs.Prelude.{◌≤◌, ◌≡◌, length};
ghost use Rattle.std.proofs.lemmas.List.Edits.{sets};
ghost use Rattle.program_why.specs.Answered.{answered};

use machine::Lists;
use program_intake::{Came, Intake, Room};
use program_out::{Lost, Outputs};
use scenario_read::Stop;
use std::io::Stdin;
use std::process::ExitCode;

fn main(rt: HostRuntime) -> ExitCode {
    let to = Outputs {
        out: rt.stdout(),
        err: rt.stderr(),
        cut: b"trestlecat: the answers could not be written to their end, so they must not be used: make room, or let the reader take all of them\n",
    };
    let mut room = Room::new();
    let mut rows = [0; 1536];
    let mut chunk = io::large_buffer();
    let mut out = io::large_buffer();
    let written = turns(rt.stdin(), to, &mut room, &mut rows, &mut chunk, &mut out);
    ExitCode::from(program_out::status(written))
}

// The answers have room in the list, and the list for rows has the places that the reader needs.
// In each program, since no equation says what it comes to, which a function of a library needs (tests/contracts.sh).
fn turns(
    input: Stdin,
    to: Outputs,
    room: &mut Room,
    rows: &mut [u64],
    chunk: &mut [u8],
    out: &mut [u8],
) -> Result<(), Lost>
    requires { (384 ≤ length rows.old) × (1386 ≤ length out.old) }
{
    let mut intake = program_intake::begin();
    // A proved loop has to end, and nothing says that the input does: it takes as many turns as no run uses up.
    for _ in 0..u64::MAX {
        let Some(next) = turn(input, to, intake, room, rows, chunk, out)? else {
            break;
        };
        intake = next;
    }
    Ok(())
}

// What the next turn begins with, if one comes. The rows are not wanted: it is asked of what they leave. A read that fails is no end of the scenario:
// then nothing is printed.
fn turn(
    input: Stdin,
    to: Outputs,
    intake: Intake,
    room: &mut Room,
    rows: &mut [u64],
    chunk: &mut [u8],
    out: &mut [u8],
) -> Result<Option<Intake>, Lost>
    requires { 1386 ≤ length out.old }
{
    let got = program_intake::read_chunk(input, intake, chunk);
    let came = room.take_more(intake, got, chunk, rows);
    if scenario_read::ends(came.stop) {
        answer(to, came, room, out)?;
        return Ok(None);
    }
    if got.failed {
        let _ = to.err.write_all(
            b"trestlecat: the input could not be read to its end, so nothing is answered: give a file or a pipe that can be read\n",
        );
        return Ok(None);
    }
    Ok(Some(came.intake))
}

// At the end of the scenario.
fn answer(to: Outputs, came: Came, room: &Room, out: &mut [u8]) -> Result<(), Lost>
    requires { 1386 ≤ length out.old }
{
    let n = put_answers(came, &room.lens, &room.ops, &room.vals, out);
    let text = program_chunks::front(out, n);
    to.judge(to.out.write_all(text))?;
    if matches!(came.stop, Stop::Refused(_, _)) {
        let _ = to.err.write_all(text);
    }
    Ok(())
}

// No answer is lost, since there is room.
fn put_answers(came: Came, lens: &[u64], ops: &[u64], vals: &[u64], out: &mut [u8]) -> usize
    requires { 1386 ≤ length out.old }
    ensures value { result ≡ length (answered came lens.now ops.now vals.now) }
    ensures out_after { out.new ≡ sets out.old 0 (answered came lens.now ops.now vals.now) }
{
    let read = came.intake.state.read;
    let standing = program_intake::standing_of(came.intake);
    let lists = Lists {
        lens: scenario_read::upto(lens, read.threads),
        ops: scenario_read::upto(ops, read.count),
        vals: scenario_read::upto(vals, read.count),
    };
    why_prints::put_end(came.stop, lists, standing, out, 0)
}
