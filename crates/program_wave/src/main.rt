// A scenario on standard input, the waveform of its trace on standard output. The refusal of a scenario is said on standard error, behind the
// waveform of the rows before it, with what is known of its line, in numbers.
#![tactic(auto)]

ghost use Rattle.std.specs.Prelude.{◌+◌, ◌*◌, ◌/◌, ◌≤◌, ◌≡◌, cond, leb, length, IfOk, IfSome};
ghost use Rattle.std.proofs.lemmas.List.Edits.{sets};
ghost use Rattle.vcd.specs.Trace.{row_signals};
ghost use Rattle.vcd_rows.specs.Waves.{left_by, text_by};

use machine::ROW_WORDS;
use program_chunks::Input;
use program_intake::{Came, Intake, Room};
use program_out::{Lost, Outputs};
use std::io::Stdin;
use std::process::ExitCode;
use vcd::{Signals, Wave};
use vcd_rows::Left;

// What is handed from turn to turn, besides the lists.
#[derive(Clone, Copy)]
struct Run {
    intake: Intake,
    wave: Wave,
    // How many bytes of the waveform wait to be written.
    at: usize,
}

fn main(rt: HostRuntime) -> ExitCode {
    let to = Outputs {
        out: rt.stdout(),
        err: rt.stderr(),
        cut: b"trestlecat: the waveform could not be written to its end, so it must not be used: make room, or let the reader take all of it\n",
    };
    let mut room = Room::new();
    let mut rows = [0; 1536];
    let mut chunk = io::large_buffer();
    let mut out = io::large_buffer();
    let written = turns(rt.stdin(), to, &mut room, &mut rows, &mut chunk, &mut out);
    ExitCode::from(program_out::status(written))
}

// What as many rows as the list holds may change has room in the other; and the list has the places that the reader needs.
// In each program, since no equation says what it comes to, which a function of a library needs (tests/contracts.sh).
fn turns(
    input: Stdin,
    to: Outputs,
    room: &mut Room,
    rows: &mut [u64],
    chunk: &mut [u8],
    out: &mut [u8],
) -> Result<(), Lost>
    requires rows_in_bounds { 93 * (length rows.old / 6) ≤ length out.old }
    requires in_bounds { 384 ≤ length rows.old }
{
    let mut run = begin(out);
    // A proved loop has to end, and nothing says that the input does: it takes as many turns as no run uses up.
    for _ in 0..u64::MAX {
        let Some(next) = turn(input, to, run, room, rows, chunk, out)? else {
            break;
        };
        run = next;
    }
    Ok(())
}

// The signals start as they are after setup.
fn begin(out: &mut [u8]) -> Run {
    let signals = Signals { exc: 0, rc: 0 };
    let wave = Wave {
        time: 0,
        written: 0,
        signals,
    };
    Run {
        intake: program_intake::begin(),
        wave,
        at: vcd_text::put_front(out, 0, signals),
    }
}

// What the next turn begins with, if one comes.
fn turn(
    input: Stdin,
    to: Outputs,
    run: Run,
    room: &mut Room,
    rows: &mut [u64],
    chunk: &mut [u8],
    out: &mut [u8],
) -> Result<Option<Run>, Lost>
    requires { 93 * (length rows.old / 6) ≤ length out.old }
{
    let got = program_intake::read_chunk(input, run.intake, chunk);
    let next = on_chunk(to, run, got, room, rows, chunk, out);
    if got.failed {
        let _ = to.err.write_all(
            b"trestlecat: the input could not be read to its end, so the waveform is not whole: give a file or a pipe that can be read\n",
        );
    }
    next
}

// More rows, and what they change behind what waits. Before more is read, which may take long, and at the end, what waits is written.
fn on_chunk(
    to: Outputs,
    run: Run,
    got: Input,
    room: &mut Room,
    rows: &mut [u64],
    chunk: &[u8],
    out: &mut [u8],
) -> Result<Option<Run>, Lost>
    requires { 93 * (length rows.old / 6) ≤ length out.old }
{
    let came = room.take_more(run.intake, got, chunk, rows);
    let n = came.at / ROW_WORDS;
    let from = make_room(to, n, out, run.at)?;
    let Left { wave, at } = put_rows(run.wave, rows, n, out, from);
    let next = Run {
        intake: came.intake,
        wave,
        at,
    };
    let ends = got.failed || scenario_read::ends(came.stop);
    if scenario_read::is_full(came.stop) && !ends {
        return Ok(Some(next));
    }
    let len = program_told::length_in_turn(run.intake, got, came, chunk);
    write_on(to, next, came, ends, len, &room.line, out)
}

// What waits is written, and at the end of the scenario the close. The next turn, if one comes, goes on from there, and nothing waits for it.
fn write_on(
    to: Outputs,
    run: Run,
    came: Came,
    ends: bool,
    len: usize,
    line: &[u8],
    out: &mut [u8],
) -> Result<Option<Run>, Lost>
    ensures { IfOk result (λ next. IfSome next (λ r. r ≡ record { intake = run.intake; wave = run.wave; at = 0 })) }
{
    to.judge(to.out.write_all(program_chunks::front(out, run.at)))?;
    if scenario_read::ends(came.stop) {
        close(to, came, run.wave, len, line, out)?;
    }
    if ends {
        return Ok(None);
    }
    Ok(Some(Run { at: 0, ..run }))
}

// What waits is written where the changes of n rows have no room behind it. From where on there is room for them.
fn make_room(to: Outputs, n: usize, out: &[u8], at: usize) -> Result<usize, Lost>
    requires { 93 * n ≤ length out.now }
    ensures at_value { IfOk result (λ from. from ≡ cond (leb (at + 93 * n) (length out.now)) at 0) }
    ensures n_in_bounds { IfOk result (λ from. from + 93 * n ≤ length out.now) }
{
    if vcd_rows::has_room(out.len(), at, n) {
        return Ok(at);
    }
    to.judge(to.out.write_all(program_chunks::front(out, at)))?;
    Ok(0)
}

// No row is lost, since there is room.
#[tactic(auto, using(vcd_rows::proofs::Laws::none_lost))]
fn put_rows(wave: Wave, rows: &[u64], n: usize, out: &mut [u8], at: usize) -> Left
    requires n_in_bounds { 6 * n ≤ length rows.now }
    requires n_in_bounds_2 { at + 93 * n ≤ length out.old }
    ensures value { result ≡ record { wave = left_by wave (row_signals n rows.now); at = at + length (text_by wave (row_signals n rows.now)) } }
    ensures out_after { out.new ≡ sets out.old at (text_by wave (row_signals n rows.now)) }
{
    vcd_rows::put_rows(wave, rows, n, out, at)
}

// The close of the waveform; and, once that is written, the refusal, where there is one, with what is known of its line.
fn close(
    to: Outputs,
    came: Came,
    wave: Wave,
    len: usize,
    line: &[u8],
    out: &mut [u8],
) -> Result<(), Lost> {
    let n = vcd_text::put_close(out, 0, wave);
    to.judge(to.out.write_all(program_chunks::front(out, n)))?;
    let told = program_told::put_told(came.stop, came.intake.state.read, len, line, out);
    let _ = to.err.write_all(program_chunks::front(out, told));
    Ok(())
}
