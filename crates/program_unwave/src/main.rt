// A waveform on standard input, its signals on standard output: a line for time 0 and one for each row. Or the one line of its refusal: 42 where
// it is not the waveform of any signals, 41 where it has more than 262,144 bytes or more than 16,383 rows.
#![tactic(auto)]

ghost use Rattle.std.specs.Prelude.{◌≡◌, length};

use program_out::{Lost, Outputs};
use std::io::{Read, Stdin};
use std::process::ExitCode;
use vcd::{Refusal, Signals};

// So many bytes of text are written at once; behind them the list has room for a line.
const FULL: usize = 50000;

fn main(rt: HostRuntime) -> ExitCode {
    let to = Outputs {
        out: rt.stdout(),
        err: rt.stderr(),
        cut: b"trestlecat: the signals could not be written to their end, so they must not be used: make room, or let the reader take all of them\n",
    };
    let mut file = file_room();
    let mut chunk = io::large_buffer();
    let mut signals = signals_room();
    let mut out = io::large_buffer();
    let written = read_and_print(
        rt.stdin(),
        to,
        &mut file,
        &mut chunk,
        &mut signals,
        &mut out,
    );
    ExitCode::from(program_out::status(written))
}

// What the limits leave room for. The `ensures` give only the lengths, which lending the arrays needs.
fn file_room() -> [u8; 262144]
    ensures { 262144 ≡ length result }
{
    [0; 262144]
}

fn signals_room() -> [u64; 32768]
    ensures { 32768 ≡ length result }
{
    [0; 32768]
}

// A read that fails is not the end of the input: what was cut off there might be another waveform.
fn read_and_print(
    input: Stdin,
    to: Outputs,
    file: &mut [u8],
    chunk: &mut [u8],
    signals: &mut [u64],
    out: &mut [u8],
) -> Result<(), Lost> {
    let Ok(got) = read_file(input, file, chunk) else {
        let _ = to.err.write_all(
            b"trestlecat: the input could not be read to its end, so nothing is printed: give a file or a pipe that can be read\n",
        );
        return Ok(());
    };
    let answer = match got {
        Some(n) => vcd_code::read::read(program_chunks::front(file, n), signals),
        None => Err(Refusal::NoRoom),
    };
    print(to, answer, signals, out)
}

// So many bytes up to the end of the input, which is read once, so that at a terminal it is said once; none where more came than there is room for.
fn read_file(
    mut input: Stdin,
    file: &mut [u8],
    chunk: &mut [u8],
) -> std::io::Result<Option<usize>> {
    let mut n = 0;
    // A proved loop has to end, and nothing says that the input does: it takes as many turns as no input uses up.
    for _ in 0..u64::MAX {
        let more = input.read(chunk)?;
        if more == 0 {
            return Ok(Some(n));
        }
        let m = scenario_text::put_bytes(file, n, program_chunks::front(chunk, more));
        if m == n {
            break;
        }
        n = m;
    }
    Ok(None)
}

fn print(
    to: Outputs,
    answer: Result<u64, Refusal>,
    signals: &[u64],
    out: &mut [u8],
) -> Result<(), Lost> {
    match answer {
        Ok(rows) => print_lines(to, signals, rows, out),
        Err(why) => print_refusal(to, why, out),
    }
}

fn print_refusal(to: Outputs, why: Refusal, out: &mut [u8]) -> Result<(), Lost> {
    let n = scenario_text::put_refusal(out, 0, u64::from(why), 0);
    let text = program_chunks::front(out, n);
    to.judge(to.out.write_all(text))?;
    // whoever started it makes words of this, as of what the other programs tell
    let _ = to.err.write_all(text);
    Ok(())
}

fn print_lines(to: Outputs, signals: &[u64], rows: u64, out: &mut [u8]) -> Result<(), Lost> {
    let mut at = scenario_text::put_bytes(out, 0, b"time,exc,rc\r\n");
    for t in 0..=rows {
        at = put_line(signals, t, out, at);
        if FULL < at {
            to.judge(to.out.write_all(program_chunks::front(out, at)))?;
            at = 0;
        }
    }
    to.judge(to.out.write_all(program_chunks::front(out, at)))
}

fn put_line(signals: &[u64], t: u64, out: &mut [u8], at: usize) -> usize {
    let s = signals_at(signals, t as usize);
    let n = put_field(out, at, t, b",");
    let m = put_field(out, n, s.exc, b",");
    put_field(out, m, s.rc, b"\r\n")
}

fn signals_at(signals: &[u64], t: usize) -> Signals {
    if t < signals.len() / 2 {
        return Signals {
            exc: signals[2 * t],
            rc: signals[2 * t + 1],
        };
    }
    Signals { exc: 0, rc: 0 }
}

fn put_field(out: &mut [u8], at: usize, v: u64, end: &[u8]) -> usize {
    let n = scenario_text::put_number(out, at, v);
    scenario_text::put_bytes(out, n, end)
}
