// Run lines that stand whole in a chunk, one after another, with numbers alone at hand: no state is copied for a line.
ghost use Rattle.std.specs.Prelude.{◌≡◌, ◌-◌, ◌≤◌, true, length};
ghost use Rattle.std.proofs.Math.Seq.{slice};
ghost use Rattle.std.proofs.lemmas.List.Edits.{sets};
ghost use Rattle.scenario_lines.specs.Held.{unheld};
ghost use Rattle.scenario_read.specs.Ahead.{AtLine, runs_here, ran_on, Ahead, Onward};

use super::peek::peek_run;
use super::{PIECE, State, fill};
use scenario::Stage;
use scenario_lines::bytes::Held;
use scenario_pieces::ENTRIES;
use scenario_stages::Read;

// The turns that are left, how many lines were read, the thread of the last of them, how many entries wait, and the place in the chunk.
#[derive(Clone, Copy)]
struct Runs {
    turns: u64,
    line: u64,
    thread: u64,
    gathered: u64,
    at: usize,
}

// What run lines that are read ahead leave of a state, with the place in the chunk after them and the turns that are left.
#[derive(Clone, Copy)]
pub(crate) struct RunsTaken {
    pub(crate) state: State,
    pub(crate) from: usize,
    pub(crate) turns: u64,
}

// Where run lines may come, those that stand whole in the chunk are read, and their entries gathered: the same moves as they would be one by one.
pub(crate) fn runs_first(
    s: State,
    line: &mut [u8; 80],
    schedule: &mut [u64],
    chunk: &[u8],
    from: usize,
    room: usize,
    at: usize,
    turns: u64,
) -> RunsTaken
    ensures { Onward chunk.now room at turns s line.old schedule.old from result.turns result.state line.new schedule.new result.from }
{
    let kept = RunsTaken {
        state: s,
        from,
        turns,
    };
    if !at_line(s) || !scenario_text::has_room(room, at, PIECE) {
        return kept;
    }
    let t = take_runs(line, schedule, chunk, here(s, from, turns));
    RunsTaken {
        state: with_runs(s, t),
        from: t.at,
        turns: t.turns,
    }
}

// A run line may come, and nothing is held of it.
fn at_line(s: State) -> bool
    ensures { result ≡ true → AtLine s }
{
    s.stood
        && !s.closed
        && s.read.run_left == 0
        && s.read.refused.is_none()
        && s.read.stage == Stage::Runs
        && is_unheld(s.held)
}

fn is_unheld(h: Held) -> bool
    ensures { result ≡ true → h ≡ unheld }
{
    h.len == 0 && !h.cr && !h.done
}

fn here(s: State, from: usize, turns: u64) -> Runs
    ensures { result ≡ runs_here s from turns }
{
    Runs {
        turns,
        line: s.read.line,
        thread: s.read.run_thread,
        gathered: s.gathered,
        at: from,
    }
}

fn with_runs(s: State, t: Runs) -> State
    ensures { result ≡ ran_on s t }
{
    State {
        read: Read {
            line: t.line,
            run_thread: t.thread,
            ..s.read
        },
        gathered: t.gathered,
        ..s
    }
}

// Run lines as long as their entries have room, two turns a line. A turn is left for what comes after them.
fn take_runs(line: &mut [u8; 80], schedule: &mut [u64], chunk: &[u8], first: Runs) -> Runs
    ensures { Ahead chunk.now first line.old schedule.old result line.new schedule.new }
{
    let mut r = first;
    // No `for`: a line takes as many places as it says.
    while r.gathered < ENTRIES && 3 <= r.turns {
        let Some(p) = peek_run(chunk, r.at) else {
            return r;
        };
        if ENTRIES - r.gathered < p.times {
            return r;
        }
        copy(line, chunk, r.at, p.at - 2);
        fill(schedule, r.gathered, p.times, p.thread);
        r = Runs {
            turns: r.turns - 2,
            line: r.line.wrapping_add(1),
            thread: p.thread,
            gathered: r.gathered + p.times,
            at: p.at,
        };
    }
    r
}

// The bytes of the chunk from a place up to another, into the first places of the line.
fn copy(line: &mut [u8], chunk: &[u8], from: usize, to: usize)
    requires { (from ≤ to) × (to ≤ length chunk.now) × (to - from ≤ length line.old) }
    ensures { line.new ≡ sets line.old 0 (slice from to chunk.now) }
{
    line[..to - from].copy_from_slice(&chunk[from..to]);
}
