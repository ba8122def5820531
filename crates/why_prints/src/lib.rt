// The answers why threads wait, as text: where a scenario has been read and run to its end, the header and a line for each thread, or the refusal.
#![tactic(auto)]

ghost use Rattle.std.specs.Prelude.{◌+◌, ◌≤◌, ◌≡◌, length};
ghost use Rattle.machine.specs.Lists.{lent};
ghost use Rattle.scenario_text.specs.Put.{Put, place_after, stored};
ghost use Rattle.why_prints.specs.Prints.{line_text, lines_text, threads_of, told_at, answers_of, end_text};

use lock_words::names::MOST_THREADS;
use machine::{Lists, Refusal};
use scenario_pieces::Standing;
use scenario_read::Stop;
use why::Reason;

// The most bytes: the header, and a line for each of sixteen threads.
const MOST: usize = 1386;

// What is printed where the reader stopped is stored from `at` on, and the place after it is returned: before the end of the scenario nothing is.
// Where the longest such text has no room, nothing is stored. A list and a place in it, as all text is stored: the programs use no heap for it.
pub fn put_end(stop: Stop, lists: Lists, standing: Standing, out: &mut [u8], at: usize) -> usize
    ensures value { result ≡ place_after 1386 out.old at (end_text stop (lent lists.entry) standing) }
    ensures out_after { out.new ≡ stored 1386 out.old at (end_text stop (lent lists.entry) standing) }
{
    if scenario_text::has_room(out.len(), at, MOST) {
        write_end(stop, lists, standing, out, at)
    } else {
        at
    }
}

fn write_end(stop: Stop, lists: Lists, standing: Standing, out: &mut [u8], at: usize) -> usize
    requires { at + 1386 ≤ length out.old }
    ensures { Put out.old at (end_text stop (lent lists.entry) standing) 1386 result out.new }
{
    match stop {
        Stop::Wants | Stop::Full => at,
        Stop::Refused(number, line) => scenario_text::put_refusal(out, at, number, line),
        Stop::Over => write_answers(lists, standing, out, at),
    }
}

fn write_answers(lists: Lists, standing: Standing, out: &mut [u8], at: usize) -> usize
    requires { at + 1386 ≤ length out.old }
    ensures { Put out.old at (answers_of (lent lists.entry) standing) 1386 result out.new }
{
    let n = scenario_text::put_bytes(out, at, b"thread,answer,reason,who\r\n");
    write_lines(lists, standing, out, n)
}

fn write_lines(lists: Lists, standing: Standing, out: &mut [u8], at: usize) -> usize
    requires { at + 1360 ≤ length out.old }
    ensures { let s = lent lists.entry in Put out.old at (lines_text (told_at s standing) 0 (threads_of s)) 1360 result out.new }
{
    let count = lists.lens.len() as u64;
    let n = count.min(MOST_THREADS);
    let mut p = at;
    for t in 0..n {
        let told = why_code::why(lists, standing.lock, standing.recs, count, t);
        p = write_line(t, told, out, p);
    }
    p
}

fn write_line(thread: u64, told: Result<Reason, Refusal>, out: &mut [u8], at: usize) -> usize
    requires { at + 85 ≤ length out.old }
    ensures { Put out.old at (line_text thread told) 85 result out.new }
{
    let n = why_code::numbers_of(told);
    scenario_text::put_four(out, at, thread, n.answer, n.reason, n.who)
}
