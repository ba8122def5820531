// Signals stored as words, exc and rc in turn.
ghost use Rattle.std.specs.Prelude.{◌+◌, ◌*◌, ◌≤◌, [], ◌∷◌, ◌++◌, length, replicate};
ghost use Rattle.scenario_text.specs.Put.{Put};
ghost use Rattle.vcd.specs.Trace.{words};

use vcd::Signals;

// The same signals after each of n rows.
fn still(out: &mut [u64], at: usize, n: u64, s: Signals) -> usize
    requires { at + 2 * n ≤ length out.old }
    ensures { Put out.old at (words (replicate n s)) (2 * n) result out.new }
{
    let end = at + 2 * n as usize;
    for k in 0..n as usize {
        out[at + 2 * k] = s.exc;
        out[at + 2 * k + 1] = s.rc;
    }
    end
}

// n rows where the signals stay s, and the row that makes them x.
pub(crate) fn rows_to(out: &mut [u64], at: usize, n: u64, s: Signals, x: Signals) -> usize
    requires { at + 2 * (n + 1) ≤ length out.old }
    ensures { Put out.old at (words (replicate n s ++ (x ∷ []))) (2 * (n + 1)) result out.new }
{
    let p = still(out, at, n, s);
    still(out, p, 1, x)
}
