// What the bytes ahead would say, gathered without a test of what stands there.
ghost use Rattle.std.specs.Prelude.{◌-◌, ◌≡◌, cond, get_or, drop, Some, None};
ghost use Rattle.vcd.specs.Binary.{is_bit};
ghost use Rattle.vcd.specs.Read.{digits_ahead, bits_ahead, rc_ahead, signals_ahead};

use scenario_lines::number;
use vcd::Signals;

// The least number that no binary digit can follow.
const HALF: u64 = 9223372036854775808;

// The list from place n on; nothing where it has no such place.
pub(crate) fn behind(s: &[u8], n: usize) -> &[u8]
    ensures { result.now ≡ drop n s.now }
{
    s.get(n..).unwrap_or(&[])
}

// The first byte, or 0.
fn first(s: &[u8]) -> u8
    ensures { result ≡ get_or s.now 0 0 }
{
    s.first().copied().unwrap_or(0)
}

// The digits as far as they are a number below 2^64.
pub(crate) fn digits_ahead(s: &[u8]) -> u64
    ensures { result ≡ digits_ahead 0 s.now }
{
    let mut v = 0;
    for b in s {
        let Some(x) = number::one_more(v, *b) else {
            return v;
        };
        v = x;
    }
    v
}

// The binary digit that a byte is.
fn bit(b: u8) -> Option<u64>
    ensures { result ≡ cond (is_bit b) (Some (b - 48)) None }
{
    match b {
        b'0' => Some(0),
        b'1' => Some(1),
        _ => None,
    }
}

// The binary digits as far as they are a number below 2^64.
fn bits_ahead(s: &[u8]) -> u64
    ensures { result ≡ bits_ahead 0 s.now }
{
    let mut v = 0;
    for b in s {
        let Some(d) = bit(*b) else {
            return v;
        };
        if HALF <= v {
            return v;
        }
        v = v * 2 + d;
    }
    v
}

fn rc_ahead(was: u64, s: &[u8]) -> u64
    ensures { result ≡ rc_ahead was s.now }
{
    if first(s) == b'b' {
        return bits_ahead(behind(s, 1));
    }
    was
}

// The signals that the lines ahead say; one that has no line is as it was.
pub(crate) fn signals_ahead(was: Signals, s: &[u8]) -> Signals
    ensures { result ≡ signals_ahead was s.now }
{
    match bit(first(s)) {
        Some(exc) => Signals {
            exc,
            rc: rc_ahead(was.rc, behind(s, 3)),
        },
        None => Signals {
            rc: rc_ahead(was.rc, s),
            ..was
        },
    }
}
