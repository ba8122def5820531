// Plain decimal numbers below 2^64 without needless zeros.
ghost use Rattle.std.specs.Prelude.{◌≡◌};
ghost use Rattle.scenario_lines.specs.Number.{number, scan, more};

// The number that a whole text is.
#[tactic(auto, using(crate::proofs::Scans::number_none, crate::proofs::Scans::number_zero, crate::proofs::Scans::number_needless, crate::proofs::Scans::number_scan))]
pub fn parse_number(s: &[u8]) -> Option<u64>
    ensures { result ≡ number s.now }
{
    match s {
        [] => None,
        b"0" => Some(0),
        [b'0', ..] => None,
        _ => scan_digits(s),
    }
}

#[tactic(auto, using(crate::proofs::Scans::scan_no, crate::proofs::Scans::scan_is, crate::proofs::Scans::scan_over))]
fn scan_digits(s: &[u8]) -> Option<u64>
    ensures { result ≡ scan 0 s.now }
{
    let mut v: u64 = 0;
    for b in s {
        v = one_more(v, *b)?;
    }
    Some(v)
}

// v with the digit b after it.
#[tactic(auto, unfolding(crate::specs::Number::more))]
pub fn one_more(v: u64, b: u8) -> Option<u64>
    ensures { result ≡ more v b }
{
    if !b.is_ascii_digit() {
        return None;
    }
    v.checked_mul(10)?.checked_add(u64::from(b - b'0'))
}
