// The declared types of waveforms: the signals, where a text stands, what is found in a file, and why a call is refused. What a waveform is, and
// what its writer and its reader answer, stands in specs/.
#![tactic(auto)]

ghost use Rattle.std.specs.Prelude.{◌≡◌};
ghost use Rattle.vcd.specs.Refusals.{number_of};

// The flag and the count, as numbers.
#[derive(Clone, Copy, PartialEq, Eq)]
pub struct Signals {
    pub exc: u64,
    pub rc: u64,
}

// Where the text of a waveform stands: the time of the last row, the last time that is written, and the signals.
#[derive(Clone, Copy)]
pub struct Wave {
    pub time: u64,
    pub written: u64,
    pub signals: Signals,
}

// A block that may stand at a place of the file: its time, the signals after it, and its length.
#[derive(Clone, Copy)]
pub struct Block {
    pub time: u64,
    pub signals: Signals,
    pub len: usize,
}

// Why nothing was written, or read.
#[derive(Clone, Copy, PartialEq, Eq)]
pub enum Refusal {
    // What is written has no room.
    NoRoom,
    // The file is not the waveform of any signals.
    NoWave,
    // The trace has no whole rows, or an exc is above 1.
    NoTrace,
}

// The number that is printed.
impl From<Refusal> for u64 {
    ghost from_gives = { λ why n. n ≡ number_of why };

    fn from(why: Refusal) -> u64 {
        match why {
            Refusal::NoRoom => 41,
            Refusal::NoWave => 42,
            Refusal::NoTrace => 43,
        }
    }
}
