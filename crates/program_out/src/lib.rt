// What the programs of the command share that print: where their text goes, what became of it, and the status that they end with.
#![tactic(auto)]

ghost use Rattle.std.specs.Prelude.{◌≡◌};
ghost use Rattle.program_out.specs.Written.{lost_by, written_by, status_of};

use std::io::{self, ErrorKind, Stderr, Stdout};

// The status that a shell gives a program which is ended since nobody reads its output any more.
const UNREAD: u8 = 141;

// Where the text goes, and where it is said what is wrong.
#[derive(Clone, Copy)]
pub struct Outputs {
    pub out: Stdout,
    pub err: Stderr,
    // What is said where some of the text could not be written.
    pub cut: &'static [u8],
}

// Why text that was to be written did not all go out.
#[derive(Clone, Copy, PartialEq, Eq)]
pub enum Lost {
    // Some of it could not be written.
    Cut,
    // Whoever read it has gone.
    Unread,
}

impl From<ErrorKind> for Lost {
    ghost from_gives = { λ why lost. lost ≡ lost_by why };

    fn from(why: ErrorKind) -> Lost {
        match why {
            ErrorKind::BrokenPipe => Lost::Unread,
            _ => Lost::Cut,
        }
    }
}

impl Outputs {
    // What became of a write, by what it answered. Where some of the text could not be written, that is said. Whoever has gone does not want to hear
    // of it.
    pub fn judge(self, answer: io::Result<()>) -> Result<(), Lost>
        ensures { result ≡ written_by answer }
    {
        let Err(why) = answer else {
            return Ok(());
        };
        let lost = Lost::from(why.kind());
        if lost == Lost::Cut {
            let _ = self.err.write_all(self.cut);
        }
        Err(lost)
    }
}

// The status that a program ends with: what it could not write it has said, and ends as else.
pub fn status(written: Result<(), Lost>) -> u8
    ensures { result ≡ status_of written }
{
    match written {
        Err(Lost::Unread) => UNREAD,
        _ => 0,
    }
}
