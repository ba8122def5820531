// The declared types of the question why a thread waits: the reason, with who stands in the way, and what is answered in numbers. What each means
// stands in specs/.
#![tactic(auto)]

// Why a thread is waiting, or that it is not. Beside the flag and the readers stands who is in the way: a record, by its number, or none, where only
// dropped handles are.
#[derive(Clone, Copy)]
pub enum Reason {
    NotWaiting,
    CountFull,
    // The count is not what the thread saw.
    CountChanged,
    // The flag is up, and who holds it.
    Flag(Option<u64>),
    // Readers are counted, and the lowest-numbered of them.
    Readers(Option<u64>),
}

// What is answered, a reason or a refusal of the call or, by its number alone, of the next step, in numbers: the refusal's or 0, the reason's, and
// that of the record beside it.
#[derive(Clone, Copy)]
pub struct Numbers {
    pub answer: u64,
    pub reason: u64,
    pub who: u64,
}
