// The declared types of the lock machine: places, records, the lock, rows, and refusals. What a step, a setup, a run and a
// drain mean stands in specs/.
#![tactic(auto)]

use atomic::Count;
use cell::pred::Pred;

// Where a thread stands inside its present operation.
#[derive(Clone, Copy, PartialEq, Eq)]
pub enum Place {
    Idle,
    ReadTry,
    ReadCheck,
    ReadBack,
    Reading,
    WriteWait,
    WriteTake,
    Writing,
    WritePut,
}

// A thread's record.
#[derive(Clone, Copy)]
pub struct Rec {
    // The script place: how many operations of the script are done.
    pub at: u64,
    pub place: Place,
    // What the load of the count got, at ReadTry; 0 everywhere else.
    pub seen: Count,
    // What the take got, at Writing; 0 everywhere else.
    pub taken: u64,
}

#[derive(Clone, Copy)]
pub struct Lock {
    // The flag.
    pub exc: bool,
    // The count of readers.
    pub rc: Count,
    // What is in the cell.
    pub cell: Option<u64>,
    pub pred: Pred,
    // The top of the count, M.
    pub top: Count,
    // Read and write handles that were dropped.
    pub reads: Count,
    pub writes: Count,
    // The thread that has begun into_inner.
    pub mover: Option<u64>,
    // into_inner has taken the value.
    pub finished: bool,
}

// What an accepted step leaves: the lock and the thread's own record, with the access made and the value got.
#[derive(Clone, Copy)]
pub struct Did {
    pub lock: Lock,
    pub rec: Rec,
    pub access: u64,
    pub got: u64,
}

// The scripts as they are lent: a length for each thread; the operations of all threads, one script after the other; their values in the
// same order.
#[derive(Clone, Copy)]
pub struct Lists<'a> {
    pub lens: &'a [u64],
    pub ops: &'a [u64],
    pub vals: &'a [u64],
}

// The words of a row.
pub const ROW_WORDS: usize = 6;

// A row of the trace.
#[derive(Clone, Copy)]
pub struct Row {
    pub thread: u64,
    pub access: u64,
    pub answer: u64,
    pub got: u64,
    pub exc: u64,
    pub rc: u64,
}

// A refusal of setup, run or drain: its number, 0 for none, and the thread and the script place beside it.
#[derive(Clone, Copy)]
pub struct Refusal {
    pub number: u64,
    pub thread: u64,
    pub place: u64,
}
