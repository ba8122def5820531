// A word of a thread's script, out of the lists that are lent.
ghost use Rattle.std.specs.Prelude.{◌≡◌, ◌+◌, get_or};
ghost use Rattle.machine.specs.Lists.{start};

// The word at script place `at` of thread i. Past the end of the list all words are 0, so that a start past it may be cut there.
pub fn word_of(lens: &[u64], words: &[u64], i: u64, at: u64) -> u64
    ensures { result ≡ get_or words.now (start lens.now i + at) 0 }
{
    let start = lock_scripts::start_of(lens, i, words.len() as u64);
    lock_scripts::word_at(words, start, at)
}
