// Lists as the replays look at them. Nothing is asked of a place or a length: what lies past a list is none of it.
ghost use Rattle.std.specs.Prelude.{◌+◌, ◌≡◌, get_or, drop};
ghost use Rattle.scenario_lines.specs.Judge.{equal};
ghost use Rattle.replay.specs.Lists.{part_of, place_from, front_then};

// The number at a place, 0 where there is none.
pub fn word(list: &[u64], at: usize) -> u64
    ensures { result ≡ get_or list.now at 0 }
{
    or_at(list, at, 0)
}

// What stands from a place up to another, nothing where that lies past the end.
pub fn part<T>(list: &[T], from: usize, to: usize) -> &[T]
    ensures { result.now ≡ part_of from to list.now }
{
    if to > list.len() || from > to {
        return &list[..0];
    }
    &list[from..to]
}

// Where a byte stands first from a place on; the list's end, or that place past it, where it does not.
pub fn find(list: &[u8], from: usize, b: u8) -> usize
    ensures { result ≡ place_from b from list.now }
{
    for i in from..list.len() {
        if list[i] == b {
            return i;
        }
    }
    list.len().max(from)
}

// Whether two lists are the same list.
#[tactic(auto, using(crate::proofs::Scans::same_so))]
pub fn is_same(s: &[u64], t: &[u64]) -> bool
    ensures { result ≡ equal s.now t.now }
{
    s == t
}

// Whether a list starts with these bytes and is the other byte from there on, as it was before a call that wrote them.
pub fn is_front(list: &[u8], front: &[u8], other: u8) -> bool
    ensures { result ≡ front_then other list.now front.now }
{
    if front.len() > list.len() {
        return false;
    }
    for i in 0..list.len() {
        if list[i] != or_at(front, i, other) {
            return false;
        }
    }
    true
}

// The same of numbers. Two functions, since `front_then`, of which `FrontAndRest` speaks, compares numbers, and a bound's `==` need not.
pub fn are_front(list: &[u64], front: &[u64], other: u64) -> bool
    ensures { result ≡ front_then other list.now front.now }
{
    if front.len() > list.len() {
        return false;
    }
    for i in 0..list.len() {
        if list[i] != or_at(front, i, other) {
            return false;
        }
    }
    true
}

fn or_at<T: Copy>(list: &[T], at: usize, other: T) -> T
    ensures { result ≡ get_or list.now at other }
{
    if at < list.len() { list[at] } else { other }
}
