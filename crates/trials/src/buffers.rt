// Buffers that hold a pattern before an entry is asked, so that any place it changes is seen.
use crate::cells::narrow;
use crate::draw::mix;

// What stands at a place before an entry is asked.
pub trait Pattern: Copy + PartialEq {
    fn pattern(i: usize) -> Self;
}

// Words of sets.
impl Pattern for u64 {
    fn pattern(i: usize) -> u64 {
        mix(i as u64)
    }
}

// Numbers of tuples. 32,768 and more: no number of a row, so that a row written there is always seen.
impl Pattern for u16 {
    fn pattern(i: usize) -> u16 {
        narrow(i % 251 + 32768)
    }
}

pub fn fill<T: Pattern>(s: &mut [T]) {
    for (i, x) in s.iter_mut().enumerate() {
        *x = T::pattern(i);
    }
}

// From one place on all are as they were.
pub fn kept<T: Pattern>(s: &[T], from: usize) -> bool {
    s.iter()
        .enumerate()
        .skip(from)
        .all(|(i, x)| *x == T::pattern(i))
}

// The words up to one, not including it, are zero; there are so many.
pub fn zero(s: &[u64], to: usize) -> bool {
    to <= s.len() && s.iter().take(to).all(|word| *word == 0)
}
