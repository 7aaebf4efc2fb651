// One place of a column, read and written, and numbers made narrower.

// Any place may be asked for: past the end 0 is read, where a test would else have a case that never comes.
pub fn at<T: Copy + Default>(a: &[T], i: usize) -> T {
    a.get(i).copied().unwrap_or_default()
}

// Past the end nothing is written.
pub fn put<T: Copy>(a: &mut [T], i: usize, x: T) {
    if let Some(place) = a.get_mut(i) {
        *place = x;
    }
}

pub fn byte(x: usize) -> u8 {
    u8::try_from(x).unwrap_or(u8::MAX)
}

pub fn narrow(x: usize) -> u16 {
    u16::try_from(x).unwrap_or(u16::MAX)
}

// 0 where all is right, 1 where not.
pub fn wrong(right: bool) -> u64 {
    u64::from(!right)
}

// How many are wrong together; the sum would wrap.
pub fn total(wrong: &[u64]) -> u64 {
    wrong.iter().fold(0, |all, n| all.wrapping_add(*n))
}
