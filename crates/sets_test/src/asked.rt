// The functions of sets, asked with any numbers: what they require is tested first. Where one may not be asked it says
// nothing, and changes nothing; such a set has no words and no row.

pub(crate) fn width(n: usize) -> usize {
    if n <= 1024 { sets::width(n) } else { 0 }
}

pub(crate) fn has(s: &[u64], at: usize, r: usize) -> bool {
    at < s.len() && r / 64 < s.len() - at && sets::has(s, at, r)
}

pub(crate) fn add(s: &mut [u64], at: usize, r: usize) {
    if at < s.len() && r / 64 < s.len() - at {
        sets::add(s, at, r);
    }
}

pub(crate) fn strike(s: &mut [u64], at: usize, r: usize) {
    if at < s.len() && r / 64 < s.len() - at {
        sets::strike(s, at, r);
    }
}

pub(crate) fn size(s: &[u64], at: usize, w: usize) -> Option<usize> {
    if w <= 256 && at <= s.len() && w <= s.len() - at {
        return Some(sets::size(s, at, w));
    }
    None
}

pub(crate) fn smallest(s: &[u64], at: usize, w: usize) -> Option<usize> {
    if w <= 256 && at <= s.len() && w <= s.len() - at {
        return Some(sets::smallest(s, at, w));
    }
    None
}

pub(crate) fn smallest_by(s: &[u64], at: usize, n: usize, keys: &[u32]) -> Option<usize> {
    if n <= 1024 && n <= keys.len() && at <= s.len() && sets::width(n) <= s.len() - at {
        return Some(sets::smallest_by(s, at, n, keys));
    }
    None
}

pub(crate) fn next(s: &[u64], at: usize, from: usize, w: usize) -> Option<usize> {
    if w <= 256 && at <= s.len() && w <= s.len() - at && from <= w * 64 {
        return Some(sets::next(s, at, from, w));
    }
    None
}

pub(crate) fn add_range(s: &mut [u64], a: usize, b: usize) {
    if a <= b && b <= 1024 && sets::width(b) <= s.len() {
        sets::add_range(s, a, b);
    }
}

pub(crate) fn fill(s: &mut [u64], at: usize, n: usize) {
    if n <= 1024 && at <= s.len() && sets::width(n) <= s.len() - at {
        sets::fill(s, at, n);
    }
}

pub(crate) fn keep(s: &mut [u64], at: usize, mask: &[u64], w: usize) -> Option<bool> {
    if w <= mask.len() && at <= s.len() && w <= s.len() - at {
        return Some(sets::keep(s, at, mask, w));
    }
    None
}

pub(crate) fn keep_label(s: &mut [u64], at: usize, n: usize, label: &[u16], l: u16) {
    if n <= 1024 && n <= label.len() && at <= s.len() && sets::width(n) <= s.len() - at {
        sets::keep_label(s, at, n, label, l);
    }
}

pub(crate) fn keep_after(s: &mut [u64], at: usize, n: usize, keys: &[u32], own: u32) {
    if n <= 1024 && n <= keys.len() && at <= s.len() && sets::width(n) <= s.len() - at {
        sets::keep_after(s, at, n, keys, own);
    }
}

pub(crate) fn clear(s: &mut [u64], k: usize) {
    if k <= s.len() {
        sets::clear(s, k);
    }
}
