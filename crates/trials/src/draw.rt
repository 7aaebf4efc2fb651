// Numbers that look drawn by chance and are the same in every run.

pub fn mix(x: u64) -> u64 {
    let a = (!x).wrapping_add(x << 21);
    let b = a ^ (a >> 24);
    let c = b.wrapping_add(b << 3).wrapping_add(b << 8);
    let d = c ^ (c >> 14);
    let e = d.wrapping_add(d << 2).wrapping_add(d << 4);
    let f = e ^ (e >> 28);
    f.wrapping_add(f << 31)
}

// Number k of a case: one of 0 to limit - 1.
pub fn draw(case: u64, k: usize, limit: usize) -> usize {
    if limit == 0 {
        return 0;
    }
    let x = mix(mix(case).wrapping_add(k as u64)) as usize;
    x % limit
}
