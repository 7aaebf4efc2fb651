// Trees made row by row, and their post numbers.
use crate::cells::{at, narrow, put};
use crate::draw::draw;

// The level of row i, which in pre-order hangs on the row before it or on a row above that one. How far up it may hang is
// the same for all rows of a case: 0 steps make a chain, 50 nearly always a flat tree of a few rows.
fn level(case: u64, levels: &[u16], i: usize) -> u16 {
    if i == 0 {
        return 0;
    }
    let before = usize::from(at(levels, i - 1));
    let up = draw(case, i.wrapping_add(2000), reach(case));
    if before <= up {
        return 1;
    }
    narrow(before - up + 1)
}

fn reach(case: u64) -> usize {
    match draw(case, 1, 6) {
        0 => 1,
        1 => 2,
        2 => 3,
        3 => 4,
        4 => 7,
        _ => 50,
    }
}

// The first row behind row r and the rows below it.
fn end(levels: &[u16], r: usize, n: usize) -> usize {
    (0..n)
        .find(|i| r < *i && at(levels, *i) <= at(levels, r))
        .unwrap_or(n)
}

// The post number is the row number plus the rows below minus the level: with the end, the end less one less the level.
fn post_of(levels: &[u16], r: usize, n: usize) -> u16 {
    narrow(end(levels, r, n))
        .wrapping_sub(1)
        .wrapping_sub(at(levels, r))
}

// The post column of a tree of 128 rows at most.
pub fn set_posts(case: u64, post: &mut [u16]) {
    let n = post.len();
    let mut levels = [0u16; 128];
    for i in 0..n {
        let l = level(case, &levels, i);
        put(&mut levels, i, l);
    }
    for (r, number) in post.iter_mut().enumerate() {
        *number = post_of(&levels, r, n);
    }
}

// Labels out of a few: 0, 1 and 65535.
pub fn label_of(k: usize) -> u16 {
    if k == 2 { u16::MAX } else { narrow(k) }
}

pub fn set_labels(case: u64, label: &mut [u16]) {
    let limit = draw(case, 2, 3).wrapping_add(1);
    for (i, l) in label.iter_mut().enumerate() {
        *l = label_of(draw(case, i.wrapping_add(5000), limit));
    }
}

// A flat tree: the first row has the last post number, the others count up from 0.
pub fn set_flat(post: &mut [u16]) {
    if let Some((first, others)) = post.split_first_mut() {
        *first = narrow(others.len());
        for (i, number) in others.iter_mut().enumerate() {
            *number = narrow(i);
        }
    }
}

// A chain: post numbers down to 0.
pub fn set_chain(post: &mut [u16]) {
    for (i, number) in post.iter_mut().rev().enumerate() {
        *number = narrow(i);
    }
}
