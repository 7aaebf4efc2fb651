// Table D of document 01 and its queries, worked out by hand.
use crate::ask::{ask, leaves, pruned};
use meaning::Query;
use trials::buffers::{fill, kept};
use trials::cells::{total, wrong};
use trials::queries::{alike, axis, carries, free, two};
use trials::questions::Question;
use trials::trees::set_chain;

// The rows of D are S NP DT NN VP VBD PP IN NP NN. Label 0 stands for NP (rows 1 and 8), label 1 for NN (rows 3 and 9).
const POST: [u16; 10] = [9, 2, 0, 1, 8, 3, 7, 4, 6, 5];

const LABEL: [u16; 10] = [65535, 0, 65535, 1, 65535, 65535, 65535, 65535, 0, 1];

fn on_d(q: Query, strikings: u64, first: u64, second: u64) -> u64 {
    leaves(Question::of(&POST, &LABEL, q), strikings, first, second)
}

// NP(x), Child+(x,y), NN(y): x starts with 1 and 8, y with 3 and 9. Row 3 is below 1 and 9 below 8: nothing is struck.
// NP(y), Following(y,x): y starts with 1 and 8, x with all ten. Row 1 (post 2) is followed by 4 to 9, row 8 (post 6) by
// none, so 8 is struck from y, and 0 to 3 from x: five.
// Child(y,x): row 0 has no parent; rows 0, 1, 4, 6 and 8 have children: one and five are struck.
pub(crate) fn sentence() -> u64 {
    let mut a = two(1, 0, 1);
    a.label_count = 2;
    a.labels[0] = carries(0, 0);
    a.labels[1] = carries(1, 1);
    let mut b = two(6, 1, 0);
    b.label_count = 1;
    b.labels[0] = carries(1, 0);
    let c = two(0, 1, 0);
    let x = on_d(a, 0, 258, 520);
    let y = on_d(b, 5, 1008, 2);
    let z = on_d(c, 6, 1022, 339);
    total(&[x, y, z])
}

// One axis from x to x; the other variable is free and keeps its ten rows.
fn itself(code: u8, strikings: u64, left: u64) -> u64 {
    on_d(alike(2, 0, 0, 1, axis(code, 0, 0)), strikings, left, 1023)
}

// Child* and NextSibling* lead from each row to itself. Along any other axis rows get larger, so that the last row that
// is left always lacks a partner: nothing stays.
pub(crate) fn loops() -> u64 {
    let a = itself(0, 10, 0);
    let b = itself(1, 10, 0);
    let c = itself(2, 0, 1023);
    let d = itself(3, 10, 0);
    let e = itself(4, 10, 0);
    let f = itself(5, 0, 1023);
    let g = itself(6, 10, 0);
    total(&[a, b, c, d, e, f, g])
}

// No row carries label 7, so y is empty from the start: every row of x lacks a partner.
fn with_none(code: u8, first: u8, second: u8) -> u64 {
    let mut q = two(code, first, second);
    q.label_count = 1;
    q.labels[0] = carries(1, 7);
    on_d(q, 10, 0, 0)
}

// Four variables.
fn more_on_d(q: Query, strikings: u64) -> u64 {
    pruned(Question::of(&POST, &LABEL, q), 20, strikings, 4)
}

// x0 is empty from the start. Following(x0,x1) comes last of three, so that x1 loses its rows after the other conditions were
// looked at once, then x2 in a second round and x3 in a third: ten rows each.
fn along() -> u64 {
    let mut q = free(4);
    q.label_count = 1;
    q.labels[0] = carries(0, 7);
    q.axis_count = 3;
    q.axes[0] = axis(6, 2, 3);
    q.axes[1] = axis(6, 1, 2);
    q.axes[2] = axis(6, 0, 1);
    more_on_d(q, 30)
}

// Child(x,y) with y empty from the start, and apart from them Child(z,u): x loses ten rows; z, which needs a child, five;
// u, which needs a parent, one.
fn apart() -> u64 {
    let mut q = free(4);
    q.label_count = 1;
    q.labels[0] = carries(1, 7);
    q.axis_count = 2;
    q.axes[0] = axis(0, 0, 1);
    q.axes[1] = axis(0, 2, 3);
    more_on_d(q, 16)
}

pub(crate) fn empty() -> u64 {
    let a = with_none(1, 0, 1);
    let b = with_none(2, 1, 0);
    let c = with_none(5, 0, 1);
    let d = with_none(6, 1, 0);
    total(&[a, b, c, d, along(), apart()])
}

// 32 conditions on 16 variables: Child+ from x0 to x1 31 times, and then Child+ from x14 to x15. On a chain of 16 rows x0
// and x14 lose the last row, x1 and x15 the first; the others are free.
pub(crate) fn sixteen() -> u64 {
    let mut post = [0; 16];
    set_chain(&mut post);
    let mut q = alike(16, 0, 0, 32, axis(1, 0, 1));
    q.axes[31] = axis(1, 14, 15);
    let mut s = [0; 20];
    fill(&mut s);
    let told = ask(Question::of(&post, &post, q), &mut s, 16);
    let low = s[0] == 0x7FFF && s[1] == 0xFFFE && s[13] == 0xFFFF;
    let high = s[14] == 0x7FFF && s[15] == 0xFFFE;
    wrong(told == Some(Ok(4)) && low && high && kept(&s, 16))
}

// 32 label conditions, of which only the last names the second variable: rows 0 and 1 carry label 5.
pub(crate) fn labels() -> u64 {
    let mut q = alike(2, 0, 32, 0, axis(0, 0, 0));
    q.labels[31] = carries(1, 5);
    leaves(Question::of(&[2, 0, 1], &[5, 5, 0], q), 0, 3, 3)
}
