// Each refusal from both sides of its limit, the lowest of several, and the words of the buffer.
use crate::ask::{pruned, refused};
use meaning::Query;
use trials::cells::total;
use trials::queries::{alike, axis, carries, free, two};
use trials::questions::Question;
use trials::trees::set_chain;

// Asked of the table of one row with a buffer that is long enough.
fn one_refused(q: Query, no: u8) -> u64 {
    refused(Question::of(&[0], &[0], q), 20, no)
}

fn one_pruned(q: Query, strikings: u64, used: usize) -> u64 {
    pruned(Question::of(&[0], &[0], q), 20, strikings, used)
}

fn no_row(column: &[u16]) -> u64 {
    let none = &column[..0];
    refused(Question::of(none, none, free(1)), 20, 1)
}

// Refusal 1: unequal columns, no row; one and two rows are fine.
pub(crate) fn columns() -> u64 {
    let two = [1, 0];
    let one = [0];
    let a = refused(Question::of(&two, &one, free(1)), 20, 1);
    let b = refused(Question::of(&one, &two, free(1)), 20, 1);
    let c = no_row(&one);
    let d = pruned(Question::of(&one, &one, free(1)), 20, 0, 1);
    let e = pruned(Question::of(&two, &two, free(1)), 20, 0, 1);
    total(&[a, b, c, d, e])
}

// Refusal 1: 1,024 rows are accepted and take 16 words, 1,025 are refused.
pub(crate) fn most_rows() -> u64 {
    let mut most = [0; 1024];
    let mut more = [0; 1025];
    set_chain(&mut most);
    set_chain(&mut more);
    let a = pruned(Question::of(&most, &most, free(1)), 300, 0, 16);
    let b = refused(Question::of(&more, &more, free(1)), 300, 1);
    let c = refused(Question::of(&most, &more, free(1)), 300, 1);
    total(&[a, b, c])
}

fn table(post: &[u16], no: u8) -> u64 {
    refused(Question::of(post, post, free(1)), 20, no)
}

fn tree(post: &[u16]) -> u64 {
    pruned(Question::of(post, post, free(1)), 20, 0, 1)
}

// Refusal 2: a number not there, one twice, one too large, the first row not last.
pub(crate) fn post_numbers() -> u64 {
    let a = table(&[1, 2, 0], 2);
    let b = table(&[2, 0, 0], 2);
    let c = table(&[3, 0, 1], 2);
    let d = table(&[65535], 2);
    let e = table(&[0, 1], 2);
    let f = tree(&[2, 0, 1]);
    let g = tree(&[2, 1, 0]);
    total(&[a, b, c, d, e, f, g])
}

// Refusal 3: three rows a < b < c with post(c) < post(a) < post(b), and columns near them that are trees.
pub(crate) fn three_rows() -> u64 {
    let a = table(&[3, 1, 2, 0], 3);
    let b = table(&[4, 1, 2, 0, 3], 3);
    let c = tree(&[3, 2, 1, 0]);
    let d = tree(&[3, 0, 2, 1]);
    let e = tree(&[3, 1, 0, 2]);
    total(&[a, b, c, d, e])
}

// Refusal 4: variables.
pub(crate) fn variables() -> u64 {
    let a = one_refused(free(0), 4);
    let b = one_pruned(free(1), 0, 1);
    let c = one_pruned(free(16), 0, 16);
    let d = one_refused(free(17), 4);
    let e = one_refused(free(usize::MAX), 4);
    total(&[a, b, c, d, e])
}

// Refusal 4: head, label conditions, axis conditions. No row carries label 5, so nothing is left to strike; Child* of a
// row and itself strikes nothing.
pub(crate) fn counts() -> u64 {
    let c = axis(2, 0, 1);
    let d = one_pruned(alike(9, 8, 0, 0, c), 0, 9);
    let e = one_refused(alike(9, 9, 0, 0, c), 4);
    let f = one_pruned(alike(1, 0, 32, 0, c), 0, 1);
    let g = one_refused(alike(1, 0, 33, 0, c), 4);
    let h = one_pruned(alike(2, 0, 0, 32, c), 0, 2);
    let i = one_refused(alike(2, 0, 0, 33, c), 4);
    total(&[d, e, f, g, h, i])
}

// Refusal 5: codes and variables of axis conditions. Following strikes the one row from both variables, Child* neither.
pub(crate) fn axis_names() -> u64 {
    let a = one_pruned(two(6, 0, 1), 2, 2);
    let b = one_refused(two(7, 0, 1), 5);
    let c = one_refused(two(255, 0, 1), 5);
    let d = one_pruned(two(2, 1, 1), 0, 2);
    let e = one_refused(two(2, 2, 1), 5);
    let f = one_refused(two(2, 1, 2), 5);
    total(&[a, b, c, d, e, f])
}

// Refusal 5: variables of label conditions and of the head. What stands past a count is not looked at.
pub(crate) fn other_names() -> u64 {
    let mut q = alike(2, 0, 1, 0, axis(255, 255, 255));
    q.labels[0] = carries(1, 0);
    let a = one_pruned(q, 0, 2);
    q.labels[0] = carries(2, 0);
    let b = one_refused(q, 5);
    let mut h = alike(8, 8, 0, 0, axis(255, 255, 255));
    let c = one_pruned(h, 0, 8);
    let d = one_refused(alike(7, 8, 0, 0, axis(0, 0, 0)), 5);
    h.head[7] = 0;
    let e = one_refused(h, 5);
    total(&[a, b, c, d, e])
}

// Two conditions on one row with these axes.
fn both(a: u8, b: u8) -> Query {
    let mut q = alike(2, 0, 0, 2, axis(a, 0, 1));
    q.axes[1] = axis(b, 0, 1);
    q
}

// Refusal 6: axes of two sets.
pub(crate) fn mixed() -> u64 {
    let a = one_refused(both(1, 6), 6);
    let b = one_refused(both(6, 1), 6);
    let c = one_refused(both(1, 0), 6);
    let d = one_refused(both(0, 2), 6);
    let e = one_refused(both(2, 3), 6);
    let f = one_refused(both(6, 4), 6);
    let g = one_refused(both(5, 6), 6);
    total(&[a, b, c, d, e, f, g])
}

// Axes of one set: only Child* and NextSibling* lead from a row to itself, any other strikes both rows.
pub(crate) fn of_one_set() -> u64 {
    let a = one_pruned(both(1, 2), 2, 2);
    let b = one_pruned(both(2, 2), 0, 2);
    let c = one_pruned(both(6, 6), 2, 2);
    let d = one_pruned(both(0, 3), 2, 2);
    let e = one_pruned(both(5, 4), 2, 2);
    let f = one_pruned(both(5, 5), 0, 2);
    total(&[a, b, c, d, e, f])
}

// Refusal 9 for v variables on a chain of some rows: one word short, just enough, and more.
fn words_for(post: &[u16], v: usize, needed: usize) -> u64 {
    if needed == 0 {
        return 1;
    }
    let a = refused(Question::of(post, post, free(v)), needed - 1, 9);
    let b = refused(Question::of(post, post, free(v)), 0, 9);
    let c = pruned(Question::of(post, post, free(v)), needed, 0, needed);
    let d = pruned(Question::of(post, post, free(v)), 300, 0, needed);
    total(&[a, b, c, d])
}

pub(crate) fn words() -> u64 {
    let mut one = [0; 1];
    let mut full = [0; 64];
    let mut next = [0; 65];
    let mut most = [0; 1024];
    set_chain(&mut one);
    set_chain(&mut full);
    set_chain(&mut next);
    set_chain(&mut most);
    let a = words_for(&one, 1, 1);
    let b = words_for(&full, 3, 3);
    let c = words_for(&next, 3, 6);
    let d = words_for(&most, 16, 256);
    total(&[a, b, c, d])
}

// Where several apply the lowest number is given: from line to line one cause less.
fn lowest_of_table() -> u64 {
    let all = alike(17, 9, 33, 2, axis(9, 17, 17));
    let a = refused(Question::of(&[4, 1, 2, 0, 0], &[0, 0], all), 0, 1);
    let b = refused(Question::of(&[4, 1, 2, 0, 0], &[0, 0, 0, 0, 0], all), 0, 2);
    let c = refused(Question::of(&[4, 1, 2, 0, 3], &[0, 0, 0, 0, 0], all), 0, 3);
    let d = refused(Question::of(&[0], &[0], all), 0, 4);
    total(&[a, b, c, d])
}

fn lowest_of_query() -> u64 {
    let one = [0];
    let mut q = both(1, 6);
    q.head_count = 2;
    q.head[1] = 0;
    let e = refused(Question::of(&one, &one, q), 0, 5);
    q.head[1] = 1;
    let f = refused(Question::of(&one, &one, q), 0, 6);
    let g = refused(Question::of(&one, &one, both(1, 2)), 0, 9);
    let h = refused(Question::of(&one, &one, both(1, 2)), 1, 9);
    total(&[e, f, g, h])
}

pub(crate) fn lowest() -> u64 {
    total(&[lowest_of_table(), lowest_of_query()])
}
