// Two trees of 1,024 rows, where what is left can be told without trying.
use crate::ask::ask;
use meaning::Query;
use trials::buffers::{fill, kept};
use trials::cells::{total, wrong};
use trials::queries::{carries, two};
use trials::questions::Question;
use trials::trees::{set_chain, set_flat};

// All rows of a word; all but the first, but the first two, but the last; the first alone; the last alone.
const ALL: u64 = u64::MAX;

const NOT_FIRST: u64 = 0xFFFF_FFFF_FFFF_FFFE;

const NOT_FIRST_TWO: u64 = 0xFFFF_FFFF_FFFF_FFFC;

const NOT_LAST: u64 = 0x7FFF_FFFF_FFFF_FFFF;

const LAST: u64 = 0x8000_0000_0000_0000;

// The strikings, and the first and the last word of each of two variables, each row labelled with its post number. Where
// the missing rows of these words are as many as the strikings, all other rows are there.
fn leaves(post: &[u16], q: Query, strikings: u64, first: [u64; 2], second: [u64; 2]) -> u64 {
    let mut s = [0; 40];
    fill(&mut s);
    let told = ask(Question::of(post, post, q), &mut s, 32);
    let right = [s[0], s[15]] == first && [s[16], s[31]] == second;
    wrong(told == Some(Ok(strikings)) && right && kept(&s, 32))
}

// The last row has none below it, the first none above it, and no row a sibling or one that follows.
fn on_chain(post: &[u16]) -> u64 {
    let child = leaves(post, two(0, 0, 1), 2, [ALL, NOT_LAST], [NOT_FIRST, ALL]);
    let below = leaves(post, two(1, 1, 0), 2, [NOT_FIRST, ALL], [ALL, NOT_LAST]);
    let same = leaves(post, two(2, 0, 1), 0, [ALL, ALL], [ALL, ALL]);
    let next = leaves(post, two(3, 0, 1), 2048, [0, 0], [0, 0]);
    let follow = leaves(post, two(6, 0, 1), 2048, [0, 0], [0, 0]);
    total(&[child, below, same, next, follow])
}

// Row 0 has 1,023 children. Of these only the last has no next one, and only the first none before it.
fn on_flat(post: &[u16]) -> u64 {
    let child = leaves(post, two(0, 0, 1), 1024, [1, 0], [NOT_FIRST, ALL]);
    let next = leaves(
        post,
        two(3, 0, 1),
        4,
        [NOT_FIRST, NOT_LAST],
        [NOT_FIRST_TWO, ALL],
    );
    let later = leaves(
        post,
        two(4, 1, 0),
        4,
        [NOT_FIRST_TWO, ALL],
        [NOT_FIRST, NOT_LAST],
    );
    let same = leaves(post, two(5, 0, 1), 0, [ALL, ALL], [ALL, ALL]);
    let follow = leaves(
        post,
        two(6, 0, 1),
        4,
        [NOT_FIRST, NOT_LAST],
        [NOT_FIRST_TWO, ALL],
    );
    total(&[child, next, later, same, follow])
}

// The last row alone has post number 1022, here taken for its label: it follows all other children and is not struck.
fn on_last(post: &[u16]) -> u64 {
    let mut q = two(6, 0, 1);
    q.label_count = 1;
    q.labels[0] = carries(1, 1022);
    leaves(post, q, 2, [NOT_FIRST, NOT_LAST], [0, LAST])
}

pub(crate) fn chain() -> u64 {
    let mut post = [0; 1024];
    set_chain(&mut post);
    on_chain(&post)
}

pub(crate) fn flat() -> u64 {
    let mut post = [0; 1024];
    set_flat(&mut post);
    total(&[on_flat(&post), on_last(&post)])
}
