// Table D of document 01 and its queries; the costs that the document does not give are worked out by hand.
use crate::ask::listing;
use crate::heads::with_head;
use crate::judge::{after_in, list_in, yes_no};
use meaning::Ending::{Finished, Full, Spent};
use meaning::{Listing, Query};
use trials::cells::total;
use trials::queries::{alike, axis, carries, free, two};
use trials::questions::Question;

const MOST: u64 = u64::MAX;

// The rows of D are S NP DT NN VP VBD PP IN NP NN. Label 0 stands for NP (rows 1 and 8), label 1 for NN (rows 3 and 9).
const POST: [u16; 10] = [9, 2, 0, 1, 8, 3, 7, 4, 6, 5];

const LABEL: [u16; 10] = [65535, 0, 65535, 1, 65535, 65535, 65535, 65535, 0, 1];

fn lists(q: Query, allowance: u64, places: usize, expect: Listing, tuples: &[u16]) -> u64 {
    let asked = Question::of(&POST, &LABEL, q);
    list_in(asked, allowance, places, 2, tuples, expect)
}

fn says(q: Query, yes: bool) -> u64 {
    yes_no(Question::of(&POST, &LABEL, q), 20, yes)
}

fn finds(q: Query, tuple: &[u16], next: Option<&[u16]>) -> u64 {
    after_in(Question::of(&POST, &LABEL, q), tuple, next, 2)
}

// Q(x,y) <- NP(x), Child+(x,y), NN(y): C(1) = 0, C(2) = 3, S = 6.
fn nouns() -> Query {
    let mut q = with_head(two(1, 0, 1), &[0, 1]);
    q.label_count = 2;
    q.labels[0] = carries(0, 0);
    q.labels[1] = carries(1, 1);
    q
}

fn pairs(allowance: u64, places: usize, expect: Listing) -> u64 {
    lists(nouns(), allowance, places, expect, &[1, 3, 8, 9])
}

// The document's allowances and rooms.
pub(crate) fn sentence() -> u64 {
    let a = pairs(2, 6, listing(Spent, 1, 2));
    let b = pairs(3, 4, listing(Full, 2, 3));
    let c = pairs(5, 6, listing(Spent, 2, 5));
    let d = pairs(6, 6, listing(Finished, 2, 6));
    let e = pairs(MOST, 40, listing(Finished, 2, 6));
    total(&[a, b, c, d, e])
}

// Rooms from buffers of any length: 0 and 1 places hold no pair, 2 and 3 one, 4 and 5 both. A list that just fits is full.
pub(crate) fn rooms() -> u64 {
    let a = pairs(0, 0, listing(Full, 0, 0));
    let b = pairs(MOST, 1, listing(Full, 0, 0));
    let c = pairs(0, 2, listing(Full, 1, 0));
    let d = pairs(MOST, 3, listing(Full, 1, 0));
    let e = pairs(MOST, 4, listing(Full, 2, 3));
    let f = pairs(2, 5, listing(Spent, 1, 2));
    total(&[a, b, c, d, e, f])
}

// NP(y), Following(y,x). Row 1 (post 2) is followed by rows 4 to 9, row 8 (post 6) by none. The first pruning strikes 8 from
// y and 0 to 3 from x: 5. The search after each answer but the last strikes 8, and row 0, the last in post-order: 2. After
// row 4 only row 0 is left to x, and all three rows are struck: S = 5 + 5 * 2 + 3.
fn following() -> Query {
    let mut q = with_head(two(6, 1, 0), &[0]);
    q.label_count = 1;
    q.labels[0] = carries(1, 0);
    q
}

fn followers(allowance: u64, places: usize, expect: Listing) -> u64 {
    lists(following(), allowance, places, expect, &[5, 7, 9, 8, 6, 4])
}

pub(crate) fn post_order() -> u64 {
    let a = followers(MOST, 7, listing(Finished, 6, 18));
    let b = followers(18, 7, listing(Finished, 6, 18));
    let c = followers(17, 7, listing(Spent, 6, 17));
    let d = followers(17, 6, listing(Full, 6, 15));
    let e = followers(14, 6, listing(Spent, 5, 14));
    let f = followers(4, 6, listing(Spent, 0, 4));
    total(&[a, b, c, d, e, f])
}

// Child(y,x). The first pruning strikes row 0 from x and the five leaves from y: 6. After an answer x is held to later rows,
// and y loses each row with no child among them: after 1, 4, 2, 3, 5, 6, 7, 8, 9 that is 5, 6, 6, 7, 7, 8, 8, 9 and 10.
fn children() -> Query {
    with_head(two(0, 1, 0), &[0])
}

fn by_levels(allowance: u64, places: usize, expect: Listing) -> u64 {
    lists(
        children(),
        allowance,
        places,
        expect,
        &[1, 4, 2, 3, 5, 6, 7, 8, 9],
    )
}

pub(crate) fn by_level() -> u64 {
    let a = by_levels(MOST, 10, listing(Finished, 9, 72));
    let b = by_levels(71, 10, listing(Spent, 9, 71));
    let c = by_levels(62, 9, listing(Full, 9, 62));
    let d = by_levels(17, 10, listing(Spent, 3, 17));
    let e = by_levels(16, 10, listing(Spent, 2, 16));
    total(&[a, b, c, d, e])
}

// Child(x,x) strikes all ten rows and has no answer. Child*(x,x) strikes none: every row.
pub(crate) fn itself() -> u64 {
    let none = alike(1, 1, 0, 1, axis(0, 0, 0));
    let all = alike(1, 1, 0, 1, axis(2, 0, 0));
    let a = every_row(none, MOST, 11, listing(Finished, 0, 10));
    let b = every_row(none, 9, 11, listing(Spent, 0, 9));
    let c = every_row(all, 0, 11, listing(Finished, 10, 0));
    let d = every_row(all, 0, 10, listing(Full, 10, 0));
    total(&[a, b, c, d, says(none, false), says(all, true)])
}

fn every_row(q: Query, allowance: u64, places: usize, expect: Listing) -> u64 {
    lists(
        q,
        allowance,
        places,
        expect,
        &[0, 1, 2, 3, 4, 5, 6, 7, 8, 9],
    )
}

// A variable with no condition may be any row.
pub(crate) fn any_row() -> u64 {
    let a = every_row(with_head(free(3), &[1]), 0, 11, listing(Finished, 10, 0));
    total(&[a, says(free(3), true)])
}

pub(crate) fn yes_or_no() -> u64 {
    let a = says(nouns(), true);
    let b = says(following(), true);
    let c = says(children(), true);
    let mut q = nouns();
    q.labels[1] = carries(1, 7);
    total(&[a, b, c, says(q, false)])
}

// The tuple need not be an answer.
fn after_pair(tuple: &[u16], next: Option<&[u16]>) -> u64 {
    finds(nouns(), tuple, next)
}

fn after_pairs() -> u64 {
    let a = after_pair(&[0, 0], Some(&[1, 3]));
    let b = after_pair(&[1, 2], Some(&[1, 3]));
    let c = after_pair(&[1, 3], Some(&[8, 9]));
    total(&[a, b, c])
}

fn after_last_pairs() -> u64 {
    let d = after_pair(&[5, 0], Some(&[8, 9]));
    let e = after_pair(&[8, 9], None);
    let f = after_pair(&[9, 9], None);
    total(&[d, e, f])
}

// Row 2 is the first in post-order, row 0 the last.
fn after_in_post_order() -> u64 {
    let a = finds(following(), &[2], Some(&[5]));
    let b = finds(following(), &[9], Some(&[8]));
    let c = finds(following(), &[0], None);
    total(&[a, b, c])
}

// By level row 0 is the first and row 9 the last.
fn after_by_level() -> u64 {
    let d = finds(children(), &[0], Some(&[1]));
    let e = finds(children(), &[4], Some(&[2]));
    let f = finds(children(), &[9], None);
    total(&[d, e, f])
}

pub(crate) fn search() -> u64 {
    let pairs = total(&[after_pairs(), after_last_pairs()]);
    total(&[pairs, after_in_post_order(), after_by_level()])
}
