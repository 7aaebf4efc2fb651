// Each refusal from both sides of its limit, for each of the three entries, and what is left in the buffers.
use crate::ask::{Buffers, listing};
use crate::heads::with_head;
use meaning::{Ending, Query};
use trials::cells::{total, wrong};
use trials::queries::{alike, axis, carries, free};
use trials::questions::Question;
use trials::trees::set_chain;

const MOST: u64 = u64::MAX;

#[derive(Clone, Copy)]
pub(crate) enum Entry {
    YesOrNo,
    After,
    List,
}

// Asks an entry, which says whether it is accepted; the search is after the tuple of zeros, and 8 places are lent for
// answers.
fn ask(entry: Entry, asked: Question, lent: &mut Buffers<300, 12>) -> Option<Result<(), u8>> {
    Some(match entry {
        Entry::YesOrNo => lent.yes_or_no(asked)?.map(|_| ()),
        Entry::After => {
            let k = asked.query.head_count % 16;
            lent.find_after(asked, &[0; 16][..k])?.map(|_| ())
        }
        Entry::List => lent.list(asked, MOST)?.map(|_| ()),
    })
}

// Refused with this number, and no place of either buffer differs.
fn refused(entry: Entry, asked: Question, words: usize, no: u8) -> u64 {
    let mut lent = Buffers::<300, 12>::lending(words, 8);
    let told = ask(entry, asked, &mut lent);
    wrong(told == Some(Err(no)) && lent.are_kept())
}

// Not refused: zeros in the first `used` words, and nothing changed in what was not lent.
fn accepted(entry: Entry, asked: Question, words: usize, used: usize) -> u64 {
    let mut lent = Buffers::<300, 12>::lending(words, 8);
    let told = ask(entry, asked, &mut lent);
    wrong(told == Some(Ok(())) && lent.are_cleared(used) && lent.keep_from(8))
}

// ---- the table

// Variables with no condition, the first in the head.
fn headed(v: usize) -> Query {
    with_head(free(v), &[0])
}

fn no_row(entry: Entry, column: &[u16]) -> u64 {
    let none = &column[..0];
    refused(entry, Question::of(none, none, headed(1)), 20, 1)
}

// Refusal 1: unequal columns, no row; one and two rows are fine.
pub(crate) fn columns(entry: Entry) -> u64 {
    let two = [1, 0];
    let one = [0];
    let a = refused(entry, Question::of(&two, &one, headed(1)), 20, 1);
    let b = refused(entry, Question::of(&one, &two, headed(1)), 20, 1);
    let c = no_row(entry, &one);
    let d = accepted(entry, Question::of(&one, &one, headed(1)), 20, 1);
    let e = accepted(entry, Question::of(&two, &two, headed(1)), 20, 1);
    total(&[a, b, c, d, e])
}

// Refusal 1: 1,024 rows are accepted and take 16 words, 1,025 are refused.
pub(crate) fn most_rows(entry: Entry) -> u64 {
    let mut most = [0; 1024];
    let mut more = [0; 1025];
    set_chain(&mut most);
    set_chain(&mut more);
    let a = accepted(entry, Question::of(&most, &most, headed(1)), 300, 16);
    let b = refused(entry, Question::of(&more, &more, headed(1)), 300, 1);
    let c = refused(entry, Question::of(&most, &more, headed(1)), 300, 1);
    total(&[a, b, c])
}

fn table(entry: Entry, post: &[u16], no: u8) -> u64 {
    refused(entry, Question::of(post, post, headed(1)), 20, no)
}

fn tree(entry: Entry, post: &[u16]) -> u64 {
    accepted(entry, Question::of(post, post, headed(1)), 20, 1)
}

// Refusal 2: a number not there, one twice, one too large, the first row not last.
pub(crate) fn post_numbers(entry: Entry) -> u64 {
    let a = table(entry, &[1, 2, 0], 2);
    let b = table(entry, &[2, 0, 0], 2);
    let c = table(entry, &[65535], 2);
    let d = table(entry, &[0, 1], 2);
    let e = tree(entry, &[2, 0, 1]);
    let f = tree(entry, &[2, 1, 0]);
    total(&[a, b, c, d, e, f])
}

// Refusal 3: three rows a < b < c with post(c) < post(a) < post(b), and columns near them that are trees.
pub(crate) fn three_rows(entry: Entry) -> u64 {
    let a = table(entry, &[3, 1, 2, 0], 3);
    let b = table(entry, &[4, 1, 2, 0, 3], 3);
    let c = tree(entry, &[3, 2, 1, 0]);
    let d = tree(entry, &[3, 0, 2, 1]);
    total(&[a, b, c, d])
}

// ---- the query, asked of the table of one row

fn one_refused(entry: Entry, q: Query, no: u8) -> u64 {
    refused(entry, Question::of(&[0], &[0], q), 20, no)
}

fn one_accepted(entry: Entry, q: Query, used: usize) -> u64 {
    accepted(entry, Question::of(&[0], &[0], q), 20, used)
}

// Refusal 4: variables.
pub(crate) fn variables(entry: Entry) -> u64 {
    let a = one_refused(entry, headed(0), 4);
    let b = one_accepted(entry, headed(1), 1);
    let c = one_accepted(entry, headed(16), 16);
    let d = one_refused(entry, headed(17), 4);
    let e = one_refused(entry, headed(usize::MAX), 4);
    total(&[a, b, c, d, e])
}

// Refusal 4: head, label conditions, axis conditions.
pub(crate) fn counts(entry: Entry) -> u64 {
    let c = axis(2, 0, 1);
    let d = one_accepted(entry, alike(9, 8, 0, 0, c), 9);
    let e = one_refused(entry, alike(9, 9, 0, 0, c), 4);
    let f = one_accepted(entry, alike(1, 1, 32, 0, c), 1);
    let g = one_refused(entry, alike(1, 1, 33, 0, c), 4);
    let h = one_accepted(entry, alike(2, 1, 0, 32, c), 2);
    let i = one_refused(entry, alike(2, 1, 0, 33, c), 4);
    total(&[d, e, f, g, h, i])
}

fn with_axis(code: u8, first: u8, second: u8) -> Query {
    alike(2, 1, 0, 1, axis(code, first, second))
}

fn axis_refused(entry: Entry, code: u8, first: u8, second: u8) -> u64 {
    one_refused(entry, with_axis(code, first, second), 5)
}

// Refusal 5: codes and variables of axis conditions.
pub(crate) fn axis_names(entry: Entry) -> u64 {
    let a = one_accepted(entry, with_axis(6, 0, 1), 2);
    let b = axis_refused(entry, 7, 0, 1);
    let c = axis_refused(entry, 255, 0, 1);
    let d = one_accepted(entry, with_axis(2, 1, 1), 2);
    let e = axis_refused(entry, 2, 2, 1);
    let f = axis_refused(entry, 2, 1, 2);
    total(&[a, b, c, d, e, f])
}

// Refusal 5: variables of label conditions and of the head. What stands past a count is not looked at.
pub(crate) fn other_names(entry: Entry) -> u64 {
    let mut q = alike(2, 1, 1, 0, axis(255, 255, 255));
    q.labels[0] = carries(1, 0);
    let a = one_accepted(entry, q, 2);
    q.labels[0] = carries(2, 0);
    let b = one_refused(entry, q, 5);
    let mut h = alike(8, 8, 0, 0, axis(255, 255, 255));
    let c = one_accepted(entry, h, 8);
    let d = one_refused(entry, alike(7, 8, 0, 0, axis(0, 0, 0)), 5);
    h.head[7] = 0;
    let e = one_refused(entry, h, 5);
    total(&[a, b, c, d, e])
}

// Two conditions with these axes.
fn both(a: u8, b: u8) -> Query {
    let mut q = with_axis(a, 0, 1);
    q.axis_count = 2;
    q.axes[1] = axis(b, 0, 1);
    q
}

fn of_two_sets(entry: Entry, a: u8, b: u8) -> u64 {
    one_refused(entry, both(a, b), 6)
}

fn of_one_set(entry: Entry, a: u8, b: u8) -> u64 {
    one_accepted(entry, both(a, b), 2)
}

// Refusal 6: axes of two sets; those of one set are fine.
pub(crate) fn mixed(entry: Entry) -> u64 {
    let a = of_two_sets(entry, 1, 6);
    let b = of_two_sets(entry, 0, 2);
    let c = of_two_sets(entry, 6, 4);
    let d = of_one_set(entry, 1, 2);
    let e = of_one_set(entry, 6, 6);
    let f = of_one_set(entry, 0, 5);
    total(&[a, b, c, d, e, f])
}

// ---- refusal 9 for the set buffer

// v variables on a chain of some rows: one word short, none, just enough, and more.
fn words_for(entry: Entry, post: &[u16], v: usize, needed: usize) -> u64 {
    if needed == 0 {
        return 1;
    }
    let a = refused(entry, Question::of(post, post, headed(v)), needed - 1, 9);
    let b = refused(entry, Question::of(post, post, headed(v)), 0, 9);
    let c = accepted(entry, Question::of(post, post, headed(v)), needed, needed);
    let d = accepted(entry, Question::of(post, post, headed(v)), 300, needed);
    total(&[a, b, c, d])
}

pub(crate) fn words(entry: Entry) -> u64 {
    let mut full = [0; 64];
    let mut next = [0; 65];
    let mut most = [0; 1024];
    set_chain(&mut full);
    set_chain(&mut next);
    set_chain(&mut most);
    let a = words_for(entry, &full, 3, 3);
    let b = words_for(entry, &next, 3, 6);
    let c = words_for(entry, &most, 16, 256);
    total(&[a, b, c])
}

// ---- the lowest of several: from line to line one cause less

fn lowest_of_table(entry: Entry) -> u64 {
    let all = alike(17, 9, 33, 2, axis(9, 17, 17));
    let a = refused(entry, Question::of(&[4, 1, 2, 0, 0], &[0, 0], all), 0, 1);
    let b = refused(
        entry,
        Question::of(&[4, 1, 2, 0, 0], &[0, 0, 0, 0, 0], all),
        0,
        2,
    );
    let c = refused(
        entry,
        Question::of(&[4, 1, 2, 0, 3], &[0, 0, 0, 0, 0], all),
        0,
        3,
    );
    let d = refused(entry, Question::of(&[0], &[0], all), 0, 4);
    total(&[a, b, c, d])
}

fn lowest_of_query(entry: Entry) -> u64 {
    let mut q = both(1, 6);
    q.head_count = 2;
    q.head[1] = 0;
    let e = refused(entry, Question::of(&[0], &[0], q), 0, 5);
    q.head[1] = 1;
    let f = refused(entry, Question::of(&[0], &[0], q), 0, 6);
    q.head_count = 0;
    let g = refused(entry, Question::of(&[0], &[0], q), 0, 6);
    let h = refused(entry, Question::of(&[0], &[0], both(1, 2)), 1, 9);
    total(&[e, f, g, h])
}

pub(crate) fn lowest(entry: Entry) -> u64 {
    total(&[lowest_of_table(entry), lowest_of_query(entry)])
}

// ---- an empty head, tuples and answer buffers

// Refusal 7 before 9; yes or no welcomes an empty head.
pub(crate) fn empty_head() -> u64 {
    let a = one_refused(Entry::After, free(2), 7);
    let b = one_refused(Entry::List, free(2), 7);
    let c = refused(Entry::After, Question::of(&[0], &[0], free(2)), 0, 7);
    let d = refused(Entry::List, Question::of(&[0], &[0], free(2)), 0, 7);
    let e = one_accepted(Entry::YesOrNo, free(2), 2);
    let f = refused(Entry::YesOrNo, Question::of(&[0], &[0], free(2)), 1, 9);
    total(&[a, b, c, d, e, f])
}

// Three rows in a chain, on which Following has no answer.
fn on_chain(q: Query) -> Question<'static> {
    Question::of(&[2, 1, 0], &[0, 0, 0], q)
}

fn search_refused(q: Query, tuple: &[u16], words: usize, places: usize, no: u8) -> u64 {
    let mut lent = Buffers::<6, 6>::lending(words, places);
    let told = lent.find_after(on_chain(q), tuple);
    wrong(told == Some(Err(no)) && lent.are_kept())
}

// Two head variables, and as many words and places.
fn search_accepted(q: Query, tuple: &[u16], found: bool) -> u64 {
    let mut lent = Buffers::<6, 6>::lending(2, 2);
    let told = lent.find_after(on_chain(q), tuple);
    wrong(told == Some(Ok(found)) && lent.are_cleared(2) && lent.keep_from(2))
}

// Child+ of two head variables, and Following of two.
fn pair(code: u8) -> Query {
    alike(2, 2, 0, 1, axis(code, 0, 1))
}

// Refusal 8: tuples of another length.
fn other_lengths() -> u64 {
    let a = search_refused(pair(1), &[], 2, 2, 8);
    let b = search_refused(pair(1), &[0], 2, 2, 8);
    let c = search_refused(pair(1), &[0, 0, 0], 2, 2, 8);
    total(&[a, b, c])
}

// Refusal 8: rows at and past 3.
fn other_rows() -> u64 {
    let d = search_refused(pair(1), &[3, 0], 2, 2, 8);
    let e = search_refused(pair(1), &[0, 65535], 2, 2, 8);
    let f = search_accepted(pair(1), &[0, 2], true);
    let g = search_accepted(pair(1), &[2, 2], false);
    total(&[d, e, f, g])
}

pub(crate) fn tuples() -> u64 {
    total(&[other_lengths(), other_rows()])
}

// Refusal 9: an answer buffer of less than two places, also where nothing is found.
fn short_places() -> u64 {
    let a = search_refused(pair(1), &[0, 0], 2, 1, 9);
    let b = search_refused(pair(6), &[0, 0], 2, 1, 9);
    let c = search_refused(pair(6), &[0, 0], 2, 0, 9);
    let d = search_accepted(pair(6), &[0, 0], false);
    total(&[a, b, c, d])
}

// 8 comes before 9, and 7 before 8.
fn before_places() -> u64 {
    let e = search_refused(pair(1), &[0, 0], 1, 2, 9);
    let f = search_refused(pair(1), &[0, 3], 1, 1, 8);
    let g = search_refused(free(2), &[0], 1, 1, 7);
    total(&[e, f, g])
}

pub(crate) fn places() -> u64 {
    total(&[short_places(), before_places()])
}

// A listing takes any answer buffer: with fewer places than one tuple needs it is full at once, and the words are zero.
fn no_room(q: Query, allowance: u64, places: usize) -> u64 {
    let mut lent = Buffers::<6, 6>::lending(3, places);
    let told = lent.list(on_chain(q), allowance);
    let is_full = told == Some(Ok(listing(Ending::Full, 0, 0)));
    wrong(is_full && lent.are_cleared(2) && lent.keep_from(0))
}

pub(crate) fn room() -> u64 {
    let a = no_room(pair(1), 0, 0);
    let b = no_room(pair(1), MOST, 1);
    let c = no_room(pair(6), 0, 1);
    let d = no_room(pair(6), MOST, 0);
    total(&[a, b, c, d])
}
