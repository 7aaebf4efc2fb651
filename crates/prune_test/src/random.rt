// Trees and queries drawn by chance: the library against pruning by hand, every row of every set.
use crate::ask::ask;
use trials::buffers::{fill, kept};
use trials::cells::{at, total, wrong};
use trials::draw::draw;
use trials::hand::{Axes, RowSets};
use trials::questions::Question;
use trials::{queries, trees};

// A case tells right from wrong if rows are struck and some are left to the first variable.
#[derive(Clone, Copy)]
enum Outcome {
    Wrong,
    Right,
    Telling,
}

// Words to a variable, up to 128 rows.
fn width(rows: usize) -> usize {
    if rows <= 64 { 1 } else { 2 }
}

// The words of some variables.
fn words(v: usize, rows: usize) -> usize {
    v.wrapping_mul(width(rows))
}

// The bit of a row is as it must be; one past the last row is zero.
fn row_agrees(s: &[u64], sets: &RowSets, x: usize, r: usize, rows: usize) -> bool {
    let word: u64 = at(s, words(x, rows).wrapping_add(r / 64));
    let is_left = (word >> (r % 64)) & 1 == 1;
    is_left == (r < rows && sets.has(x, r))
}

// All bits of the words of all variables.
fn agrees(s: &[u64], sets: &RowSets, v: usize, rows: usize) -> bool {
    let bits = words(64, rows);
    (0..v).all(|x| (0..bits).all(|r| row_agrees(s, sets, x, r, rows)))
}

// The library is lent a buffer that is just long enough or a little longer.
fn compared(case: u64, asked: Question) -> Outcome {
    let rows = asked.post.len();
    let v = asked.query.variables;
    let used = words(v, rows);
    let mut s = [0; 20];
    fill(&mut s);
    let told = ask(asked, &mut s, used.wrapping_add(draw(case, 7, 3)));
    let mut sets = RowSets::of(asked.query, asked.label);
    let struck = sets.strike_all(&Axes::of(asked.post), asked.query);
    if told != Some(Ok(struck)) || !agrees(&s, &sets, v, rows) || !kept(&s, used) {
        Outcome::Wrong
    } else if 0 < struck && s[0] != 0 {
        Outcome::Telling
    } else {
        Outcome::Right
    }
}

fn one(case: u64, rows: usize) -> Outcome {
    if 128 < rows {
        return Outcome::Wrong;
    }
    let mut post = [0; 128];
    let mut label = [0; 128];
    trees::set_posts(case, &mut post[..rows]);
    trees::set_labels(case, &mut label[..rows]);
    compared(
        case,
        Question::of(&post[..rows], &label[..rows], queries::drawn(case)),
    )
}

// n cases of some rows, or of 1 to 12: how many are wrong, and one more if fewer than `least` tell.
pub(crate) fn cases(first: u64, n: u64, rows: Option<usize>, least: u64) -> u64 {
    let mut bad: u64 = 0;
    let mut telling: u64 = 0;
    for i in 0..n {
        let case = first.wrapping_add(i);
        match one(case, rows.unwrap_or(draw(case, 6, 12).wrapping_add(1))) {
            Outcome::Wrong => bad = bad.wrapping_add(1),
            Outcome::Right => {}
            Outcome::Telling => telling = telling.wrapping_add(1),
        }
    }
    total(&[bad, wrong(least <= telling)])
}
