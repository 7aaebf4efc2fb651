// Trees and queries drawn by chance: each entry against what trying every choice gives.
use crate::costs::Costs;
use crate::order::{Case, TUPLES, set_of};
use crate::tried::{List, Shown};
use crate::{heads, judge};
use trials::cells::{total, wrong};
use trials::draw::draw;
use trials::questions::Question;
use trials::trees;

// What is tried of a case: yes or no and the search after every tuple; a listing at every allowance and room; a listing of
// more answers, at the allowances about each cost.
#[derive(Clone, Copy)]
pub(crate) enum Kind {
    Search,
    Every,
    About,
}

impl Kind {
    // Few rows where there are many tuples of them, so that a run takes seconds.
    fn most_rows(self, k: usize) -> usize {
        match (self, k) {
            (Kind::Search, _) => 6,
            (Kind::Every, 1) => 7,
            (Kind::Every, 2) => 5,
            (Kind::Every, _) => 3,
            (Kind::About, 1) => 8,
            (Kind::About, 2) => 6,
            (Kind::About, _) => 4,
        }
    }
}

// How many calls are wrong; whether the case can tell right from wrong; whether its order is not that of the row numbers.
#[derive(Clone, Copy)]
struct Outcome {
    bad: u64,
    telling: bool,
    turned: bool,
}

const FAILED: Outcome = Outcome {
    bad: 1,
    telling: false,
    turned: false,
};

// The larger of two draws: in the smallest trees few lists can tell.
fn rows(case: u64, most: usize) -> usize {
    draw(case, 6, most)
        .max(draw(case, 14, most))
        .wrapping_add(1)
}

// ---- yes or no, and search

// After every tuple of rows.
fn searches(case: &Case, shown: &Shown) -> u64 {
    let mut bad: u64 = 0;
    for t in 0..TUPLES {
        if case.is_tuple(t) {
            let next = shown.first_from(t + 1);
            bad = bad.wrapping_add(judge::after(case, t, next, t % 3));
        }
    }
    bad
}

// With the head, and with an empty one.
fn yes_no(asked: Question, yes: bool) -> u64 {
    let mut headless = asked;
    headless.query.head_count = 0;
    total(&[
        judge::yes_no(asked, asked.query.variables, yes),
        judge::yes_no(headless, 20, yes),
    ])
}

fn searched(case: &Case, shown: &Shown, list: &List) -> Outcome {
    Outcome {
        bad: total(&[yes_no(case.asked, 0 < list.count), searches(case, shown)]),
        telling: 2 <= list.count,
        turned: list.is_turned(),
    }
}

// ---- listing

// Allowances 0 to S + 1, each with rooms 0 to m + 1.
fn lists_every(case: &Case, costs: &Costs, list: &List) -> u64 {
    let mut bad: u64 = 0;
    for allowance in 0..costs.all.wrapping_add(2) {
        for room in 0..list.count.wrapping_add(2) {
            bad = bad.wrapping_add(judge::list(case, costs, list, allowance, room));
        }
    }
    bad
}

// The allowances about which a list is tried: C(0) to C(m), S, S + 1, and the largest.
fn edge(costs: &Costs, m: usize, j: usize) -> u64 {
    if j <= m {
        costs.first(j)
    } else if j == m.wrapping_add(1) {
        costs.all
    } else if j == m.wrapping_add(2) {
        costs.all.wrapping_add(1)
    } else {
        u64::MAX
    }
}

// Each of them and one less, with room for j tuples, at most m, and with room for all and one more. 65 tuples of 3 rows and
// 2 places more are 197 places.
fn lists_about(case: &Case, costs: &Costs, list: &List) -> u64 {
    let m = list.count;
    let mut bad: u64 = 0;
    for j in 0..m.wrapping_add(4) {
        let a = edge(costs, m, j);
        for allowance in [a, a.saturating_sub(1)] {
            for room in [j.min(m), m.wrapping_add(1)] {
                bad = bad.wrapping_add(judge::list(case, costs, list, allowance, room));
            }
        }
    }
    bad
}

fn listed(kind: Kind, case: &Case, shown: &Shown, list: &List) -> Outcome {
    let Some(costs) = Costs::of(case, shown) else {
        return FAILED;
    };
    Outcome {
        bad: match kind {
            Kind::Every => lists_every(case, &costs, list),
            _ => lists_about(case, &costs, list),
        },
        telling: 2 <= list.count && 0 < costs.all,
        turned: list.is_turned(),
    }
}

// ---- a case

fn tried(kind: Kind, asked: Question) -> Outcome {
    let case = Case::of(asked);
    let shown = Shown::of(&case);
    let list = List::of(&case, &shown);
    match kind {
        Kind::Search => searched(&case, &shown, &list),
        _ => listed(kind, &case, &shown, &list),
    }
}

// Every third case has the axes of one set. A query without an axis takes set 1: it is judged, but tells nothing of another.
fn one(number: u64, kind: Kind, set: u8) -> Outcome {
    let q = heads::drawn(number);
    let n = rows(number, kind.most_rows(q.head_count));
    let mut post = [0; 8];
    let mut label = [0; 8];
    if 8 < n {
        return FAILED;
    }
    trees::set_posts(number, &mut post[..n]);
    trees::set_labels(number, &mut label[..n]);
    let outcome = tried(kind, Question::of(&post[..n], &label[..n], q));
    let is_of_set = set_of(q) == set;
    Outcome {
        bad: outcome.bad,
        telling: outcome.telling && is_of_set,
        turned: outcome.turned && is_of_set,
    }
}

// Case i of a set, where cases 0, 1 and 2 modulo 3 have sets 1, 2 and 3.
fn case_of(first: u64, set: u8, i: u64) -> u64 {
    first
        .wrapping_add(i)
        .wrapping_mul(3)
        .wrapping_add(u64::from(set) + 2)
}

// A telling list has two answers, so that their order is seen, and a cost (for a search two answers are enough). A few of
// the hundreds of cases in a group must be so.
const TELLING: u64 = 20;

// The order of set 1 is that of the row numbers; in the other sets some lists must show another. One would do, three are
// asked for.
const TURNED: u64 = 3;

// n cases: how many calls are wrong, and one more for each kind of case of which too few were drawn.
pub(crate) fn cases(first: u64, n: u64, kind: Kind, set: u8) -> u64 {
    let mut bad: u64 = 0;
    let mut telling: u64 = 0;
    let mut turned: u64 = 0;
    for i in 0..n {
        let outcome = one(case_of(first, set, i), kind, set);
        bad = bad.wrapping_add(outcome.bad);
        telling = telling.wrapping_add(u64::from(outcome.telling));
        turned = turned.wrapping_add(u64::from(outcome.turned));
    }
    let is_turned_enough = if set == 1 {
        turned == 0
    } else {
        TURNED <= turned
    };
    total(&[bad, wrong(TELLING <= telling), wrong(is_turned_enough)])
}
