// The query check on both sides of each limit. Axes and sets are document 01's numbers: a condition by value may hold any code.
use meaning::{Condition, LabelCondition, Query, Refusal};
use query::check_query;
use trials::queries::axis;

// v variables, h head variables 0, 1, .., l label conditions on the first variable of c, a axis conditions like c.
fn query(v: usize, h: usize, l: usize, a: usize, c: Condition) -> Query {
    Query {
        variables: v,
        head_count: h,
        head: [0, 1, 2, 3, 4, 5, 6, 7],
        label_count: l,
        labels: [LabelCondition {
            variable: c.first,
            label: 5,
        }; 32],
        axis_count: a,
        axes: [c; 32],
    }
}

// Accepted, with the axes of this set.
fn is_set(q: Query, set: u8) -> bool {
    check_query(q) == Ok(set)
}

// Refused for variables or conditions that are too many, or too few.
fn miscounts(q: Query) -> bool {
    check_query(q) == Err(Refusal::Counts)
}

// Refused for a code or a variable that there is not.
fn misnames(q: Query) -> bool {
    check_query(q) == Err(Refusal::Variables)
}

// Refusal 4: variables at their limits and past them.
pub(crate) fn variables() -> bool {
    let c = axis(1, 0, 0);
    miscounts(query(0, 0, 0, 0, c))
        && is_set(query(1, 0, 0, 0, c), 1)
        && is_set(query(16, 8, 32, 32, axis(1, 15, 0)), 1)
        && miscounts(query(17, 0, 0, 0, c))
        && miscounts(query(usize::MAX, 0, 0, 0, axis(9, 0, 0)))
}

// Refusal 4: head and conditions past their limits, and past their arrays.
pub(crate) fn counts() -> bool {
    let c = axis(1, 0, 0);
    miscounts(query(16, 9, 0, 0, c))
        && miscounts(query(16, 0, 33, 0, c))
        && miscounts(query(16, 0, 0, 33, c))
        && miscounts(query(16, usize::MAX, usize::MAX, usize::MAX, axis(9, 0, 0)))
}

// Refusal 5: codes and variables at their limits and past them.
pub(crate) fn names() -> bool {
    is_set(query(2, 0, 0, 1, axis(6, 1, 0)), 2)
        && misnames(query(2, 0, 0, 1, axis(7, 1, 0)))
        && misnames(query(2, 0, 0, 1, axis(255, 1, 1)))
        && misnames(query(2, 0, 0, 1, axis(1, 2, 0)))
        && misnames(query(2, 0, 0, 1, axis(1, 0, 2)))
}

// A variable twice in a condition is fine, and what stands past a count does not count.
pub(crate) fn labels() -> bool {
    is_set(query(2, 0, 0, 1, axis(1, 1, 1)), 1)
        && is_set(query(2, 0, 1, 0, axis(9, 1, 0)), 1)
        && misnames(query(2, 0, 1, 0, axis(9, 2, 0)))
        && is_set(query(2, 0, 0, 0, axis(255, 255, 255)), 1)
}

// Refusal 5: a head variable too large, and one twice.
pub(crate) fn heads() -> bool {
    let c = axis(0, 0, 0);
    let mut twice = query(8, 8, 0, 0, c);
    twice.head[7] = 0;
    is_set(query(8, 8, 0, 0, c), 1) && misnames(query(7, 8, 0, 0, c)) && misnames(twice)
}

// The same variable at two places next to each other, and at two places of which one is not of the head.
pub(crate) fn heads_next() -> bool {
    let mut twice = query(8, 2, 0, 0, axis(0, 0, 0));
    twice.head[1] = 0;
    let mut once = twice;
    once.head_count = 1;
    misnames(twice) && is_set(once, 1)
}

// The set of each axis alone.
pub(crate) fn alone(code: u8, set: u8) -> bool {
    is_set(query(2, 0, 0, 32, axis(code, 0, 1)), set)
}

// Child+ with another axis.
fn together(code: u8) -> Query {
    let mut q = query(2, 0, 0, 2, axis(1, 0, 1));
    q.axes[1] = axis(code, 1, 0);
    q
}

pub(crate) fn together_of_set(code: u8, set: u8) -> bool {
    is_set(together(code), set)
}

pub(crate) fn together_of_two_sets(code: u8) -> bool {
    check_query(together(code)) == Err(Refusal::Axes)
}

pub(crate) fn together_with_no_axis(code: u8) -> bool {
    misnames(together(code))
}
