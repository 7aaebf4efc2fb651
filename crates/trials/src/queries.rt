// Queries: alike in all places, for the limits; and drawn by chance. Axes by code: a condition by value may hold any.
ghost use Rattle.std.specs.Prelude.{◌<◌};

use crate::cells::byte;
use crate::draw::draw;
use crate::trees::label_of;
use meaning::{Condition, LabelCondition, Query};

pub fn axis(code: u8, first: u8, second: u8) -> Condition {
    Condition {
        code,
        first,
        second,
    }
}

pub fn carries(variable: u8, label: u16) -> LabelCondition {
    LabelCondition { variable, label }
}

// v variables, h head variables 0, 1, .., l conditions that variable 0 carries label 5, a conditions alike.
pub fn alike(v: usize, h: usize, l: usize, a: usize, c: Condition) -> Query {
    Query {
        variables: v,
        head_count: h,
        head: [0, 1, 2, 3, 4, 5, 6, 7],
        label_count: l,
        labels: [carries(0, 5); 32],
        axis_count: a,
        axes: [c; 32],
    }
}

// v variables with no condition; those that are put in count once their numbers are raised.
pub fn free(v: usize) -> Query {
    alike(v, 0, 0, 0, axis(0, 0, 0))
}

// One axis condition on two variables.
pub fn two(code: u8, first: u8, second: u8) -> Query {
    alike(2, 0, 0, 1, axis(code, first, second))
}

// ---- drawn by chance: the axes of set 1, 2 or 3, taken in turn

fn code_of(set: u64, k: usize) -> u8 {
    match set {
        0 => [1, 2][k % 2],
        1 => 6,
        _ => [0, 3, 4, 5][k % 4],
    }
}

fn variables(case: u64) -> usize {
    draw(case, 3, 4).wrapping_add(1)
}

// Condition i is sometimes the one before it again, and names one variable twice now and then.
fn drawn_axis(case: u64, i: usize) -> Condition
    requires { i < 4 }
{
    let j = if draw(case, 20 + i, 6) == 0 { i / 2 } else { i };
    let v = variables(case);
    axis(
        code_of(case % 3, draw(case, 30 + j, 4)),
        byte(draw(case, 50 + j, v)),
        byte(draw(case, 70 + j, v)),
    )
}

// Label 3 is on no row.
fn drawn_label(case: u64, i: usize) -> LabelCondition
    requires { i < 3 }
{
    let x = byte(draw(case, 90 + i, variables(case)));
    if draw(case, 110 + i, 12) == 0 {
        return carries(x, 3);
    }
    let k = draw(case, 130 + i, draw(case, 2, 3).wrapping_add(1));
    carries(x, label_of(k))
}

// Up to four axis conditions and three label conditions.
pub fn drawn(case: u64) -> Query {
    let mut q = free(variables(case));
    q.axis_count = draw(case, 4, 5);
    for i in 0..4 {
        q.axes[i] = drawn_axis(case, i);
    }
    q.label_count = draw(case, 5, 4);
    for i in 0..3 {
        q.labels[i] = drawn_label(case, i);
    }
    q
}
