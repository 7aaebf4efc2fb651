// Queries with a head: of given variables, and drawn by chance.
use meaning::Query;
use trials::cells::byte;
use trials::draw::draw;
use trials::queries;

// The query with a head of up to eight variables.
pub(crate) fn with_head(old: Query, head: &[u8]) -> Query {
    let mut q = old;
    q.head_count = head.len();
    for (place, x) in q.head.iter_mut().zip(head) {
        *place = *x;
    }
    q
}

// ---- drawn by chance: up to three different variables, in any order

// One of four variables at most, other than x.
fn other(v: usize, x: usize, d: usize) -> usize {
    let y = x.wrapping_add(1).wrapping_add(d);
    match v {
        2 => y % 2,
        3 => y % 3,
        _ => y % 4,
    }
}

// The smallest variable that is neither.
fn lowest(x: usize, y: usize) -> usize {
    (0..3).find(|z| *z != x && *z != y).unwrap_or(2)
}

// The largest of three or four variables that is neither.
fn highest(v: usize, x: usize, y: usize) -> usize {
    let most = if v == 4 { 4 } else { 3 };
    (0..most).rev().find(|z| *z != x && *z != y).unwrap_or(0)
}

fn third(case: u64, v: usize, x: usize, y: usize) -> usize {
    if draw(case, 9, 2) == 0 {
        lowest(x, y)
    } else {
        highest(v, x, y)
    }
}

// Of three queries one is taken as it was drawn; the others keep fewer conditions, so that more of them have answers.
fn eased(case: u64, old: Query) -> Query {
    let mut q = old;
    match draw(case, 13, 3) {
        1 => {
            q.axis_count = q.axis_count.min(2);
            q.label_count = 0;
        }
        2 => {
            q.axis_count = q.axis_count.min(1);
            q.label_count = q.label_count.min(1);
        }
        _ => {}
    }
    q
}

// One to three head variables, and no more than there are variables.
pub(crate) fn drawn(case: u64) -> Query {
    let mut q = eased(case, queries::drawn(case));
    let v = q.variables;
    let x = draw(case, 11, v);
    let y = other(v, x, draw(case, 12, v.wrapping_sub(1)));
    q.head_count = draw(case, 10, v.min(3)).wrapping_add(1);
    q.head[0] = byte(x);
    q.head[1] = byte(y);
    q.head[2] = byte(third(case, v, x, y));
    q
}
