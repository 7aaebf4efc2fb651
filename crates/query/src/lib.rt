// The query check: refusals 4, 5 and 6, and the axis set that an accepted query takes.
#![tactic(auto)]

ghost use Rattle.std.specs.Prelude.{◌≡◌, ◌≤◌, length};
ghost use Rattle.meaning.specs.Tests.{every};
ghost use Rattle.meaning.specs.Axes.{set_of};
ghost use Rattle.meaning.specs.Query.{asked, is_counted, is_named, is_axis_named, is_head_named};
ghost use Rattle.meaning.specs.Entries.{query_answer};
ghost use Rattle.query.specs.Check.{are_axes_of, one_set_of};

use meaning::{Condition, Query, Refusal};

// The set that an axis is in; 0 for a code that is no axis. A number, not an Option: the public promise is `set_of`. By
// codes, not
// by `Axis`: of `Ok(Axis::ChildPlus | Axis::ChildStar)` a proof does not learn which, so each axis would take an arm of its own.
pub fn axis_set(code: u8) -> u8
    ensures { result ≡ set_of code }
{
    match code {
        0 => 3,
        1 | 2 => 1,
        3..=5 => 3,
        6 => 2,
        _ => 0,
    }
}

// 1 to 16 variables, a head of 0 to 8, at most 32 conditions of each kind.
fn is_counted(q: &Query) -> bool
    ensures { result ≡ is_counted (asked q.now) }
{
    (1..=16).contains(&q.variables)
        && q.head_count <= 8
        && q.label_count <= 32
        && q.axis_count <= 32
}

// The code is an axis, and both variables are below v. A condition by value may hold any code: refusal 5 is given for it.
fn is_axis_named(c: &Condition, v: usize) -> bool
    ensures { result ≡ is_axis_named v c.now }
{
    c.code < 7 && usize::from(c.first) < v && usize::from(c.second) < v
}

// Each place of the head has a variable below v that no earlier place has.
fn is_head_named(head: &[u8], v: usize) -> bool
    ensures { result ≡ every (length head.now) (λ i. is_head_named v head.now i) }
{
    head.iter()
        .enumerate()
        .all(|(i, x)| usize::from(*x) < v && !head[..i].contains(x))
}

// Every code is an axis, every variable below the number of variables, no variable in the head twice.
fn is_named(q: &Query) -> bool
    requires { (q.now.axis_count ≤ 32) × (q.now.label_count ≤ 32) × (q.now.head_count ≤ 8) }
    ensures { result ≡ is_named (asked q.now) }
{
    let v = q.variables;
    q.axes[..q.axis_count].iter().all(|c| is_axis_named(c, v))
        && q.labels[..q.label_count]
            .iter()
            .all(|c| usize::from(c.variable) < v)
        && is_head_named(&q.head[..q.head_count], v)
}

// All axes are in set s.
fn are_axes_of(axes: &[Condition], s: u8) -> bool
    ensures { result ≡ are_axes_of axes.now s }
{
    axes.iter().all(|c| axis_set(c.code) == s)
}

// The set that holds all the axes, the first where several do.
fn one_set(axes: &[Condition]) -> Option<u8>
    ensures { result ≡ one_set_of axes.now }
{
    (1..4).find(|s| are_axes_of(axes, *s))
}

// Is the query accepted, and which set does it take? Document 01's number of the set is the answer. Any values in any field.
pub fn check_query(q: Query) -> Result<u8, Refusal>
    ensures { result ≡ query_answer (asked q) }
{
    if !is_counted(&q) {
        return Err(Refusal::Counts);
    }
    if !is_named(&q) {
        return Err(Refusal::Variables);
    }
    one_set(&q.axes[..q.axis_count]).ok_or(Refusal::Axes)
}
