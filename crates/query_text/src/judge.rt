// What is asked of a query before its text is accepted. A query by value may have any counts: each test asks for those it reads.
ghost use Rattle.std.specs.Prelude.{◌≡◌, ◌≤◌, ◌==◌, ◌||◌, not, length, take};
ghost use Rattle.std.specs.List.{list_any};
ghost use Rattle.meaning.specs.Tests.{◌or◌};
ghost use Rattle.meaning.specs.QueryTexts.{twice, in_label_condition, in_axis_condition};

use meaning::Query;

// A variable stands twice in the head.
pub(crate) fn head_twice(q: &Query) -> bool
    requires { q.now.head_count ≤ 8 }
    ensures { result ≡ twice q.now }
{
    let head = &q.head[..q.head_count];
    head.iter().enumerate().any(|(i, v)| head[..i].contains(v))
}

fn labelled(q: &Query, v: u8) -> bool
    requires { q.now.label_count ≤ 32 }
    ensures inside { q.now.label_count ≤ length q.now.labels }
    ensures value { result ≡ list_any (λ c. c.variable == v) (take q.now.label_count q.now.labels) }
{
    q.labels[..q.label_count].iter().any(|c| c.variable == v)
}

fn related(q: &Query, v: u8) -> bool
    requires { q.now.axis_count ≤ 32 }
    ensures inside { q.now.axis_count ≤ length q.now.axes }
    ensures value { result ≡ list_any (λ c. c.first == v || c.second == v) (take q.now.axis_count q.now.axes) }
{
    q.axes[..q.axis_count]
        .iter()
        .any(|c| c.first == v || c.second == v)
}

fn asked_about(q: &Query, v: u8) -> bool
    requires { (q.now.label_count ≤ 32) × (q.now.axis_count ≤ 32) }
    ensures { result ≡ (in_label_condition q.now v or in_axis_condition q.now v) }
{
    labelled(q, v) || related(q, v)
}

// No condition asks about a variable of the head.
pub(crate) fn head_unused(q: &Query) -> bool
    requires { (q.now.head_count ≤ 8) × (q.now.label_count ≤ 32) × (q.now.axis_count ≤ 32) }
    ensures inside { q.now.head_count ≤ length q.now.«head» }
    ensures value { result ≡ list_any (λ v. not (in_label_condition q.now v or in_axis_condition q.now v)) (take q.now.head_count q.now.«head») }
{
    q.head[..q.head_count].iter().any(|v| !asked_about(q, *v))
}
