// A query as lists of numbers: gathered into a query by value, and written out from one. C lends plain numbers, two for a label
// condition and three for an axis condition, so each kind of list has its own loops.
ghost use Rattle.std.specs.Prelude.{◌≡◌, ℕ, ◌*◌, ◌≤◌, ◌<◌, length, get_or};
ghost use Rattle.meaning.specs.Query.{asked, no_label, no-condition};
ghost use Rattle.meaning.specs.QueryTexts.{query_for};
ghost use Rattle.meaning.specs.Entries.{at_front};
ghost use Rattle.export.specs.Lent.{narrowed, lent_label, lent_axis, is_whole, no_question, lent, label_numbers, axis_numbers};

use meaning::{Condition, LabelCondition, Query, QueryReading, Refusal};

// A variable of a query by value is a byte. What is above it is too large in any case.
#[tactic(auto, unfolding(crate::specs::Lent::narrowed))]
fn narrow(x: u16) -> u8
    ensures { result ≡ narrowed x }
{
    u8::try_from(x).unwrap_or(u8::MAX)
}

// The lists hold a head of at most 8 and whole conditions, at most 32 of each kind.
fn is_whole(head: usize, labels: usize, axes: usize) -> bool
    ensures { result ≡ is_whole head labels axes }
{
    head <= 8 && labels <= 64 && labels % 2 == 0 && axes <= 96 && axes % 3 == 0
}

fn gather_head(head: &[u8]) -> [u8; 8]
    requires { length head.now ≤ 8 }
    ensures { (k : ℕ) → k < length head.now → get_or result k 0 ≡ get_or head.now k 0 }
{
    let mut out = [0u8; 8];
    out[..head.len()].copy_from_slice(head);
    out
}

fn gather_labels(labels: &[u16], n: usize) -> [LabelCondition; 32]
    requires { (n ≤ 32) × (2 * n ≤ length labels.now) }
    ensures { (k : ℕ) → k < n → get_or result k no_label ≡ lent_label labels.now k }
{
    let mut out = [LabelCondition::NONE; 32];
    for i in 0..n {
        out[i] = LabelCondition {
            variable: narrow(labels[2 * i]),
            label: labels[2 * i + 1],
        };
    }
    out
}

fn gather_axes(axes: &[u8], n: usize) -> [Condition; 32]
    requires { (n ≤ 32) × (3 * n ≤ length axes.now) }
    ensures { (k : ℕ) → k < n → get_or result k no-condition ≡ lent_axis axes.now k }
{
    let mut out = [Condition::NONE; 32];
    for i in 0..n {
        out[i] = Condition {
            code: axes[3 * i],
            first: axes[3 * i + 1],
            second: axes[3 * i + 2],
        };
    }
    out
}

// The query of the lists. Any lists: those that hold no query within the limits give one that is refused 4.
pub(crate) fn gather(variables: usize, head: &[u8], labels: &[u16], axes: &[u8]) -> Query
    ensures { asked result ≡ lent variables head.now labels.now axes.now }
{
    if !is_whole(head.len(), labels.len(), axes.len()) {
        return Query::blank();
    }
    let h = gather_head(head);
    let label_count = labels.len() / 2;
    let l = gather_labels(labels, label_count);
    let axis_count = axes.len() / 3;
    let a = gather_axes(axes, axis_count);
    Query {
        variables,
        head_count: head.len(),
        head: h,
        label_count,
        labels: l,
        axis_count,
        axes: a,
    }
}

// The head of a query, to the front of `to`.
fn write_head(q: Query, to: &mut [u8])
    requires { (q.head_count ≤ 8) × (q.head_count ≤ length to.old) }
    ensures { to.new ≡ at_front (asked q).head to.old }
{
    let n = q.head_count;
    let head = q.head;
    to[..n].copy_from_slice(&head[..n]);
}

// Its label conditions, two numbers each.
fn write_labels(q: Query, to: &mut [u16])
    requires { (q.label_count ≤ 32) × (2 * q.label_count ≤ length to.old) }
    ensures { to.new ≡ at_front (label_numbers (asked q).labels) to.old }
{
    let labels = q.labels;
    for i in 0..q.label_count {
        let c = labels[i];
        to[2 * i] = c.variable as u16;
        to[2 * i + 1] = c.label;
    }
}

// Its axis conditions, three numbers each.
fn write_axes(q: Query, to: &mut [u8])
    requires { (q.axis_count ≤ 32) × (3 * q.axis_count ≤ length to.old) }
    ensures { to.new ≡ at_front (axis_numbers (asked q).axes) to.old }
{
    let axes = q.axes;
    for i in 0..q.axis_count {
        let c = axes[i];
        to[3 * i] = c.code;
        to[3 * i + 1] = c.first;
        to[3 * i + 2] = c.second;
    }
}

// The query of a reading as three lists; a refused text writes nothing.
pub(crate) fn write_reading(
    r: Result<QueryReading, Refusal>,
    head: &mut [u8; 8],
    labels: &mut [u16; 64],
    axes: &mut [u8; 96],
)
    requires { ((query_for r).head_count ≤ 8) × ((query_for r).label_count ≤ 32) × ((query_for r).axis_count ≤ 32) }
    ensures { (head.new ≡ at_front (asked (query_for r)).head head.old)
        × (labels.new ≡ at_front (label_numbers (asked (query_for r)).labels) labels.old)
        × (axes.new ≡ at_front (axis_numbers (asked (query_for r)).axes) axes.old) }
{
    if let Ok(reading) = r {
        write_head(reading.query, head);
        write_labels(reading.query, labels);
        write_axes(reading.query, axes);
    }
}
