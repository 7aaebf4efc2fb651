// The public face: a tree as a view over the caller's two columns, the axis conditions as a lent list of records.
#![tactic(auto)]

ghost use Rattle.std.specs.Prelude.{◌≡◌, [], ℕ, ◌≤◌, ◌<◌, length, get_or};
ghost use Rattle.meaning.specs.Query.{no-condition};
ghost use Rattle.meaning.specs.Sentences.{SentenceRead};
ghost use Rattle.table.specs.Rows.{Accepted};
ghost use Rattle.pouchmeadow.specs.Promised.{axis_among, axis_on, ChecksTable, TestsAxis, TakesTerms, ChecksQuery, Prunes, SaysYesOrNo, FindsAfter, Lists, ReadsQuery, HandsBack};
ghost use Rattle.pouchmeadow.specs.Lent.{lent};
ghost use Rattle.pouchmeadow.specs.Gathered.{gathered, placed, few};

use meaning::{
    Axis, Condition, LabelCondition, Listing, Query, QueryReading, Refusal, SentenceReading,
};
use table::Tree;

// A tree as its caller holds it: the post numbers and the labels of its rows.
#[derive(Clone, Copy)]
pub struct TreeView<'a> {
    pub post: &'a [u16],
    pub label: &'a [u16],
}

// A query but for its axis conditions, which are lent beside it, as document 01 has it. Of each array the first places count, as
// many as its number says: no heap.
#[derive(Clone, Copy)]
pub struct Terms {
    pub variables: usize,
    pub head_count: usize,
    pub head: [u8; 8],
    pub label_count: usize,
    pub labels: [LabelCondition; 32],
}

// The terms of a query by value, as the reader of query texts gives one. Its axis conditions can then be lent as a list. The name
// is promised, so it is no `From`.
pub fn terms_of(q: Query) -> Terms
    ensures { TakesTerms q result }
{
    let head = q.head;
    let labels = q.labels;
    Terms {
        variables: q.variables,
        head_count: q.head_count,
        head,
        label_count: q.label_count,
        labels,
    }
}

// Is it a tree? Any two columns.
pub fn check_table<'a>(tree: TreeView<'a>) -> Result<(), Refusal>
    ensures { ChecksTable tree.entry.post.now tree.entry.label.now result }
{
    table::check_table(tree.post, tree.label)
}

// The axis test on an accepted table. The code may be any number, as document 01's axis test has it.
fn axis_of_tree(post: &[u16], code: u8, p: usize, q: usize) -> bool
    requires { Accepted post.now }
    ensures { result ≡ axis_among post.now code p q }
{
    let Ok(axis) = Axis::try_from(code) else {
        return false;
    };
    if post.len() <= p || post.len() <= q {
        return false;
    }
    let mut parents = [0u16; 1024];
    let mut levels = [0u16; 1024];
    prune::fill_columns(post, &mut parents, &mut levels);
    let tree = Tree {
        post,
        parents: &parents,
        levels: &levels,
    };
    tree.axis_holds(axis, p, q)
}

// The axis test on any two columns: the table check comes first.
fn axis_on(post: &[u16], label: &[u16], code: u8, p: usize, q: usize) -> bool
    ensures { result ≡ axis_on post.now label.now code p q }
{
    let t = table::check_table(post, label);
    match t {
        Err(_) => false,
        Ok(()) => axis_of_tree(post, code, p, q),
    }
}

// Does the axis hold from row p to row q? No, where the columns are no tree, the code is no axis, or a row is outside the tree.
pub fn axis_holds<'a>(tree: TreeView<'a>, code: u8, p: usize, q: usize) -> bool
    ensures { TestsAxis tree.entry.post.now tree.entry.label.now code p q result }
{
    axis_on(tree.post, tree.label, code, p, q)
}

// One record of a lent list, by value. Document 01's form: few thin functions read the list.
fn condition_of(axes: &[Condition], i: usize) -> Condition
    requires { i < length axes.now }
    ensures { result ≡ get_or axes.now i no-condition }
{
    axes[i]
}

// The query that counts n axis conditions, with none in place yet.
fn empty(terms: Terms, n: usize) -> Query
    ensures { result ≡ gathered terms [] n 0 }
{
    let head = terms.head;
    let labels = terms.labels;
    Query {
        variables: terms.variables,
        head_count: terms.head_count,
        head,
        label_count: terms.label_count,
        labels,
        axis_count: n,
        axes: [Condition::NONE; 32],
    }
}

// A query with the record c at place i of its axis conditions.
fn put(q: Query, i: usize, c: Condition) -> Query
    requires { i < 32 }
    ensures { result ≡ placed q i c }
{
    let mut r = q;
    r.axes[i] = c;
    r
}

// The smaller of a count and 32.
#[tactic(auto, unfolding(crate::specs::Gathered::few))]
fn most(n: usize) -> usize
    ensures { result ≡ few n }
{
    if n < 32 { n } else { 32 }
}

// A lent list of any length as a query by value: all its records are counted, and the first 32 of them are copied.
fn gather(terms: Terms, axes: &[Condition]) -> Query
    ensures { result ≡ gathered terms axes.now (length axes.now) (few (length axes.now)) }
{
    let n = axes.len();
    let mut q = empty(terms, n);
    for i in 0..most(n) {
        let c = condition_of(axes, i);
        q = put(q, i, c);
    }
    q
}

// Is the query accepted, and which set does it take?
pub fn check_query(terms: Terms, axes: &[Condition]) -> Result<u8, Refusal>
    ensures { ChecksQuery (lent terms axes.now) result }
{
    let q = gather(terms, axes);
    query::check_query(q)
}

// Prunes the label sets: the sets that are left in the buffer's first words, and how many rows were struck.
pub fn prune<'a>(
    tree: TreeView<'a>,
    terms: Terms,
    axes: &[Condition],
    sets: &mut [u64],
) -> Result<u64, Refusal>
    ensures { Prunes tree.entry.post.now tree.entry.label.now (lent terms axes.now) sets.old result sets.new }
{
    let q = gather(terms, axes);
    prune::prune(tree.post, tree.label, q, sets)
}

// Does some choice of rows meet all conditions? An empty head is welcome.
pub fn yes_or_no<'a>(
    tree: TreeView<'a>,
    terms: Terms,
    axes: &[Condition],
    sets: &mut [u64],
) -> Result<bool, Refusal>
    ensures { SaysYesOrNo tree.entry.post.now tree.entry.label.now (lent terms axes.now) sets.old result sets.new }
{
    let q = gather(terms, axes);
    answers::yes_or_no(tree.post, tree.label, q, sets)
}

// Finds the first answer after a tuple, in the query's order; the tuple need not be an answer.
pub fn find_after<'a>(
    tree: TreeView<'a>,
    terms: Terms,
    axes: &[Condition],
    tuple: &[u16],
    sets: &mut [u64],
    found: &mut [u16],
) -> Result<bool, Refusal>
    ensures { FindsAfter tree.entry.post.now tree.entry.label.now (lent terms axes.now) tuple.now sets.old found.old result sets.new found.new }
{
    let q = gather(terms, axes);
    answers::find_after(tree.post, tree.label, q, tuple, sets, found)
}

// Lists the answers, rising in the query's order, from the first on, as many as the room holds and the allowance pays for.
pub fn list_answers<'a>(
    tree: TreeView<'a>,
    terms: Terms,
    axes: &[Condition],
    allowance: u64,
    sets: &mut [u64],
    found: &mut [u16],
) -> Result<Listing, Refusal>
    ensures { Lists tree.entry.post.now tree.entry.label.now (lent terms axes.now) allowance sets.old found.old result sets.new found.new }
{
    let q = gather(terms, axes);
    answers::list_answers(tree.post, tree.label, q, allowance, sets, found)
}

// Reads a query text: its query by value, and its label names into a lent buffer. A refusal has no query beside it:
// `QueryReading::query_for` gives the blank one.
pub fn read_query(text: &[u8], names: &mut [u8]) -> Result<QueryReading, Refusal>
    ensures { ReadsQuery text.now names.old result names.new }
{
    query_text::read_query(text, names)
}

// Reads the sentence at a text's front: post numbers and label numbers go to the fronts of the two columns.
pub fn read_sentence(
    text: &[u8],
    names: &[u8],
    post: &mut [u16],
    label: &mut [u16],
) -> Result<SentenceReading, Refusal>
    ensures { SentenceRead text.now names.now post.old label.old result post.new label.new }
{
    brackets::read_sentence(text, names, post, label)
}

// The part of the text behind the sentence that an answer tells of; the whole text where the answer is a refusal.
pub fn rest<'a>(text: &'a [u8], answer: Result<SentenceReading, Refusal>) -> &'a [u8]
    ensures { HandsBack text.now answer result.now }
{
    brackets::rest(text, answer)
}
