// The tree reader and the body reader, which call each other, and the sentence around a tree.
ghost use Rattle.std.specs.Prelude.{◌≡◌, ℕ, ◌+◌, ◌-◌, ◌≤◌, ◌<◌, length, get_or};
ghost use Rattle.brackets.specs.Meets.{MeetsLabel, Closed, MeetsLeaf, MeetsTree, MeetsBody, MeetsWhole};

use crate::bytes::{is_inner, is_white, letters_end, peek, skip_white};
use crate::names::Names;
use meaning::{Refusal, SentenceReading};

// What a sentence is read from: its text, and the list of names.
#[derive(Clone, Copy)]
pub(crate) struct Source<'a> {
    pub(crate) text: &'a [u8],
    pub(crate) names: &'a Names<'a>,
}

// What it is read into: a post number and a label number for each row.
#[derive(Drop)]
pub(crate) struct Columns<'a> {
    pub(crate) post: &'a mut [u16; 1024],
    pub(crate) label: &'a mut [u16; 1024],
}

// A row: its number, and the levels left for it. Its level, by which these are less than 64, is at most its number.
#[derive(Clone, Copy)]
struct Row {
    number: usize,
    levels: usize,
    ghost level: { (levels ≤ 64) × (64 ≤ levels + number) },
}

// Where a row's label ends, and where the white space behind it ends.
#[derive(Clone, Copy)]
struct Label {
    end: usize,
    body: usize,
}

// A row's label, from just behind its opening parenthesis.
fn row_label(text: &[u8], at: usize, row: Row) -> Result<Label, Refusal>
    requires { (1 ≤ at) × (at ≤ length text.now) }
    ensures { MeetsLabel text.now at row.levels row.number result }
{
    if row.levels == 0 || 1024 <= row.number {
        return Err(Refusal::TooLarge(at - 1));
    }
    let end = letters_end(text, at);
    if end == at {
        return Err(Refusal::Brackets(at));
    }
    if 64 < end - at {
        return Err(Refusal::Brackets(at + 64));
    }
    if !is_white(peek(text, end)) {
        return Err(Refusal::Brackets(end));
    }
    let body = skip_white(text, end + 1);
    Ok(Label { end, body })
}

// The closing parenthesis of a row, with `rows` read. A row's post number is its row number, plus the rows below it,
// minus its level.
fn close(
    text: &[u8],
    at: usize,
    rows: usize,
    row: Row,
    post: &mut [u16; 1024],
) -> Result<SentenceReading, Refusal>
    requires { (row.number < rows) × (rows ≤ 1024) }
    ensures { Closed text.now at rows row.levels row.number result post.old post.new }
{
    if peek(text, at) != b')' {
        return Err(Refusal::Brackets(at));
    }
    post[row.number] = (rows - 1 - (64 - row.levels)) as u16;
    Ok(SentenceReading { rows, end: at + 1 })
}

// A leaf's word, and the leaf's closing parenthesis.
fn leaf(
    text: &[u8],
    at: usize,
    row: Row,
    post: &mut [u16; 1024],
) -> Result<SentenceReading, Refusal>
    requires { (at ≤ length text.now) × (row.number < 1024) }
    ensures { MeetsLeaf text.now at row.levels row.number result post.old post.new }
{
    let end = letters_end(text, at);
    if end == at {
        return Err(Refusal::Brackets(at));
    }
    if 64 < end - at {
        return Err(Refusal::Brackets(at + 64));
    }
    let next = skip_white(text, end);
    close(text, next, row.number + 1, row, post)
}

impl Source<'_> {
    // A row's tree, from just behind its opening parenthesis. It is a part of its callers, so that only a row with rows
    // below it costs a call.
    #[cycle(body_tree)]
    #[inline(always)]
    fn tree(
        &self,
        at: usize,
        row: Row,
        columns: &mut Columns<'_>,
    ) -> Result<SentenceReading, Refusal>
        requires { (1 ≤ at) × (at ≤ length self.now.text.now) }
        ensures { MeetsTree self.now.text.now self.now.names.now at row.levels row.number result columns.old.post.now columns.new.post.now columns.old.label.now columns.new.label.now }
    {
        let text = self.text;
        let label = row_label(text, at, row)?;
        columns.label[row.number] = self.names.number_of(&text[at..label.end]);
        if peek(text, label.body) != b'(' {
            return leaf(text, label.body, row, columns.post);
        }
        let first = Row {
            number: row.number + 1,
            levels: row.levels - 1,
        };
        let below = self.body(label.body, first, columns)?;
        close(text, below.end, below.rows, row, columns.post)
    }

    // A body of trees, each from its opening parenthesis, the first of row `first`; and the white space behind it.
    #[cycle(body_tree)]
    fn body(
        &self,
        at: usize,
        first: Row,
        columns: &mut Columns<'_>,
    ) -> Result<SentenceReading, Refusal>
        requires { get_or self.now.text.now at 0 ≡ 40 }
        ensures { MeetsBody self.now.text.now self.now.names.now at first.levels first.number result columns.old.post.now columns.new.post.now columns.old.label.now columns.new.label.now }
    {
        let levels = first.levels;
        let mut here = SentenceReading {
            rows: first.number,
            end: at,
        };
        loop {
            let row = Row {
                number: here.rows,
                levels,
            };
            let tree = self.tree(here.end + 1, row, columns)?;
            here = SentenceReading {
                rows: tree.rows,
                end: skip_white(self.text, tree.end),
            };
            if peek(self.text, here.end) != b'(' {
                return Ok(here);
            }
        }
    }

    // A sentence at the text's front, into columns that a refusal leaves in any state.
    pub(crate) fn sentence(&self, columns: &mut Columns<'_>) -> Result<SentenceReading, Refusal>
        ensures { MeetsWhole self.now.text.now self.now.names.now result columns.old.post.now columns.new.post.now columns.old.label.now columns.new.label.now }
    {
        let text = self.text;
        let outer = skip_white(text, 0);
        if peek(text, outer) != b'(' {
            return Err(Refusal::Brackets(outer));
        }
        let top = Row {
            number: 0,
            levels: 64,
        };
        let next = outer + 1;
        if is_inner(peek(text, next)) {
            return self.tree(next, top, columns);
        }
        let inside = skip_white(text, next);
        if peek(text, inside) != b'(' {
            return Err(Refusal::Brackets(inside));
        }
        let tree = self.tree(inside + 1, top, columns)?;
        let shut = skip_white(text, tree.end);
        if peek(text, shut) != b')' {
            return Err(Refusal::Brackets(shut));
        }
        Ok(SentenceReading {
            rows: tree.rows,
            end: shut + 1,
        })
    }
}
