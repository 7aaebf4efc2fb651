// The query of a text, filled word by word.
ghost use Rattle.std.specs.Prelude.{◌≡◌, true, false, ◌≤◌, MatchResult};
ghost use Rattle.meaning.specs.declared.Refusal.TheVariants.{Counts};
ghost use Rattle.meaning.specs.QueryTexts.{said, outside, query_of, names};
ghost use Rattle.query_text.specs.Filling.{variable_for, Within, over_parts};
ghost use Rattle.query_text.specs.Tables.{texts};

use crate::tables::{number, push};
use crate::words::{axis_code, is_variable, next_word};
use arrayvec::ArrayVec;
use meaning::{Condition, LabelCondition, Query, Refusal};

// What the next variable is for: the head, a label's condition, an axis (the first variable, the second), or nothing more. An
// axis stays the code that a condition by value holds.
#[derive(Clone, Copy)]
pub(crate) enum Item {
    Head,
    Label(u16),
    Axis(u8),
    Second(u8, u8),
    Done,
}

// The query so far, and what its next variable is for.
#[derive(Drop)]
pub(crate) struct Filling {
    pub query: Query,
    pub item: Item,
}

impl Filling {
    // Puts variable v where it is wanted. A count past its limit refuses the text.
    fn put(&mut self, v: u8) -> Result<(), Refusal>
        requires { Within self.old.query }
        ensures { MatchResult result
            (λ _. (self.new ≡ variable_for self.old.query self.old.item v) × Within self.new.query)
            (λ why. (why ≡ Counts) × (over_parts (variable_for self.old.query self.old.item v).query ≡ true)) }
    {
        let q = &mut self.query;
        match self.item {
            Item::Head => q.head_count = push(&mut q.head, q.head_count, v)?,
            Item::Label(label) => {
                q.label_count = push(
                    &mut q.labels,
                    q.label_count,
                    LabelCondition { variable: v, label },
                )?;
                self.item = Item::Done;
            }
            Item::Axis(code) => self.item = Item::Second(code, v),
            Item::Second(code, first) => {
                q.axis_count = push(
                    &mut q.axes,
                    q.axis_count,
                    Condition {
                        code,
                        first,
                        second: v,
                    },
                )?;
                self.item = Item::Done;
            }
            Item::Done => {}
        }
        Ok(())
    }
}

// The query of a text and its label names.
#[derive(Drop)]
pub(crate) struct Words<'a> {
    pub query: Query,
    pub names: ArrayVec<&'a [u8], 32>,
}

// The words behind the Q: a variable goes where the last name wants it, a name says what comes next.
pub(crate) fn read_words(text: &[u8]) -> Result<Words<'_>, Refusal>
    ensures { MatchResult result
        (λ r. (outside (said text.now) ≡ false) × (r.query ≡ query_of (said text.now)) × (texts r.names ≡ names (said text.now)) × Within r.query)
        (λ why. (why ≡ Counts) × (outside (said text.now) ≡ true)) }
{
    let mut filling = Filling {
        query: Query::blank(),
        item: Item::Head,
    };
    let mut variables = ArrayVec::<&[u8], 16>::new();
    let mut names = ArrayVec::<&[u8], 32>::new();
    let (_, mut rest) = text.split_at(text.len().min(1));
    while let Some((word, behind)) = next_word(rest) {
        rest = behind;
        if is_variable(word) {
            let v = number(&mut variables, word)?;
            filling.put(v as u8)?;
        } else if let Some(code) = axis_code(word) {
            filling.item = Item::Axis(code);
        } else {
            let n = number(&mut names, word)?;
            filling.item = Item::Label(n as u16);
        }
    }
    filling.query.variables = variables.len();
    Ok(Words {
        query: filling.query,
        names,
    })
}
