// Reads a bracketed sentence from the front of a text into two lent columns.
#![tactic(auto)]

ghost use Rattle.std.specs.Prelude.{◌≡◌, ℕ, ◌≤◌, length};
ghost use Rattle.meaning.specs.Sentences.{SentenceRead, sentence_rest, blank};
ghost use Rattle.brackets.specs.Meets.{HandedOver};

mod bytes;
mod names;
mod trees;

use arrayvec::ArrayVec;
use meaning::{Refusal, SentenceReading};
use names::Names;
use trees::{Columns, Source};

// Hands a sentence's rows over to the lent columns, where both are long enough.
fn hand_over(
    reading: SentenceReading,
    columns: &Columns<'_>,
    post: &mut [u16],
    label: &mut [u16],
) -> Result<SentenceReading, Refusal>
    requires { reading.rows ≤ 1024 }
    ensures { HandedOver reading columns.now.post.now columns.now.label.now result post.old post.new label.old label.new }
{
    let rows = reading.rows;
    if post.len() < rows || label.len() < rows {
        return Err(Refusal::ShortBuffer);
    }
    post[..rows].copy_from_slice(&columns.post[..rows]);
    label[..rows].copy_from_slice(&columns.label[..rows]);
    Ok(reading)
}

// The sentence at the text's front: post numbers and label numbers go to the fronts of the two columns. It is read into
// columns of its own and handed over at the end, so that a refusal changes nothing.
pub fn read_sentence(
    text: &[u8],
    names: &[u8],
    post: &mut [u16],
    label: &mut [u16],
) -> Result<SentenceReading, Refusal>
    ensures { SentenceRead text.now names.now post.old label.old result post.new label.new }
{
    let mut ends = ArrayVec::new();
    let mut noted = [false; 256];
    names::find(names, &mut ends, &mut noted)?;
    let names = Names::of(names, &ends, &noted);
    let mut posts = [0; 1024];
    let mut labels = [0; 1024];
    let mut columns = Columns {
        post: &mut posts,
        label: &mut labels,
    };
    let source = Source {
        text,
        names: &names,
    };
    let reading = source.sentence(&mut columns)?;
    hand_over(reading, &columns, post, label)
}

// The part of the text behind the sentence that an answer tells of; the whole text where the answer is a refusal.
pub fn rest<'a>(text: &'a [u8], answer: Result<SentenceReading, Refusal>) -> &'a [u8]
    ensures { result.now ≡ sentence_rest text.now answer }
{
    match answer {
        Ok(sentence) => &text[sentence.end.min(text.len())..],
        Err(_) => text,
    }
}

// Is there only white space in the text?
pub fn is_blank(text: &[u8]) -> bool
    ensures { result ≡ blank text.now }
{
    text.iter().all(|b| bytes::is_white(*b))
}
