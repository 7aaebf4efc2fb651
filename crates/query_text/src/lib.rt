// Reads a query text: its query by value, and its label names into a lent buffer.
#![tactic(auto)]

mod filling;
mod judge;
mod letters;
mod machine;
mod names;
mod tables;
mod words;

ghost use Rattle.std.specs.Prelude.{◌≡◌, length};
ghost use Rattle.meaning.specs.QueryTexts.{said, answer_of, reading_of, buffer_for, reading, buffer};

use crate::filling::read_words;
use crate::judge::{head_twice, head_unused};
use crate::machine::find;
use crate::names::{room_for, write_names};
use meaning::{QueryReading, Refusal};

// A text known to be legal. The buffer is written last, when nothing more can be refused.
fn read_legal(text: &[u8], names: &mut [u8]) -> Result<QueryReading, Refusal>
    ensures { (result ≡ reading_of (answer_of (said text.now) (length names.old)) (said text.now))
        × (names.new ≡ buffer_for (answer_of (said text.now) (length names.old)) (said text.now) names.old) }
{
    let read = read_words(text)?;
    let query = read.query;
    if head_twice(&query) {
        return Err(Refusal::Variables);
    }
    if head_unused(&query) {
        return Err(Refusal::HeadVariable);
    }
    let labels = read.names.as_slice();
    let Some(bytes) = room_for(labels, names.len()) else {
        return Err(Refusal::ShortBuffer);
    };
    write_names(labels, names);
    Ok(QueryReading { bytes, query })
}

// Any text and any buffer. On a refusal the buffer is as it was.
pub fn read_query(text: &[u8], names: &mut [u8]) -> Result<QueryReading, Refusal>
    ensures value { result ≡ reading text.now (length names.old) }
    ensures names_after { names.new ≡ buffer text.now names.old }
{
    find(text)?;
    read_legal(text, names)
}
