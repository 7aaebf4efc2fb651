// The place of a damaged or cut text, compared with one that is found by trying: the longest beginning that some legal
// sentence continues. The reader is asked here only whether a completed text is one sentence, never for a place.
use crate::seen::read;
use crate::texts::{long_label, long_word};
use trials::texts::Text;

// The whole text is one sentence, with nothing behind it.
fn is_sentence(text: &[u8]) -> bool {
    matches!(read(text, b"", &mut [7; 32], &mut [7; 32]), Ok((_, end)) if end == text.len())
}

// How many parentheses a text leaves open: none stands in a label or a word, so they are counted plainly.
fn open_in(text: &[u8]) -> usize {
    text.iter().fold(0, |open: usize, b| match b {
        b'(' => open.wrapping_add(1),
        b')' => open.saturating_sub(1),
        _ => open,
    })
}

// The beginning, these bytes, and then everything closed that the beginning leaves open make one sentence.
fn completes(beginning: &[u8], more: &[u8]) -> bool {
    let mut text = Text::<128>::new();
    text.add(beginning);
    text.add(more);
    text.add_times(b")", open_in(beginning));
    is_sentence(text.bytes())
}

// Some legal sentence continues the beginning. What is added makes a sentence of every beginning of one, wherever that
// ends:
// - in a word, behind a word, behind a tree in a tree or in the bare pair, or with the sentence: nothing;
// - in the white space behind a label: a word;
// - in or at the end of a label, also one of 64 bytes: white space and a word;
// - just behind an opening parenthesis, the first one or another: a label, white space and a word;
// - before the first parenthesis, or in the white space behind that of a bare pair: a tree.
// Nothing else can pass: a completed text that is one sentence begins with what was completed.
fn continues(beginning: &[u8]) -> bool {
    completes(beginning, b"")
        || completes(beginning, b"a")
        || completes(beginning, b" a")
        || completes(beginning, b"a a")
        || completes(beginning, b"(a a)")
}

// The length of the longest beginning that some legal sentence continues; every sentence continues the empty one.
fn longest(text: &[u8]) -> usize {
    (1..=text.len())
        .rev()
        .find(|p| continues(&text[..*p]))
        .unwrap_or(0)
}

// The text is refused with 11 at the place found by trying, or read up to where a sentence ends.
fn agrees(text: &[u8]) -> bool {
    match read(text, b"", &mut [7; 32], &mut [7; 32]) {
        Ok((_, end)) => end <= text.len() && is_sentence(&text[..end]),
        Err(why) => why == (11, longest(text)),
    }
}

// Every cut, the empty text and the whole one with them.
fn agrees_cut(text: &[u8]) -> bool {
    (0..=text.len()).all(|n| agrees(&text[..n]))
}

// One byte replaced.
fn agrees_with(text: &[u8], i: usize, b: u8) -> bool {
    let mut damaged = Text::<128>::new();
    damaged.add(text);
    damaged.put(i, b);
    agrees(damaged.bytes())
}

// Every byte replaced, one at a time, by each mark: white space, parentheses, what ends a name, a letter, and both sides of
// the line between what labels and words may hold and what they may not.
fn agrees_damaged(text: &[u8]) -> bool {
    let marks = b" \t\n\r()-=a!\x00\x01\x0b\x1f\x7f\xff";
    (0..text.len()).all(|i| marks.iter().all(|b| agrees_with(text, i, *b)))
}

// A legal text, all its cuts and all its damages.
fn agrees_all(text: &[u8]) -> bool {
    is_sentence(text) && agrees_cut(text) && agrees_damaged(text)
}

// Few levels and rows, so that 12 never comes in. At the end a label and a word of 64 bytes, where one byte more is too many.
pub(crate) fn tries() -> bool {
    agrees_all(b"( (S (NP (DT a) (NN dog)) (VP (VBD ran) (PP (IN in) (NP (NN rain))))) )")
        && agrees_all(b"(A (B b)(C c))")
        && agrees_all(b"(A a )")
        && agrees_all(b"((A a))")
        && agrees_all(b"\n(\t(A-B=1 \r (B b) (C cc) ) )")
        && agrees_all(long_label(64).bytes())
        && agrees_all(long_word(64).bytes())
}
