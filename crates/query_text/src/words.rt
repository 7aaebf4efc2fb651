// The words of a text.
ghost use Rattle.std.specs.Prelude.{◌≡◌, true, false, MatchOption, ◌<◌, [], length, map};
ghost use Rattle.meaning.specs.QueryTexts.{words, place_in, has, is_variable as is_variable_of, axis-names};
ghost use Rattle.query_text.specs.Tables.{Front, Next};

use crate::letters::{is_in_word, is_lower};

// How many bytes at the front of a text are of a word, or how many are not.
fn front(text: &[u8], of_word: bool) -> usize
    ensures { Front text.now of_word result }
{
    text.iter()
        .position(|b| is_in_word(*b) != of_word)
        .unwrap_or(text.len())
}

// The next word of a text, and what stands behind it.
pub(crate) fn next_word(text: &[u8]) -> Option<(&[u8], &[u8])>
    ensures { MatchOption result (words [] text.now ≡ []) (λ p. Next text.now p.0.now p.1.now) }
{
    let (_, word_on) = text.split_at(front(text, false));
    if word_on.is_empty() {
        return None;
    }
    Some(word_on.split_at(front(word_on, true)))
}

// A variable is told by its first letter.
pub(crate) fn is_variable(word: &[u8]) -> bool
    ensures { result ≡ is_variable_of word.now }
{
    match word {
        [first, ..] => is_lower(*first),
        [] => false,
    }
}

// The place of a word among others.
pub(crate) fn place_of(others: &[&[u8]], word: &[u8]) -> Option<usize>
    ensures { MatchOption result (has (map (λ x. x.now) others.now) word.now ≡ false)
        (λ k. (has (map (λ x. x.now) others.now) word.now ≡ true) × (k ≡ place_in (map (λ x. x.now) others.now) word.now) × (k < length others.now)) }
{
    others.iter().position(|other| *other == word)
}

// The code of an axis name, for a condition by value: its place among the names.
pub(crate) fn axis_code(word: &[u8]) -> Option<u8>
    ensures { MatchOption result (has axis-names word.now ≡ false) (λ c. (has axis-names word.now ≡ true) × (c ≡ place_in axis-names word.now)) }
{
    let names: [&[u8]; 7] = [
        b"Child",
        b"Child+",
        b"Child*",
        b"NextSibling",
        b"NextSibling+",
        b"NextSibling*",
        b"Following",
    ];
    let code = place_of(&names, word)?;
    Some(code as u8)
}
