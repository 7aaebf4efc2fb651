// The variables or the label names of a text, each once, in the order of first appearance.
ghost use Rattle.std.specs.Prelude.{◌≡◌, MatchResult, ◌≤◌, ◌<◌, length, set, ◌+◌};
ghost use Rattle.meaning.specs.QueryTexts.{place_in};
ghost use Rattle.meaning.specs.declared.Refusal.TheVariants.{Counts};
ghost use Rattle.query_text.specs.Tables.{noted, texts};

use crate::words::place_of;
use arrayvec::ArrayVec;
use meaning::Refusal;

// Writes an item into place `count`, where there is one, and gives the new count: a query by value has arrays and counts, no
// heap.
pub(crate) fn push<T: Copy>(places: &mut [T], count: usize, item: T) -> Result<usize, Refusal>
    ensures { MatchResult result
        (λ n. (count < length places.old) × (places.new ≡ set places.old count item) × (n ≡ count + 1))
        (λ why. (why ≡ Counts) × (length places.old ≤ count)) }
{
    if count < places.len() {
        places[count] = item;
        Ok(count + 1)
    } else {
        Err(Refusal::Counts)
    }
}

// The number of a word, which is noted where it is new and there is room.
pub(crate) fn number<'a, const N: usize>(
    seen: &mut ArrayVec<&'a [u8], N>,
    word: &'a [u8],
) -> Result<usize, Refusal>
    ensures { MatchResult result
        (λ k. (length seen.new.items ≤ N) × (texts seen.new ≡ noted (texts seen.old) word.now) × (k ≡ place_in (texts seen.new) word.now) × (k < N))
        (λ why. (why ≡ Counts) × (N < length (noted (texts seen.old) word.now))) }
{
    if let Some(k) = place_of(seen.as_slice(), word) {
        return Ok(k);
    }
    let n = seen.len();
    if seen.try_push(word).is_err() {
        return Err(Refusal::Counts);
    }
    Ok(n)
}
