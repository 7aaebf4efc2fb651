// The lines that a run prints, byte after byte into a lent buffer. Not by Display: the bytes are proved, and there is no heap.
// Buffer and place come apart, since `Wrote` says of both what a call did.
ghost use Rattle.std.specs.Prelude.{◌≡◌, List, [], ◌∷◌, ◌++◌, map, ℕ, ◌+◌, ◌*◌, ◌≤◌, ◌<◌, length};
ghost use Rattle.meaning.specs.Run.{decimal, spaced, line, tuple_lines, word, ending_line, refusal_line};
ghost use Rattle.search.specs.Wrote.{Wrote, rows_spaced, chunks};

use meaning::{Ending, Listing, Refusal};

fn put_byte(out: &mut [u8], at: usize, b: u8) -> usize
    requires { at < length out.old }
    ensures { Wrote out.old at 1 (b ∷ []) out.new result }
{
    out[at] = b;
    at + 1
}

// A number in decimal digits: those before the last, and then the last.
fn put_decimal(out: &mut [u8], at: usize, n: u64) -> usize
    requires { at + 20 ≤ length out.old }
    ensures { Wrote out.old at 20 (decimal n) out.new result }
{
    let digit = 48 + (n % 10) as u8;
    if n < 10 {
        return put_byte(out, at, digit);
    }
    let next = put_decimal(out, at, n / 10);
    put_byte(out, next, digit)
}

fn put_word(out: &mut [u8], at: usize, word: &[u8]) -> usize
    requires { at + length word.now ≤ length out.old }
    ensures { Wrote out.old at (length word.now) word.now out.new result }
{
    let end = at + word.len();
    out[at..end].copy_from_slice(word);
    end
}

// A space and a number.
fn put_number(out: &mut [u8], at: usize, n: u64) -> usize
    requires { at + 21 ≤ length out.old }
    ensures { Wrote out.old at 21 (32 ∷ decimal n) out.new result }
{
    let next = put_byte(out, at, b' ');
    put_decimal(out, next, n)
}

// A tuple's row numbers, each after a space.
fn put_rows(out: &mut [u8], at: usize, tuple: &[u16]) -> usize
    requires { at + length tuple.now * 21 ≤ length out.old }
    ensures { Wrote out.old at (length tuple.now * 21) (rows_spaced tuple.now) out.new result }
{
    let mut next = at;
    for row in tuple {
        next = put_number(out, next, *row as u64);
    }
    next
}

// The line of one tuple.
fn put_tuple(out: &mut [u8], at: usize, sentence: u64, tuple: &[u16]) -> usize
    requires { at + (length tuple.now + 1) * 21 ≤ length out.old }
    ensures { Wrote out.old at ((length tuple.now + 1) * 21) (line sentence (map decimal tuple.now)) out.new result }
{
    let rows = put_decimal(out, at, sentence);
    let end = put_rows(out, rows, tuple);
    put_byte(out, end, b'\n')
}

// The lines of n tuples of k rows each.
pub(crate) fn put_tuples(out: &mut [u8], sentence: u64, found: &[u16], k: usize, n: usize) -> usize
    requires { (n * ((k + 1) * 21) ≤ length out.old) × (n * k ≤ length found.now) }
    ensures { Wrote out.old 0 (n * ((k + 1) * 21)) (tuple_lines sentence (chunks k n found.now)) out.new result }
{
    let mut at: usize = 0;
    for j in 0..n {
        at = put_tuple(out, at, sentence, &found[j * k..j * k + k]);
    }
    at
}

fn put_ending(out: &mut [u8], at: usize, e: Ending) -> usize
    requires { at + 9 ≤ length out.old }
    ensures { Wrote out.old at 9 (32 ∷ word e) out.new result }
{
    match e {
        Ending::Finished => put_word(out, at, b" finished"),
        Ending::Full => put_word(out, at, b" full"),
        Ending::Spent => put_word(out, at, b" spent"),
    }
}

// The line after a sentence.
pub(crate) fn put_end(out: &mut [u8], at: usize, sentence: u64, listing: Listing) -> usize
    requires { at + 72 ≤ length out.old }
    ensures { Wrote out.old at 72 (ending_line sentence listing.ending listing.tuples listing.strikings) out.new result }
{
    let word = put_decimal(out, at, sentence);
    let a = put_ending(out, word, listing.ending);
    let b = put_number(out, a, listing.tuples as u64);
    let c = put_number(out, b, listing.strikings);
    put_byte(out, c, b'\n')
}

// The line of a refusal.
pub(crate) fn put_refusal(out: &mut [u8], sentence: u64, r: Refusal) -> usize
    requires { 72 ≤ length out.old }
    ensures { Wrote out.old 0 72 (refusal_line sentence r) out.new result }
{
    let a = put_decimal(out, 0, sentence);
    let b = put_word(out, a, b" refused");
    let c = put_number(out, b, r.number() as u64);
    let d = put_number(out, c, r.place() as u64);
    put_byte(out, d, b'\n')
}
