// One trial each: what a reading answers, what it leaves in the columns, and the rest. Refusals are told by document 01's number
// and the place, in which the tests are written.
use meaning::SentenceReading;

// Printed by the kit's io, which takes bytes and numbers.
pub(crate) fn fails(trial: u64, ok: bool) {
    if !ok {
        io::print_decimal(1, trial);
        io::write_all(1, b"\n");
    }
}

// The rows and the end of the sentence, or the number and the place of the refusal.
pub(crate) fn read(
    text: &[u8],
    names: &[u8],
    post: &mut [u16],
    label: &mut [u16],
) -> Result<(usize, usize), (u8, usize)> {
    brackets::read_sentence(text, names, post, label)
        .map(|sentence| (sentence.rows, sentence.end))
        .map_err(|why| (why.number(), why.place()))
}

// Whether a column holds the rows and then only 7.
fn holds(column: &[u16], rows: &[u16]) -> bool {
    column.starts_with(rows) && column.iter().skip(rows.len()).all(|row| *row == 7)
}

// The text is read to these columns.
pub(crate) fn table(text: &[u8], names: &[u8], posts: &[u16], labels: &[u16]) -> bool {
    let mut post = [7; 32];
    let mut label = [7; 32];
    let told = read(text, names, &mut post, &mut label);
    matches!(told, Ok((rows, _)) if rows == posts.len())
        && holds(&post, posts)
        && holds(&label, labels)
}

// The text is refused with this number and place, and nothing is written.
pub(crate) fn refused(text: &[u8], number: u8, place: usize) -> bool {
    let mut post = [7; 32];
    let mut label = [7; 32];
    let told = read(text, b"A\nB\n", &mut post, &mut label);
    told == Err((number, place)) && holds(&post, &[]) && holds(&label, &[])
}

// The text is read: so many rows, up to this place.
pub(crate) fn left(text: &[u8], rows: usize, end: usize) -> bool {
    read(text, b"", &mut [7; 1024], &mut [7; 1024]) == Ok((rows, end))
}

// A short sentence is read with this list of names.
pub(crate) fn takes(names: &[u8]) -> bool {
    read(b"(A a)", names, &mut [7; 4], &mut [7; 4]).is_ok()
}

// The list has too many names.
pub(crate) fn miscounts(names: &[u8]) -> bool {
    read(b"(A a)", names, &mut [7; 4], &mut [7; 4]) == Err((4, 0))
}

fn read_three(post: &mut [u16], label: &mut [u16]) -> Result<(usize, usize), (u8, usize)> {
    read(b"(A (B b)(C c))", b"B\n", post, label)
}

// Three rows are read into these columns of 7, and nothing is written past the rows.
pub(crate) fn reads_three(post: &mut [u16], label: &mut [u16]) -> bool {
    read_three(post, label).is_ok() && holds(post, &[2, 0, 1]) && holds(label, &[65535, 0, 65535])
}

// One of these columns of 7 is short of three rows, and nothing is written.
pub(crate) fn is_short_of_three(post: &mut [u16], label: &mut [u16]) -> bool {
    read_three(post, label) == Err((9, 0)) && holds(post, &[]) && holds(label, &[])
}

// What a reading hands back.
fn rest_of(text: &[u8]) -> &[u8] {
    let answer = brackets::read_sentence(text, b"", &mut [7; 1024], &mut [7; 1024]);
    brackets::rest(text, answer)
}

pub(crate) fn rest_is(text: &[u8], want: &[u8]) -> bool {
    rest_of(text) == want
}

// An answer that no reading of this text gives: the rest is empty.
pub(crate) fn rest_past() -> bool {
    brackets::rest(b"ab", Ok(SentenceReading { rows: 1, end: 9 })).is_empty()
}

// How many sentences stand one after the other, at most 9.
pub(crate) fn sentences(text: &[u8]) -> usize {
    let mut rest = text;
    for n in 0..9 {
        let next = rest_of(rest);
        if next.len() == rest.len() {
            return n;
        }
        rest = next;
    }
    9
}

// Every cut of a legal text ends early, so its length is the place.
pub(crate) fn cuts(text: &[u8]) -> bool {
    (0..text.len()).all(|n| refused(&text[..n], 11, n))
}

// Every byte of a legal text damaged, one at a time: the place is that byte. The text fills the buffer.
pub(crate) fn damaged(text: &mut [u8], b: u8) -> bool {
    for i in 0..text.len() {
        let was = text[i];
        text[i] = b;
        if !refused(text, 11, i) {
            return false;
        }
        text[i] = was;
    }
    true
}
