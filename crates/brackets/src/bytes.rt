// White space, labels and words.
ghost use Rattle.std.specs.Prelude.{◌≡◌, ℕ, ◌≤◌, length, get_or, drop};
ghost use Rattle.meaning.specs.Sentences.{white, inner};
ghost use Rattle.brackets.specs.Reader.{skip};
ghost use Rattle.brackets.specs.Meets.{Letters};

// The byte at a place, and 0 past the end: no byte of a sentence is 0. Callers compare it with one byte, as they would an Option.
pub(crate) fn peek(text: &[u8], at: usize) -> u8
    ensures { result ≡ get_or text.now at 0 }
{
    text.get(at).copied().unwrap_or(0)
}

// Most bytes that are tried stand above the space: one comparison settles it.
pub(crate) fn is_white(b: u8) -> bool
    ensures { result ≡ white b }
{
    b <= b' ' && matches!(b, b' ' | b'\t' | b'\n' | b'\r')
}

// Nearly every letter stands behind the parentheses, which follow each other.
pub(crate) fn is_inner(b: u8) -> bool
    ensures { result ≡ inner b }
{
    b')' < b || b' ' < b && b < b'('
}

// Where the white space at a place ends. Here and below `position` would count from the place, and not from the text's front.
pub(crate) fn skip_white(text: &[u8], at: usize) -> usize
    requires { at ≤ length text.now }
    ensures { (drop result text.now ≡ skip (drop at text.now)) × (at ≤ result) × (result ≤ length text.now) }
{
    for i in at..text.len() {
        if !is_white(text[i]) {
            return i;
        }
    }
    text.len()
}

// Where the letters at a place end. Who reads a label or word refuses more than 64: the loop has one bound.
pub(crate) fn letters_end(text: &[u8], at: usize) -> usize
    requires { at ≤ length text.now }
    ensures { Letters text.now at result }
{
    for i in at..text.len() {
        if !is_inner(text[i]) {
            return i;
        }
    }
    text.len()
}
