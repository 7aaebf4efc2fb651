// Short and long texts, and texts at the limits.
use trials::texts::Text;

pub(crate) fn long_word(n: usize) -> Text<128> {
    let mut text = Text::new();
    text.add(b"(A ");
    text.add_times(b"x", n);
    text.add(b")");
    text
}

pub(crate) fn long_label(n: usize) -> Text<128> {
    let mut text = Text::new();
    text.add(b"(");
    text.add_times(b"x", n);
    text.add(b" A)");
    text
}

// n trees, one in the other.
pub(crate) fn deep(n: usize) -> Text<512> {
    let mut text = Text::new();
    text.add_times(b"(A ", n);
    text.add(b"a");
    text.add_times(b")", n);
    text
}

// The same in a bare pair.
pub(crate) fn deep_in_pair(n: usize) -> Text<512> {
    let mut text = Text::new();
    text.add(b"(");
    text.add(deep(n).bytes());
    text.add(b")");
    text
}

// A root and n - 1 trees in it.
pub(crate) fn many(n: usize) -> Text<8192> {
    let mut text = Text::new();
    text.add(b"(A ");
    text.add_times(b"(A a)", n.saturating_sub(1));
    text.add(b")");
    text
}

// A list of n names.
pub(crate) fn names(n: usize) -> Text<8192> {
    let mut text = Text::new();
    text.add_times(b"NP\n", n);
    text
}
