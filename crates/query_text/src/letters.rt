// The kinds of bytes in a query text.
#![tactic(auto, using(crate::proofs::ByteLaws::byte_tests), unfolding(meaning::specs::QueryTexts::blank, meaning::specs::QueryTexts::lower, meaning::specs::QueryTexts::upper, meaning::specs::QueryTexts::in_variable, meaning::specs::QueryTexts::in_label, meaning::specs::QueryTexts::in_word))]

ghost use Rattle.std.specs.Prelude.{◌≡◌};
ghost use Rattle.meaning.specs.Texts.{among};
ghost use Rattle.meaning.specs.QueryTexts.{blank, lower, upper, in_variable, in_label, in_word};

pub(crate) fn is_blank(b: u8) -> bool
    ensures { result ≡ among blank b }
{
    matches!(b, b' ' | b'\t'..=b'\n' | b'\r')
}

pub(crate) fn is_lower(b: u8) -> bool
    ensures { result ≡ among lower b }
{
    b.is_ascii_lowercase()
}

pub(crate) fn is_upper(b: u8) -> bool
    ensures { result ≡ among upper b }
{
    b.is_ascii_uppercase()
}

pub(crate) fn is_in_variable(b: u8) -> bool
    ensures { result ≡ among in_variable b }
{
    matches!(b, b'a'..=b'z' | b'0'..=b'9')
}

pub(crate) fn is_in_label(b: u8) -> bool
    ensures { result ≡ among in_label b }
{
    matches!(b, b'A'..=b'Z' | b'0'..=b'9' | b'$' | b'|')
}

pub(crate) fn is_in_word(b: u8) -> bool
    ensures { result ≡ among in_word b }
{
    matches!(b, b'a'..=b'z' | b'A'..=b'Z' | b'0'..=b'9' | b'$' | b'|' | b'*'..=b'+')
}
