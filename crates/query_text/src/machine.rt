// Where a query text stops to be the beginning of a legal one.
ghost use Rattle.std.specs.Prelude.{◌≡◌, ◌⊎◌, ◌-◌, suc, true, false, MatchOption};
ghost use Rattle.meaning.specs.Texts.{among};
ghost use Rattle.meaning.specs.Places.{place as place_of};
ghost use Rattle.meaning.specs.QueryTexts.{query, blank};
ghost use Rattle.query_text.specs.Machine.{found, more, letter, in_a_label, step as step_of};

use crate::letters::{is_blank, is_in_label, is_in_variable, is_lower, is_upper};
use meaning::Refusal;

// What was read last; for a name, how many more bytes it may have, or how many it has. `Stop` is a state of its own in
// specs/Machine.antt, which no byte leaves.
#[derive(Clone, Copy)]
pub(crate) enum Now {
    Stop,
    Start,
    Asked,
    Opened,
    InHead(usize),
    HeadComma,
    Closed,
    Less,
    Wants,
    NameC,
    NameN,
    NameF,
    Child(usize),
    Sibling(usize),
    Following(usize),
    Signs,
    Signed,
    AxisOpened,
    From(usize),
    Label(usize),
    LastOpened,
    Last(usize),
    Done,
    End,
}

// The bytes that a name may still have once b is read: one less where b is of the name, none where it is white space behind it.
#[tactic(auto, using(crate::proofs::Steps::machine_steps))]
fn bytes_left(n: usize, in_name: bool, b: u8) -> Option<usize>
    ensures { MatchOption result ((more n in_name ≡ false) × (among blank b ≡ false))
        (λ left. ((more n in_name ≡ true) × (left ≡ n - 1)) ⊎ ((more n in_name ≡ false) × (among blank b ≡ true) × (left ≡ 0))) }
{
    if 0 < n && in_name {
        Some(n - 1)
    } else if is_blank(b) {
        Some(0)
    } else {
        None
    }
}

// The letters of an axis name that are read once b is, where b is the next one.
#[tactic(auto, using(crate::proofs::Steps::machine_steps))]
fn letters_read(name: &[u8], j: usize, b: u8) -> Option<usize>
    ensures { MatchOption result (letter name.now j b ≡ false) (λ k. (letter name.now j b ≡ true) × (k ≡ suc j)) }
{
    if j < name.len() && name[j] == b {
        Some(j + 1)
    } else {
        None
    }
}

// In or behind a label name, which may have n more bytes.
#[tactic(auto, using(crate::proofs::Steps::machine_steps))]
fn label(n: usize, b: u8) -> Now
    ensures { result ≡ in_a_label n b }
{
    match bytes_left(n, is_in_label(b), b) {
        Some(left) => Now::Label(left),
        None if b == b'(' => Now::LastOpened,
        None => Now::Stop,
    }
}

pub(crate) fn find(text: &[u8]) -> Result<(), Refusal>
    ensures { result ≡ found (place_of query text.now) }
{
    let mut q = Now::Start;
    for (i, b) in text.iter().enumerate() {
        q = step(q, *b);
        if let Now::Stop = q {
            return Err(Refusal::QueryText(i));
        }
    }
    if let Now::End = q {
        Ok(())
    } else {
        Err(Refusal::QueryText(text.len()))
    }
}

// One byte on. Three letters may begin an axis name or a label name.
#[tactic(auto, using(crate::proofs::Steps::machine_steps))]
fn step(q: Now, b: u8) -> Now
    ensures { result ≡ step_of q b }
{
    let blank = is_blank(b);
    match q {
        Now::Start if b == b'Q' => Now::Asked,
        Now::Asked if blank => Now::Asked,
        Now::Asked if b == b'(' => Now::Opened,
        Now::Opened if blank => Now::Opened,
        Now::Opened if b == b')' => Now::Closed,
        Now::Opened if is_lower(b) => Now::InHead(7),
        Now::InHead(n) => match bytes_left(n, is_in_variable(b), b) {
            Some(left) => Now::InHead(left),
            None if b == b')' => Now::Closed,
            None if b == b',' => Now::HeadComma,
            None => Now::Stop,
        },
        Now::HeadComma if blank => Now::HeadComma,
        Now::HeadComma if is_lower(b) => Now::InHead(7),
        Now::Closed if blank => Now::Closed,
        Now::Closed if b == b'<' => Now::Less,
        Now::Less if b == b'-' => Now::Wants,
        Now::Wants if blank => Now::Wants,
        Now::Wants if b == b'C' => Now::NameC,
        Now::Wants if b == b'N' => Now::NameN,
        Now::Wants if b == b'F' => Now::NameF,
        Now::Wants if is_upper(b) => Now::Label(15),
        Now::NameC if b == b'h' => Now::Child(2),
        Now::NameN if b == b'e' => Now::Sibling(2),
        Now::NameF if b == b'o' => Now::Following(2),
        Now::NameC | Now::NameN | Now::NameF => label(15, b),
        Now::Child(j) => match letters_read(b"Child", j, b) {
            Some(5) => Now::Signs,
            Some(k) => Now::Child(k),
            None => Now::Stop,
        },
        Now::Sibling(j) => match letters_read(b"NextSibling", j, b) {
            Some(11) => Now::Signs,
            Some(k) => Now::Sibling(k),
            None => Now::Stop,
        },
        Now::Following(j) => match letters_read(b"Following", j, b) {
            Some(9) => Now::Signed,
            Some(k) => Now::Following(k),
            None => Now::Stop,
        },
        Now::Signs if b == b'+' || b == b'*' => Now::Signed,
        Now::Signs | Now::Signed if blank => Now::Signed,
        Now::Signs | Now::Signed if b == b'(' => Now::AxisOpened,
        Now::AxisOpened if blank => Now::AxisOpened,
        Now::AxisOpened if is_lower(b) => Now::From(7),
        Now::From(n) => match bytes_left(n, is_in_variable(b), b) {
            Some(left) => Now::From(left),
            None if b == b',' => Now::LastOpened,
            None => Now::Stop,
        },
        Now::Label(n) => label(n, b),
        Now::LastOpened if blank => Now::LastOpened,
        Now::LastOpened if is_lower(b) => Now::Last(7),
        Now::Last(n) => match bytes_left(n, is_in_variable(b), b) {
            Some(left) => Now::Last(left),
            None if b == b')' => Now::Done,
            None => Now::Stop,
        },
        Now::Done if blank => Now::Done,
        Now::Done if b == b'.' => Now::End,
        Now::Done if b == b',' => Now::Wants,
        Now::End if blank => Now::End,
        _ => Now::Stop,
    }
}
