// The types that every crate shares, in document 01's words. An entry answers with a `Result`: its value, or the `Refusal`.
// What the numbers, places and values of the answers are is said in specs/Told.antt.
#![tactic(auto)]

ghost use Rattle.std.specs.Prelude.{◌≡◌, length};
ghost use Rattle.meaning.specs.Told.{number, place};
ghost use Rattle.meaning.specs.QueryTexts.{blank_query, query_for};
ghost use Rattle.meaning.specs.AxisCodes.{IsAxisOf};

// An axis, by its name in document 01.
#[derive(Clone, Copy, PartialEq, Eq)]
pub enum Axis {
    Child,
    ChildPlus,
    ChildStar,
    NextSibling,
    NextSiblingPlus,
    NextSiblingStar,
    Following,
}

// The axis of a code; a code that is no axis is refused.
impl TryFrom<u8> for Axis {
    type Error = Refusal;

    ghost try_from_gives = { IsAxisOf };

    fn try_from(code: u8) -> Result<Self, Refusal> {
        match code {
            0 => Ok(Axis::Child),
            1 => Ok(Axis::ChildPlus),
            2 => Ok(Axis::ChildStar),
            3 => Ok(Axis::NextSibling),
            4 => Ok(Axis::NextSiblingPlus),
            5 => Ok(Axis::NextSiblingStar),
            6 => Ok(Axis::Following),
            _ => Err(Refusal::Variables),
        }
    }
}

// An axis condition: the axis by its code, which may be any number until the query is checked, and two variables, perhaps the
// same one twice.
#[derive(Clone, Copy)]
pub struct Condition {
    pub code: u8,
    pub first: u8,
    pub second: u8,
}

impl Condition {
    // What stands in a place that does not count.
    pub const NONE: Condition = Condition {
        code: 0,
        first: 0,
        second: 0,
    };
}

// A label condition: the variable's row must carry the label.
#[derive(Clone, Copy)]
pub struct LabelCondition {
    pub variable: u8,
    pub label: u16,
}

impl LabelCondition {
    // What stands in a place that does not count.
    pub const NONE: LabelCondition = LabelCondition {
        variable: 0,
        label: 0,
    };
}

// A query by value. Of each array the first places count, as many as its number says. The arrays are fixed, because there is no
// heap. The counts stand beside them, because any count may come in: one past its array is refused.
#[derive(Clone, Copy)]
pub struct Query {
    pub variables: usize,
    pub head_count: usize,
    pub head: [u8; 8],
    pub label_count: usize,
    pub labels: [LabelCondition; 32],
    pub axis_count: usize,
    pub axes: [Condition; 32],
}

impl Query {
    // The query with no variable and no condition.
    pub fn blank() -> Query
        ensures { result ≡ blank_query }
    {
        Query {
            variables: 0,
            head_count: 0,
            head: [0; 8],
            label_count: 0,
            labels: [LabelCondition::NONE; 32],
            axis_count: 0,
            axes: [Condition::NONE; 32],
        }
    }
}

// `from` over `to`, one after the other. The library's copy_from_slice would have a C caller's program bring memmove.
pub fn copy_over<T: Copy>(to: &mut [T], from: &[T])
    requires { length to.old ≡ length from.now }
    ensures { to.new ≡ from.now }
{
    for (i, place) in to.iter_mut().enumerate() {
        *place = from[i];
    }
}

// Why an input is refused; the reasons in the order of document 01's numbers 1 to 13, with their places.
#[derive(Clone, Copy, PartialEq, Eq)]
pub enum Refusal {
    Columns,
    PostNumbers,
    ThreeRows,
    Counts,
    Variables,
    Axes,
    EmptyHead,
    Tuple,
    ShortBuffer,
    QueryText(usize),
    Brackets(usize),
    TooLarge(usize),
    HeadVariable,
}

impl Refusal {
    // Document 01's number.
    #[tactic(auto, unfolding(crate::specs::Told::number))]
    pub fn number(self) -> u8
        ensures { result ≡ number self }
    {
        match self {
            Refusal::Columns => 1,
            Refusal::PostNumbers => 2,
            Refusal::ThreeRows => 3,
            Refusal::Counts => 4,
            Refusal::Variables => 5,
            Refusal::Axes => 6,
            Refusal::EmptyHead => 7,
            Refusal::Tuple => 8,
            Refusal::ShortBuffer => 9,
            Refusal::QueryText(_) => 10,
            Refusal::Brackets(_) => 11,
            Refusal::TooLarge(_) => 12,
            Refusal::HeadVariable => 13,
        }
    }

    // The place, 0 for a refusal that has none.
    #[tactic(auto, unfolding(crate::specs::Told::place))]
    pub fn place(self) -> usize
        ensures { result ≡ place self }
    {
        match self {
            Refusal::QueryText(p) => p,
            Refusal::Brackets(p) => p,
            Refusal::TooLarge(p) => p,
            _ => 0,
        }
    }
}

// How a listing ends.
#[derive(Clone, Copy, PartialEq, Eq)]
pub enum Ending {
    Finished,
    Full,
    Spent,
}

// A listing: its ending, the number of tuples, the strikings used.
#[derive(Clone, Copy, PartialEq, Eq)]
pub struct Listing {
    pub ending: Ending,
    pub tuples: usize,
    pub strikings: u64,
}

// A query text that was read: the bytes of its names, line feeds included, and its query.
#[derive(Clone, Copy)]
pub struct QueryReading {
    pub bytes: usize,
    pub query: Query,
}

impl QueryReading {
    // The query that the reader of query texts gives: the blank query where it refuses the text.
    #[tactic(auto, unfolding(crate::specs::QueryTexts::query_for))]
    pub fn query_for(reading: Result<QueryReading, Refusal>) -> Query
        ensures { result ≡ query_for reading }
    {
        match reading {
            Ok(read) => read.query,
            Err(_) => Query::blank(),
        }
    }
}

// A bracketed sentence that was read: its rows, and where it ends in the text.
#[derive(Clone, Copy)]
pub struct SentenceReading {
    pub rows: usize,
    pub end: usize,
}
