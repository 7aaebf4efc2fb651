// Answers as eight numbers, as C reads them: document 01's number (0 for no refusal), the place, the values, then zeros. Each
// answer has other values, so each has its function; an ending has document 01's number.
ghost use Rattle.std.specs.Prelude.{◌≡◌};
ghost use Rattle.meaning.specs.Told.{refused, ending_number, told_table, told_query, told_prune, told_yes_no, told_search, told_list, told_sentence};
ghost use Rattle.export.specs.Words.{told_words, told_reading};

use meaning::{Ending, Listing, QueryReading, Refusal, SentenceReading};

fn of_refusal(why: Refusal) -> [u64; 8]
    ensures { result ≡ told_words (refused why) }
{
    [why.number() as u64, why.place() as u64, 0, 0, 0, 0, 0, 0]
}

pub(crate) fn of_table(a: Result<(), Refusal>) -> [u64; 8]
    ensures { result ≡ told_words (told_table a) }
{
    match a {
        Ok(()) => [0; 8],
        Err(why) => of_refusal(why),
    }
}

pub(crate) fn of_query(a: Result<u8, Refusal>) -> [u64; 8]
    ensures { result ≡ told_words (told_query a) }
{
    match a {
        Ok(set) => [0, 0, set as u64, 0, 0, 0, 0, 0],
        Err(why) => of_refusal(why),
    }
}

pub(crate) fn of_prune(a: Result<u64, Refusal>) -> [u64; 8]
    ensures { result ≡ told_words (told_prune a) }
{
    match a {
        Ok(strikings) => [0, 0, strikings, 0, 0, 0, 0, 0],
        Err(why) => of_refusal(why),
    }
}

// Yes or no, and found or nothing, are told alike.
pub(crate) fn of_truth(a: Result<bool, Refusal>) -> [u64; 8]
    ensures yes_no { result ≡ told_words (told_yes_no a) }
    ensures search { result ≡ told_words (told_search a) }
{
    match a {
        Ok(holds) => [0, 0, holds as u64, 0, 0, 0, 0, 0],
        Err(why) => of_refusal(why),
    }
}

#[tactic(auto, unfolding(meaning::specs::Told::ending_number))]
fn ending_number(e: Ending) -> u64
    ensures { result ≡ ending_number e }
{
    match e {
        Ending::Finished => 0,
        Ending::Full => 1,
        Ending::Spent => 2,
    }
}

pub(crate) fn of_list(a: Result<Listing, Refusal>) -> [u64; 8]
    ensures { result ≡ told_words (told_list a) }
{
    match a {
        Ok(l) => {
            [
                0,
                0,
                ending_number(l.ending),
                l.tuples as u64,
                l.strikings,
                0,
                0,
                0,
            ]
        }
        Err(why) => of_refusal(why),
    }
}

pub(crate) fn of_reading(a: Result<QueryReading, Refusal>) -> [u64; 8]
    ensures { result ≡ told_words (told_reading a) }
{
    match a {
        Ok(r) => [
            0,
            0,
            r.bytes as u64,
            r.query.variables as u64,
            r.query.head_count as u64,
            r.query.label_count as u64,
            r.query.axis_count as u64,
            0,
        ],
        Err(why) => of_refusal(why),
    }
}

pub(crate) fn of_sentence(a: Result<SentenceReading, Refusal>) -> [u64; 8]
    ensures { result ≡ told_words (told_sentence a) }
{
    match a {
        Ok(r) => [0, 0, r.rows as u64, r.end as u64, 0, 0, 0, 0],
        Err(why) => of_refusal(why),
    }
}
