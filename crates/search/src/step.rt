// One sentence of a run: read from the front of the text that is left, listed, and its lines written.
ghost use Rattle.std.specs.Prelude.{◌≡◌, List, ◌++◌, ℕ, ◌+◌, ◌*◌, ◌≤◌, ◌<◌, length};
ghost use Rattle.meaning.specs.Query.{asked, problem};
ghost use Rattle.meaning.specs.Answers.{answers};
ghost use Rattle.meaning.specs.Run.{tuple_lines, ending_line, listed, listing};
ghost use Rattle.meaning.specs.Entries.{at_front};
ghost use Rattle.search.specs.Wrote.{chunks};
ghost use Rattle.search.specs.Steps.{Leaves, Does};

use crate::lines::{put_end, put_refusal, put_tuples};
use meaning::{Listing, Query};

// What a sentence did: the bytes of its lines, and where its text ends; or the bytes of the last line of the run. They are
// counted, not lent: the next sentence writes into the same buffer.
#[derive(Drop)]
pub(crate) enum SentenceStep {
    Next(usize, usize),
    Last(usize),
}

// The lines of a listing that was not refused. The buffer has room for them: no number takes more than 21 bytes, and there are
// at most 4,096 rows, each on a line with at most one other number for it.
fn put_listing(
    out: &mut [u8; 262144],
    sentence: u64,
    found: &[u16; 4096],
    k: usize,
    listing: Listing,
) -> usize
    requires { (1 ≤ k) × (listing.tuples * k ≤ 4096) }
    ensures { (result ≡ length (tuple_lines sentence (chunks k listing.tuples found.now) ++ ending_line sentence listing.ending listing.tuples listing.strikings)) × (out.new ≡ at_front (tuple_lines sentence (chunks k listing.tuples found.now) ++ ending_line sentence listing.ending listing.tuples listing.strikings) out.old) }
{
    let at = put_tuples(out, sentence, found, k, listing.tuples);
    put_end(out, at, sentence, listing)
}

// A sentence that was read, up to `end`, into these columns. What the sets and the rows found held before does not matter.
fn list_sentence(
    post: &[u16],
    label: &[u16],
    end: usize,
    sentence: u64,
    q: Query,
    sets: &mut [u64; 256],
    found: &mut [u16; 4096],
    out: &mut [u8; 262144],
) -> SentenceStep
    ensures { Leaves (listed sentence end (answers (problem post.now label.now (asked q))) (listing post.now label.now (asked q))) result out.old out.new }
{
    let a = answers::list_answers(post, label, q, 1000000, sets, found);
    match a {
        Ok(listing) => {
            let bytes = put_listing(out, sentence, found, q.head_count, listing);
            SentenceStep::Next(bytes, end)
        }
        Err(r) => {
            let bytes = put_refusal(out, sentence, r);
            SentenceStep::Last(bytes)
        }
    }
}

// The next sentence of the text that is left. Any text, number, query and list of names. The columns, the sets and the rows
// found are room to work in, lent so that no sentence pays for clearing them: what they held before does not matter.
pub(crate) fn do_sentence(
    text: &[u8],
    sentence: u64,
    q: Query,
    names: &[u8],
    post: &mut [u16],
    label: &mut [u16],
    sets: &mut [u64; 256],
    found: &mut [u16; 4096],
    out: &mut [u8; 262144],
) -> SentenceStep
    requires { (length post.old ≡ 1024) × (length label.old ≡ 1024) }
    ensures { Does sentence (asked q) names.now text.now result out.old out.new }
{
    if brackets::is_blank(text) {
        return SentenceStep::Last(0);
    }
    let a = pouchmeadow::read_sentence(text, names, post, label);
    match a {
        Ok(read) => {
            list_sentence(
                &post[..read.rows],
                &label[..read.rows],
                read.end,
                sentence,
                q,
                sets,
                found,
                out,
            )
        }
        Err(r) => {
            let bytes = put_refusal(out, sentence, r);
            SentenceStep::Last(bytes)
        }
    }
}
