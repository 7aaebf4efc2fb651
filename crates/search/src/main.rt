// Searches a treebank: reads a query text and then sentences from standard input, and prints the answers.
#![tactic(auto)]

mod lines;
mod step;

ghost use Rattle.std.specs.Prelude.{◌≡◌, ◌==◌, ◌≤◌, length, take, drop, position};
ghost use Rattle.meaning.specs.Run.{query_text_of, behind};

use crate::lines::put_refusal;
use crate::step::{SentenceStep, do_sentence};
use meaning::{Query, SentenceReading};

// The place of the text's first full stop.
fn full_stop(text: &[u8]) -> Option<usize>
    ensures { result ≡ position (λ b. b == 46) text.now }
{
    text.iter().position(|b| *b == b'.')
}

// Where the query text ends: behind the first full stop, or at the end of the text.
fn query_end(text: &[u8]) -> usize
    ensures { (result ≤ length text.now) × (take result text.now ≡ query_text_of text.now) × (drop result text.now ≡ behind text.now) }
{
    match full_stop(text) {
        Some(stop) => stop + 1,
        None => text.len(),
    }
}

// The first n bytes go to standard output.
fn print_front(out: &[u8], n: usize) {
    if n <= out.len() {
        let _whole = io::write_all(1, &out[..n]);
    }
}

// The lines of one step: the buffer as an array, which needs no word on its length.
fn print(out: &[u8; 262144], n: usize) {
    print_front(out, n);
}

// Sentence after sentence, until only white space is left or one is refused.
fn print_sentences(text: &[u8], q: Query, names: &[u8]) {
    let mut post = [0u16; 1024];
    let mut label = [0u16; 1024];
    let mut sets = [0u64; 256];
    let mut found = [0u16; 4096];
    let mut out = [0u8; 262144];
    let mut left = text;
    let mut sentence: u64 = 1;
    loop {
        let s = do_sentence(
            left, sentence, q, names, &mut post, &mut label, &mut sets, &mut found, &mut out,
        );
        match s {
            SentenceStep::Last(n) => {
                print(&out, n);
                return;
            }
            SentenceStep::Next(n, end) => {
                print(&out, n);
                left = pouchmeadow::rest(left, Ok(SentenceReading { rows: 1, end }));
                sentence += 1;
            }
        }
    }
}

// A run on the bytes that were read.
fn run(input: &[u8]) {
    let end = query_end(input);
    let mut names = [0u8; 544];
    let r = pouchmeadow::read_query(&input[..end], &mut names);
    match r {
        Ok(reading) => print_sentences(&input[end..], reading.query, &names[..reading.bytes]),
        Err(why) => {
            let mut out = [0u8; 262144];
            let n = put_refusal(&mut out, 0, why);
            print(&out, n);
        }
    }
}

fn main() {
    let mut input = io::large_buffer();
    let n = io::read_full(0, &mut input);
    run(&input[..n]);
    if n == 65536 {
        let _said = io::write_all(
            2,
            b"search: 65536 bytes were read, and no more than that is searched\n",
        );
    }
}
