// Pruning: refusals, buffers, the examples of document 01, and random trees and queries against pruning by hand.
// Writes a line for each group: how many checks of it are wrong.
#![tactic(auto)]

mod ask;
mod examples;
mod large;
mod limits;
mod random;

// Printed by the kit's io, which takes bytes and numbers.
fn say(what: &[u8], bad: u64) {
    let _a = io::write_all(1, what);
    let _b = io::print_decimal(1, bad);
    let _c = io::write_all(1, b" wrong\n");
}

fn refusals() {
    say(b"refusal 1, columns: ", limits::columns());
    say(b"refusal 1, 1,024 rows: ", limits::most_rows());
    say(b"refusal 2: ", limits::post_numbers());
    say(b"refusal 3: ", limits::three_rows());
    say(b"refusal 4, variables: ", limits::variables());
    say(b"refusal 4, counts: ", limits::counts());
    say(b"refusal 5, axis conditions: ", limits::axis_names());
    say(b"refusal 5, labels and head: ", limits::other_names());
    say(b"refusal 6: ", limits::mixed());
    say(b"axes of one set: ", limits::of_one_set());
    say(b"refusal 9: ", limits::words());
    say(b"lowest of several: ", limits::lowest());
}

fn by_hand() {
    say(b"table D: ", examples::sentence());
    say(b"a variable twice: ", examples::loops());
    say(b"a set empty at the start: ", examples::empty());
    say(b"16 variables, 32 axis conditions: ", examples::sixteen());
    say(b"32 label conditions: ", examples::labels());
    say(b"a chain of 1,024 rows: ", large::chain());
    say(b"a flat tree of 1,024 rows: ", large::flat());
}

// Three cases in turn have the three sets of axes.
fn drawn(what: &[u8], first: u64, count: u64, rows: Option<usize>, least: u64) {
    say(what, random::cases(first, count, rows, least));
}

fn main() {
    refusals();
    by_hand();
    drawn(b"1 to 12 rows: ", 1, 4000, None, 500);
    drawn(b"63 rows: ", 10000, 30, Some(63), 3);
    drawn(b"64 rows: ", 20000, 30, Some(64), 3);
    drawn(b"65 rows: ", 30000, 30, Some(65), 3);
    drawn(b"128 rows: ", 40000, 30, Some(128), 3);
}
