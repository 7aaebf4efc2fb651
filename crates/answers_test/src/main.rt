// Yes or no, search and listing: refusals, buffers, the examples of document 01, and random trees and queries against a
// part that tries every choice. Writes a line for each group: how many checks of it are wrong.
#![tactic(auto)]

mod ask;
mod costs;
mod examples;
mod heads;
mod judge;
mod limits;
mod order;
mod random;
mod tried;

use limits::Entry;
use random::Kind;

// Printed by the kit's io, which takes bytes and numbers.
fn say(what: &[u8], bad: u64) {
    let _a = io::write_all(1, what);
    let _b = io::print_decimal(1, bad);
    let _c = io::write_all(1, b" wrong\n");
}

fn say_of(whose: &[u8], what: &[u8], bad: u64) {
    let _a = io::write_all(1, whose);
    say(what, bad);
}

fn tables(whose: &[u8], entry: Entry) {
    say_of(whose, b"refusal 1, columns: ", limits::columns(entry));
    say_of(whose, b"refusal 1, 1,024 rows: ", limits::most_rows(entry));
    say_of(whose, b"refusal 2: ", limits::post_numbers(entry));
    say_of(whose, b"refusal 3: ", limits::three_rows(entry));
}

fn queries(whose: &[u8], entry: Entry) {
    say_of(whose, b"refusal 4, variables: ", limits::variables(entry));
    say_of(whose, b"refusal 4, counts: ", limits::counts(entry));
    say_of(
        whose,
        b"refusal 5, axis conditions: ",
        limits::axis_names(entry),
    );
    say_of(
        whose,
        b"refusal 5, labels and head: ",
        limits::other_names(entry),
    );
    say_of(whose, b"refusal 6: ", limits::mixed(entry));
    say_of(whose, b"refusal 9, words: ", limits::words(entry));
    say_of(whose, b"lowest of several: ", limits::lowest(entry));
}

fn refusals(whose: &[u8], entry: Entry) {
    tables(whose, entry);
    queries(whose, entry);
}

fn buffers() {
    say(b"an empty head: ", limits::empty_head());
    say(b"search, refusal 8: ", limits::tuples());
    say(b"search, refusal 9, places: ", limits::places());
    say(b"listing, room 0: ", limits::room());
}

fn by_hand() {
    say(b"table D, allowances: ", examples::sentence());
    say(b"table D, rooms: ", examples::rooms());
    say(b"table D, post-order: ", examples::post_order());
    say(b"table D, by level: ", examples::by_level());
    say(b"table D, a variable twice: ", examples::itself());
    say(b"table D, no condition: ", examples::any_row());
    say(b"table D, yes or no: ", examples::yes_or_no());
    say(b"table D, search: ", examples::search());
}

fn drawn(what: &[u8], first: u64, count: u64, kind: Kind, set: u8) {
    say(what, random::cases(first, count, kind, set));
}

fn searches() {
    let kind = Kind::Search;
    drawn(
        b"set 1, yes or no, and search after every tuple: ",
        0,
        300,
        kind,
        1,
    );
    drawn(
        b"set 2, yes or no, and search after every tuple: ",
        0,
        400,
        kind,
        2,
    );
    drawn(
        b"set 3, yes or no, and search after every tuple: ",
        0,
        400,
        kind,
        3,
    );
}

fn lists() {
    let kind = Kind::Every;
    drawn(
        b"set 1, listing at every allowance and room: ",
        1000,
        200,
        kind,
        1,
    );
    drawn(
        b"set 2, listing at every allowance and room: ",
        1000,
        300,
        kind,
        2,
    );
    drawn(
        b"set 3, listing at every allowance and room: ",
        1000,
        600,
        kind,
        3,
    );
}

fn longer_lists() {
    let kind = Kind::About;
    drawn(
        b"set 1, listing more rows about every cost: ",
        2000,
        300,
        kind,
        1,
    );
    drawn(
        b"set 2, listing more rows about every cost: ",
        2000,
        400,
        kind,
        2,
    );
    drawn(
        b"set 3, listing more rows about every cost: ",
        2000,
        400,
        kind,
        3,
    );
}

fn main() {
    refusals(b"yes or no, ", Entry::YesOrNo);
    refusals(b"search, ", Entry::After);
    refusals(b"listing, ", Entry::List);
    buffers();
    by_hand();
    searches();
    lists();
    longer_lists();
}
