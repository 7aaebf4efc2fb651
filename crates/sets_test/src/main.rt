// Each function of sets against a plain loop over rows. Writes a line for each group of checks: 0 where all is right.
#![tactic(auto)]

mod asked;
mod rows;
mod trial;

use trial::Trial;

// Printed by the kit's io, which takes bytes and numbers.
fn say_right(right: bool) {
    io::print_decimal(1, u64::from(!right));
    io::write_all(1, b"\n");
}

// A set of n rows in a buffer of 24 words, its words from word `at` on: filled, emptied, changed row by row, held to a mask.
fn set_of(n: usize, at: usize) {
    let mut set = Trial::new(n, at);
    say_right(set.fills());
    say_right(set.empties());
    say_right(set.adds());
    say_right(set.strikes());
    say_right(set.keeps());
}

// The same held to a label and to the rows above a key, and cleared.
fn labels_of(n: usize, at: usize) {
    let mut set = Trial::new(n, at);
    say_right(set.starts());
    say_right(set.adds_last());
    say_right(set.keeps_label());
    say_right(set.keeps_after());
    say_right(set.clears());
}

fn sets_of(n: usize, at: usize) {
    set_of(n, at);
    labels_of(n, at);
}

// Ranges that are empty, that end or begin at a word's first or last row, and the longest.
fn ranges() {
    say_right(trial::adds_range(0, 0));
    say_right(trial::adds_range(1024, 1024));
    say_right(trial::adds_range(64, 64));
    say_right(trial::adds_range(0, 1));
    say_right(trial::adds_range(1023, 1024));
    say_right(trial::adds_range(63, 64));
    say_right(trial::adds_range(63, 65));
    say_right(trial::adds_range(64, 128));
    say_right(trial::adds_range(65, 191));
    say_right(trial::adds_range(0, 1024));
    say_right(trial::adds_range(127, 1000));
}

fn main() {
    say_right(trial::widths());
    sets_of(1, 0);
    sets_of(1, 23);
    sets_of(63, 3);
    sets_of(64, 0);
    sets_of(64, 22);
    sets_of(65, 5);
    sets_of(1023, 8);
    sets_of(1024, 0);
    ranges();
}
