// The query check on both sides of each limit. Writes a line for each group of checks: 0 where all is right.
#![tactic(auto)]

mod queries;

// Printed by the kit's io, which takes bytes and numbers.
fn say_right(right: bool) {
    io::print_decimal(1, u64::from(!right));
    io::write_all(1, b"\n");
}

// The set of each axis alone, and the answer for each beside Child+: with Following and with Child refusal 6, with Child*
// set 1, with no axis refusal 5.
fn axes() {
    say_right(queries::alone(0, 3));
    say_right(queries::alone(1, 1));
    say_right(queries::alone(2, 1));
    say_right(queries::alone(3, 3));
    say_right(queries::alone(4, 3));
    say_right(queries::alone(5, 3));
    say_right(queries::alone(6, 2));
    say_right(queries::together_of_two_sets(6));
    say_right(queries::together_of_set(2, 1));
    say_right(queries::together_of_two_sets(0));
    say_right(queries::together_with_no_axis(7));
}

fn main() {
    say_right(queries::variables());
    say_right(queries::counts());
    say_right(queries::names());
    say_right(queries::labels());
    say_right(queries::heads());
    say_right(queries::heads_next());
    axes();
}
