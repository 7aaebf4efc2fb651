// Tries the reader of query texts on both sides of each line; writes a line for each part whose answers are as expected.
#![tactic(auto)]

mod cases;
mod limits;
mod tries;

use crate::cases::{cuts, damaged, example, reasons, spaces, spelling};
use crate::limits::{buffers, conditions, letters, variables};
use crate::tries::tries;

// Standard output.
const STDOUT_FILENO: i32 = 1;

// Printed by the kit's io, which takes bytes and numbers.
fn tell(name: &[u8], good: bool) {
    io::write_all(STDOUT_FILENO, name);
    if good {
        io::write_all(STDOUT_FILENO, b": as expected\n");
    } else {
        io::write_all(STDOUT_FILENO, b": WRONG\n");
    }
}

fn main() {
    tell(b"example", example());
    tell(b"spelling", spelling());
    tell(b"spaces", spaces());
    tell(b"reasons", reasons());
    tell(b"letters", letters());
    tell(b"variables", variables());
    tell(b"conditions", conditions());
    tell(b"buffers", buffers());
    tell(b"cuts", cuts());
    tell(b"damaged", damaged());
    tell(b"tries", tries());
}
