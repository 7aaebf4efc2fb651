// Runs the table check, the columns and the axis tests, and prints what they say; the expected output stands in `stdout`.
#![tactic(auto)]

mod plain;
mod print;

ghost use Rattle.std.specs.Prelude.{◌<◌, ◌≤◌, IsTrue, length};
ghost use Rattle.table.specs.Rows.{Accepted, HasLevels};

use meaning::{Axis, Refusal};
use print::{line, text};
use table::Tree;
use trials::cells::narrow;
use trials::trees::{set_chain, set_flat};

fn main() {
    examples();
    limits();
    small_columns();
    sentence();
}

// The number of the answer: 0 for a tree.
fn number_of(answer: Result<(), Refusal>) -> u64 {
    match answer {
        Ok(()) => 0,
        Err(why) => u64::from(why.number()),
    }
}

fn checked(post: &[u16]) -> u64 {
    number_of(table::check_table(post, post))
}

// Document 01's post columns, and some near them.
fn examples() {
    text(b"post columns: 0; 2 0 1; 2 1 0; 1 2 0; 3 1 2 0; D\n");
    line(checked(&[0]));
    line(checked(&[2, 0, 1]));
    line(checked(&[2, 1, 0]));
    line(checked(&[1, 2, 0]));
    line(checked(&[3, 1, 2, 0]));
    line(checked(&[9, 2, 0, 1, 8, 3, 7, 4, 6, 5]));
    text(b"a number twice; too large; both rules broken\n");
    line(checked(&[2, 0, 0]));
    line(checked(&[65535]));
    line(checked(&[4, 1, 2, 0, 0]));
}

// Unequal columns, no row, and both sides of 1,024 rows: a chain and a flat tree.
fn limits() {
    text(b"unequal columns; no row\n");
    let two = [1, 0];
    let one = [0];
    line(number_of(table::check_table(&two, &one)));
    line(number_of(table::check_table(&one, &two)));
    line(checked(&one[..0]));
    text(
        b"a chain of 1,024 rows, with the sum of its levels, and of 1,025; a flat tree likewise\n",
    );
    at_limit(set_chain);
    at_limit(set_flat);
}

fn at_limit<F: Fn(&mut [u16])>(set: F)
    requires { F.IsAlwaysCallable set }
{
    let mut most = [0; 1024];
    set(&mut most);
    line(checked(&most));
    line(levels_of(&most));
    let mut more = [0; 1025];
    set(&mut more);
    line(checked(&more));
}

// Whether the check takes the column.
#[tactic(auto, using(table::proofs::Laws::accepted_is))]
fn is_tree(post: &[u16]) -> bool
    ensures { IsTrue result → Accepted post.now }
{
    table::check_table(post, post).is_ok()
}

// The sum of the levels, 0 where the table is no tree.
fn levels_of(post: &[u16]) -> u64 {
    if is_tree(post) { level_sum(post) } else { 0 }
}

fn level_sum(post: &[u16]) -> u64
    requires { Accepted post.now }
{
    let mut parents = [0; 1024];
    let mut levels = [0; 1024];
    table::fill_columns(post, &mut parents, &mut levels);
    plain::sum(&levels)
}

// Every column of 1 to 6 numbers up to their count: columns, trees, and those where the check or an axis differs
// from what the definitions say.
fn small_columns() {
    text(b"columns of 1 to 6 rows: columns, trees, refused 2, refused 3, differences\n");
    columns(&mut [0; 1], 2);
    columns(&mut [0; 2], 9);
    columns(&mut [0; 3], 64);
    columns(&mut [0; 4], 625);
    columns(&mut [0; 5], 7776);
    columns(&mut [0; 6], 117649);
}

fn columns(post: &mut [u16], total: usize)
    requires { (0 < length post.old) × (length post.old ≤ 6) }
{
    let mut trees: u64 = 0;
    let mut twos: u64 = 0;
    let mut threes: u64 = 0;
    let mut differ: u64 = 0;
    for k in 0..total {
        set_digits(post, k);
        let a = checked(post);
        trees = more(trees, a == 0);
        twos = more(twos, a == 2);
        threes = more(threes, a == 3);
        differ = more(differ, a != plain::number(post));
        differ = more(differ, a == 0 && !axes_agree(post));
    }
    line(total as u64);
    line(trees);
    line(twos);
    line(threes);
    line(differ);
}

fn more(n: u64, yes: bool) -> u64 {
    n.wrapping_add(u64::from(yes))
}

// The column holds the digits of k to the base n + 1, where it has n places.
fn set_digits(post: &mut [u16], k: usize)
    requires { length post.old ≤ 6 }
{
    let base = post.len() + 1;
    let mut rest = k;
    for digit in post {
        *digit = narrow(rest % base);
        rest /= base;
    }
}

// Whether every axis says of every two rows what its definition says, and the levels are right. A column that is
// refused has none.
fn axes_agree(post: &[u16]) -> bool {
    !is_tree(post) || tree_agrees(post)
}

fn tree_agrees(post: &[u16]) -> bool
    requires { Accepted post.now }
{
    let mut levels = [0; 1024];
    let mut parents = [0; 1024];
    table::fill_columns(post, &mut parents, &mut levels);
    let tree = Tree {
        post,
        parents: &parents,
        levels: &levels,
    };
    codes_agree(&tree) && plain::levels_agree(post, &levels)
}

// By code: the tree is asked by the axis that the code makes, the definition by the code itself.
fn codes_agree(tree: &Tree) -> bool {
    (0..7).all(|code| Axis::try_from(code).is_ok_and(|axis| axis_agrees(tree, axis, code)))
}

fn axis_agrees(tree: &Tree, axis: Axis, code: u8) -> bool {
    let rows = tree.post.len();
    (0..rows).all(|p| {
        (0..rows).all(|q| tree.axis_holds(axis, p, q) == plain::holds(tree.post, code, p, q))
    })
}

// Table D: its columns, with two places behind them that stay, and its axes.
fn sentence() {
    let d = [9, 2, 0, 1, 8, 3, 7, 4, 6, 5];
    text(b"D: levels, parents, keys of sets 1, 2 and 3; its axes agree\n");
    show(&d);
    line(u64::from(axes_agree(&d)));
}

fn show(post: &[u16]) {
    if is_tree(post) {
        show_tree(post);
    } else {
        text(b"refused\n");
    }
}

fn show_tree(post: &[u16])
    requires { Accepted post.now }
{
    if 12 < post.len() {
        return;
    }
    let mut levels = [77; 12];
    let mut parents = [77; 12];
    table::fill_columns(post, &mut parents, &mut levels);
    print::column(&levels);
    print::column(&parents);
    for set in 1..4 {
        show_keys(set, post, &levels);
    }
}

fn show_keys(set: u8, post: &[u16], levels: &[u16])
    requires { (length post.now ≤ 12) × HasLevels post.now levels.now }
{
    let mut keys = [77; 12];
    table::fill_keys(set, post, levels, &mut keys);
    print::column(&keys);
}
