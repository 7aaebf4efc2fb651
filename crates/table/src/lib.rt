// The tree table over its lent columns: the check, and for a table that was accepted its levels, its parents, a row's
// key in each order, and the axis tests, each in constant time.
//
// Only check_table takes any input. The other functions are inner layers: their callers hold an accepted table, so they
// require one (specs/Rows.antt, Accepted) and do not pay for the check again.
#![tactic(auto)]

ghost use Rattle.std.specs.Prelude.{◌≡◌, ℕ, ◌≤◌, ◌<◌, length, get_or};
ghost use Rattle.meaning.specs.Table as tree;
ghost use Rattle.meaning.specs.Entries.{table_answer};
ghost use Rattle.meaning.specs.Axes.{axis_holds, key};
ghost use Rattle.meaning.specs.AxisCodes.{code_of};
ghost use Rattle.table.specs.Rows.{Accepted, is_once, Stays, Filled, LevelOf, ParentOf, KeyOf, HasLevels, HasParents, Columns, end_of, is_parent, is_later, is_next};

use meaning::{Axis, Refusal};

// A table that the check accepts, with the columns that fill_columns makes of it.
#[derive(Clone, Copy)]
pub struct Tree<'a> {
    pub post: &'a [u16],
    pub parents: &'a [u16],
    pub levels: &'a [u16],
    ghost columns: { Columns post.now parents.now levels.now },
}

impl Tree<'_> {
    // The row behind those below p.
    #[tactic(auto, unfolding(crate::specs::Rows::end_of))]
    pub fn end_of(&self, p: usize) -> usize
        requires { p < length self.now.post.now }
        ensures { result ≡ end_of self.now.post.now self.now.levels.now p }
    {
        usize::from(self.post[p]) + usize::from(self.levels[p]) + 1
    }

    // Whether the axis holds from row p to row q.
    pub fn axis_holds(&self, axis: Axis, p: usize, q: usize) -> bool
        requires { (p < length self.now.post.now) × (q < length self.now.post.now) }
        ensures { result ≡ axis_holds self.now.post.now (code_of axis) p q }
    {
        match axis {
            Axis::Child => self.is_child(p, q),
            Axis::ChildPlus => self.is_below(p, q),
            Axis::ChildStar => p == q || self.is_below(p, q),
            Axis::NextSibling => self.is_next(p, q),
            Axis::NextSiblingPlus => self.is_later(p, q),
            Axis::NextSiblingStar => p == q || self.is_later(p, q),
            Axis::Following => self.is_following(p, q),
        }
    }

    fn is_child(&self, p: usize, q: usize) -> bool
        requires { q < length self.now.post.now }
        ensures { result ≡ is_parent self.now.parents.now p q }
    {
        q != 0 && usize::from(self.parents[q]) == p
    }

    fn is_below(&self, p: usize, q: usize) -> bool
        requires { (p < length self.now.post.now) × (q < length self.now.post.now) }
        ensures { result ≡ tree.below self.now.post.now p q }
    {
        p < q && self.post[q] < self.post[p]
    }

    fn is_following(&self, p: usize, q: usize) -> bool
        requires { (p < length self.now.post.now) × (q < length self.now.post.now) }
        ensures { result ≡ tree.follows self.now.post.now p q }
    {
        p < q && self.post[p] < self.post[q]
    }

    // Siblings have one parent. Row 0 has none.
    fn is_later(&self, p: usize, q: usize) -> bool
        requires { (p < length self.now.post.now) × (q < length self.now.post.now) }
        ensures { result ≡ is_later self.now.parents.now p q }
    {
        p != 0 && p < q && self.parents[p] == self.parents[q]
    }

    // The rows below p are those before its end, so its next sibling is the row there.
    fn is_next(&self, p: usize, q: usize) -> bool
        requires { (p < length self.now.post.now) × (q < length self.now.post.now) }
        ensures { result ≡ is_next self.now.post.now self.now.parents.now self.now.levels.now p q }
    {
        q == self.end_of(p) && self.is_later(p, q)
    }
}

// The table check: refusals 1, 2 and 3, the lowest first. Which rule a table breaks is asked only of one that is no tree.
pub fn check_table(post: &[u16], label: &[u16]) -> Result<(), Refusal>
    ensures { result ≡ table_answer post.now label.now }
{
    if !is_sized(post, label) {
        return Err(Refusal::Columns);
    }
    if is_tree(post) {
        return Ok(());
    }
    if is_numbered(post) {
        return Err(Refusal::ThreeRows);
    }
    Err(Refusal::PostNumbers)
}

fn is_sized(post: &[u16], label: &[u16]) -> bool
    ensures { result ≡ tree.is_sized post.now label.now }
{
    post.len() == label.len() && (1..=1024).contains(&post.len())
}

fn is_numbered(post: &[u16]) -> bool
    requires { (0 < length post.now) × (length post.now ≤ 1024) }
    ensures { result ≡ tree.is_numbered post.now }
{
    is_once(post) && usize::from(post[0]) + 1 == post.len()
}

// The post numbers are below n and no two are equal. `seen` has a place for each post number.
fn is_once(post: &[u16]) -> bool
    requires { length post.now ≤ 1024 }
    ensures { result ≡ is_once post.now }
{
    let mut seen = [false; 1024];
    for number in post {
        let x = usize::from(*number);
        if post.len() <= x || seen[x] {
            return false;
        }
        seen[x] = true;
    }
    true
}

// Whether the post numbers are those of a tree. Most tables are small, and few places are made faster than many.
fn is_tree(post: &[u16]) -> bool
    requires { (0 < length post.now) × (length post.now ≤ 1024) }
    ensures { result ≡ tree.is_tree post.now }
{
    if post.len() <= 256 {
        ends_fit(post, &mut [0; 256])
    } else {
        ends_fit(post, &mut [0; 1024])
    }
}

// In a tree the rows below a row are those after it up to row post + level: its end. `ends` holds, by level, the ends of
// the rows that the row before lies below, and its own. The table is a tree where no row's end lies before the row or behind
// the end of its parent. The column is lent in two sizes, so the number of its ends stands beside it.
fn ends_fit(post: &[u16], ends: &mut [u16]) -> bool
    requires { (0 < length post.now) × (length post.now ≤ 1024) × (length post.now ≤ length ends.old) }
    ensures { result ≡ tree.is_tree post.now }
{
    if usize::from(post[0]) + 1 != post.len() {
        return false;
    }
    ends[0] = post[0];
    let mut count: usize = 1;
    for row in 1..post.len() {
        let level = staying(ends, count, row);
        let end = usize::from(post[row]) + level;
        if end < row || usize::from(ends[level - 1]) < end {
            return false;
        }
        ends[level] = end as u16;
        count = level + 1;
    }
    true
}

// How many of the rows with these ends a row lies below: those that end before it stand last. Counted by hand: `rposition`
// gives a place, one less, and a None that cannot be.
fn staying(ends: &[u16], count: usize, row: usize) -> usize
    requires { (0 < count) × (count ≤ length ends.now) × (row ≤ get_or ends.now 0 0) }
    ensures { Stays ends.now count row result }
{
    let mut stay = count;
    while usize::from(ends[stay - 1]) < row {
        stay -= 1;
    }
    stay
}

// A row's parent: of the row before it and the rows above that one, the nearest with a larger post number. The parents of the
// rows before are known.
fn parent_of(post: &[u16], parents: &[u16], row: usize) -> usize
    requires { Accepted post.now × (0 < row) × (row < length post.now) × (row ≤ length parents.now) × ((r : ℕ) → 0 < r → r < row → ParentOf post.now r (get_or parents.now r 0)) }
    ensures { (result < row) × ParentOf post.now row result }
{
    let x = post[row];
    let mut p = row - 1;
    while post[p] < x {
        p = usize::from(parents[p]);
    }
    p
}

// Parents and levels: a row's level is one more than its parent's. Row 0 has no parent; its place stays as it was.
pub fn fill_columns(post: &[u16], parents: &mut [u16], levels: &mut [u16])
    requires { Accepted post.now × (length post.now ≤ length parents.old) × (length post.now ≤ length levels.old) }
    ensures { Filled 1 (length post.now) (ParentOf post.now) parents.old parents.new × Filled 0 (length post.now) (LevelOf post.now) levels.old levels.new }
{
    levels[0] = 0;
    for row in 1..post.len() {
        let p = parent_of(post, parents, row);
        parents[row] = p as u16;
        levels[row] = levels[p] + 1;
    }
}

// Each row's key in the order of the set. The set is a number: `KeyOf` promises a key for each.
pub fn fill_keys(set: u8, post: &[u16], levels: &[u16], keys: &mut [u32])
    requires { (length post.now ≤ 1024) × HasLevels post.now levels.now × (length post.now ≤ length keys.old) }
    ensures { Filled 0 (length post.now) (KeyOf set post.now) keys.old keys.new }
{
    for row in 0..post.len() {
        keys[row] = key_of(set, post, levels, row);
    }
}

fn key_of(set: u8, post: &[u16], levels: &[u16], row: usize) -> u32
    requires { (length post.now ≤ 1024) × HasLevels post.now levels.now × (row < length post.now) }
    ensures { result ≡ key set post.now row }
{
    match set {
        0 | 1 => row as u32,
        2 => u32::from(post[row]),
        _ => u32::from(levels[row]) * 1024 + row as u32,
    }
}
