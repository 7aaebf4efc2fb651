// The table's rules and the axes straight from their definitions, by trying every row: what the program compares with.
ghost use Rattle.std.specs.Prelude.{◌<◌, ◌≤◌, length};

// The number that document 01 gives a column of 1 to 1,024 rows: 0, 2 or 3. The program prints and counts such numbers.
pub(crate) fn number(post: &[u16]) -> u64
    requires { 0 < length post.now }
{
    if post.len() != usize::from(post[0]) + 1 || !once(post) {
        2
    } else if !nested(post) {
        3
    } else {
        0
    }
}

// Every post number is below the number of rows, and no earlier row has it.
fn once(post: &[u16]) -> bool {
    post.iter().enumerate().all(|(r, number)| {
        usize::from(*number) < post.len() && !post.iter().take(r).any(|earlier| earlier == number)
    })
}

fn nested(post: &[u16]) -> bool {
    (0..post.len()).all(|c| (0..c).all(|b| !is_split(post, b, c)))
}

// Whether a row before b has a post number between those of c and b.
fn is_split(post: &[u16], b: usize, c: usize) -> bool
    requires { (b < length post.now) × (c < length post.now) }
{
    (0..b).any(|a| post[c] < post[a] && post[a] < post[b])
}

// Codes below 7, as document 01 numbers the axes: the engine's own names of axes have no part in what is expected of it.
pub(crate) fn holds(post: &[u16], code: u8, p: usize, q: usize) -> bool
    requires { (p < length post.now) × (q < length post.now) }
{
    match code {
        0 => child(post, p, q),
        1 => below(post, p, q),
        2 => p == q || below(post, p, q),
        3 => next(post, p, q),
        4 => later(post, p, q),
        5 => p == q || later(post, p, q),
        _ => p < q && post[p] < post[q],
    }
}

fn below(post: &[u16], p: usize, q: usize) -> bool
    requires { (p < length post.now) × (q < length post.now) }
{
    p < q && post[q] < post[p]
}

fn child(post: &[u16], p: usize, q: usize) -> bool
    requires { (p < length post.now) × (q < length post.now) }
{
    below(post, p, q) && !(0..post.len()).any(|z| below(post, p, z) && below(post, z, q))
}

fn later(post: &[u16], p: usize, q: usize) -> bool
    requires { (p < length post.now) × (q < length post.now) }
{
    p < q && (0..post.len()).any(|z| child(post, z, p) && child(post, z, q))
}

fn next(post: &[u16], p: usize, q: usize) -> bool
    requires { (p < length post.now) × (q < length post.now) }
{
    later(post, p, q) && !(0..post.len()).any(|z| later(post, p, z) && later(post, z, q))
}

// Whether the levels are the numbers of ancestors.
pub(crate) fn levels_agree(post: &[u16], levels: &[u16]) -> bool
    requires { length post.now ≤ length levels.now }
{
    (0..post.len()).all(|r| level(post, r) == usize::from(levels[r]))
}

fn level(post: &[u16], r: usize) -> usize
    requires { r < length post.now }
{
    let own = post[r];
    post.iter().take(r).filter(|above| own < **above).count()
}

pub(crate) fn sum(a: &[u16]) -> u64 {
    a.iter().fold(0, |s, x| s.wrapping_add(u64::from(*x)))
}
