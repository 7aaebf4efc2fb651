// The names in the caller's buffer, each closed by a line feed.
ghost use Rattle.std.specs.Prelude.{◌≡◌, ◌≤◌, ◌++◌, length, map, drop};
ghost use Rattle.meaning.specs.QueryTexts.{closed};
ghost use Rattle.query_text.specs.Room.{room_of};

use meaning::copy_over;

// The bytes that the names take, where a buffer of `have` bytes holds them.
pub(crate) fn room_for(names: &[&[u8]], have: usize) -> Option<usize>
    ensures { result ≡ room_of (length (closed (map (λ x. x.now) names.now))) have }
{
    let mut left = have;
    for name in names {
        if left <= name.len() {
            return None;
        }
        left -= name.len() + 1;
    }
    Some(have - left)
}

pub(crate) fn write_names(names: &[&[u8]], buffer: &mut [u8])
    requires { length (closed (map (λ x. x.now) names.now)) ≤ length buffer.old }
    ensures { buffer.new ≡ closed (map (λ x. x.now) names.now) ++ drop (length (closed (map (λ x. x.now) names.now))) buffer.old }
{
    let mut at: usize = 0;
    for name in names {
        let end = at + name.len();
        copy_over(&mut buffer[at..end], name);
        buffer[end] = b'\n';
        at = end + 1;
    }
}
