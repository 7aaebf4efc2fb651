// The list of names, and a label's number in it.
ghost use Rattle.std.specs.Prelude.{◌≡◌, true, false, [], ℕ, ◌<◌, length, replicate, IfOk, IfErr};
ghost use Rattle.brackets.specs.Lines.{Marked, NotedBytes};
ghost use Rattle.meaning.specs.Names.{name_of, place_from, names_of, too_many, label_number};

use arrayvec::ArrayVec;
use meaning::Refusal;
use std::marker::Model;

// What a label has for a number where the list does not have its name: document 01's number stands in the column.
const UNNAMED: u16 = 65535;

// A list of at most 32 names: where each ends, and the bytes that names begin with. Both are lent: as parts of the value they
// would be moved with it.
#[derive(Drop)]
pub(crate) struct Names<'a> {
    list: &'a [u8],
    ends: &'a ArrayVec<usize, 32>,
    noted: &'a [bool; 256],
}

impl<'a> Model for Names<'a> {
    ghost use Rattle.std.specs.Prelude.{List, ℕ};
    ghost use Rattle.brackets.specs.Lines.{Marked, NotedBytes};

    ghost Value = { List ℕ };

    ghost view = { λ n. n.list.now };

    ghost invariant = { λ n. Marked n.list.now 0 n.ends.now.items × NotedBytes n.list.now n.noted.now };
}

// Finds where the names of a list end, one for each line feed, and notes the bytes that they begin with. - and = are noted,
// too: before them a name ends, and may be empty.
pub(crate) fn find(
    list: &[u8],
    ends: &mut ArrayVec<usize, 32>,
    noted: &mut [bool; 256],
) -> Result<(), Refusal>
    requires { (ends.old.items ≡ []) × (noted.old ≡ replicate 256 false) }
    ensures few { IfOk result (λ _. Marked list.now 0 ends.new.items × NotedBytes list.now noted.new × (too_many list.now ≡ false)) }
    ensures many { IfErr result (λ e. (e ≡ Refusal.Counts) × (too_many list.now ≡ true)) }
{
    noted[b'-' as usize] = true;
    noted[b'=' as usize] = true;
    let mut begins = true;
    for (i, b) in list.iter().enumerate() {
        if begins {
            noted[*b as usize] = true;
        }
        begins = *b == b'\n';
        if begins && ends.try_push(i).is_err() {
            return Err(Refusal::Counts);
        }
    }
    Ok(())
}

impl<'a> Names<'a> {
    // The names of a list, with what was found of it.
    pub(crate) fn of(
        list: &'a [u8],
        ends: &'a ArrayVec<usize, 32>,
        noted: &'a [bool; 256],
    ) -> Names<'a>
        requires { Marked list.now 0 ends.now.items × NotedBytes list.now noted.now }
        ensures { result ≡ list.now }
    {
        Names { list, ends, noted }
    }

    // The number of a label. Most labels begin with a byte that no name begins with.
    #[inline(always)]
    pub(crate) fn number_of(&self, label: &[u8]) -> u16
        requires { 0 < length label.now }
        ensures { result ≡ label_number self.now label.now }
    {
        if self.noted[label[0] as usize] {
            self.place(name(label))
        } else {
            UNNAMED
        }
    }

    // The place in the list of a name: of equal names the first.
    #[inline(always)]
    fn place(&self, name: &[u8]) -> u16
        ensures { result ≡ place_from 0 name.now (names_of self.now) }
    {
        let mut start = 0;
        for (k, &end) in self.ends.as_slice().iter().enumerate() {
            if name == &self.list[start..end] {
                return k as u16;
            }
            start = end + 1;
        }
        UNNAMED
    }
}

// The name of a label: up to its first - or =.
fn name(label: &[u8]) -> &[u8]
    ensures { result.now ≡ name_of label.now }
{
    let end = label
        .iter()
        .position(|b| *b == b'-' || *b == b'=')
        .unwrap_or(label.len());
    &label[..end]
}
