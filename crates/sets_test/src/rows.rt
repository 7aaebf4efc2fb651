// Which rows a set must have, told row by row.

// Two picks of rows, in patterns of their own.
pub(crate) fn is_first_pick(r: usize) -> bool {
    r.wrapping_mul(3).wrapping_add(r / 3) % 7 < 3
}

pub(crate) fn is_second_pick(r: usize) -> bool {
    r.wrapping_mul(5).wrapping_add(1) % 7 < 4
}

// A label of three, and a key that several rows share.
pub(crate) fn label_of(r: usize) -> u16 {
    (r % 3) as u16
}

pub(crate) fn key_of(r: usize) -> u32 {
    (r.wrapping_mul(37).wrapping_add(11) % 101) as u32
}

// A key that some rows have and some are above.
pub(crate) const MIDDLE: u32 = 68;

// Which of the rows below n a set must have.
#[derive(Clone, Copy)]
pub(crate) enum Wanted {
    All,
    Picked,
    PickedOnce,
    PickedTwice,
    PickedWithLabel,
    PickedAboveMiddle,
    Last,
    Nothing,
}

impl Wanted {
    pub(crate) fn has(self, n: usize, r: usize) -> bool {
        r < n
            && match self {
                Wanted::All => true,
                Wanted::Picked => is_first_pick(r),
                Wanted::PickedOnce => is_first_pick(r) && !is_second_pick(r),
                Wanted::PickedTwice => is_first_pick(r) && is_second_pick(r),
                Wanted::PickedWithLabel => is_first_pick(r) && label_of(r) == 1,
                Wanted::PickedAboveMiddle => is_first_pick(r) && MIDDLE < key_of(r),
                Wanted::Last => r + 1 == n,
                Wanted::Nothing => false,
            }
    }

    // How many rows below n are wanted.
    pub(crate) fn size(self, n: usize) -> usize {
        (0..n).filter(|r| self.has(n, *r)).count()
    }

    pub(crate) fn smallest(self, n: usize) -> Option<usize> {
        (0..n).find(|r| self.has(n, *r))
    }

    // The first with the smallest key.
    pub(crate) fn smallest_by(self, n: usize) -> Option<usize> {
        (0..n)
            .filter(|r| self.has(n, *r))
            .min_by_key(|r| key_of(*r))
    }
}
