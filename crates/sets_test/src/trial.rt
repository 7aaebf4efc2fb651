// A set of some rows in a buffer of 24 words goes through everything that sets does to it.
use crate::asked;
use crate::rows::{MIDDLE, Wanted, is_first_pick, is_second_pick, key_of, label_of};

// What a word outside the set holds before and after.
const OUTSIDE: u64 = 0xF0F0_1234_5678_9ABC;

pub(crate) fn widths() -> bool {
    asked::width(1) == 1
        && asked::width(63) == 1
        && asked::width(64) == 1
        && asked::width(65) == 2
        && asked::width(1023) == 16
        && asked::width(1024) == 16
}

// Row r, by a shift of its word.
fn is_set(s: &[u64], at: usize, r: usize) -> bool {
    s.get(at.wrapping_add(r / 64))
        .is_some_and(|word| (word >> (r % 64)) & 1 == 1)
}

fn add_picked<F: Fn(usize) -> bool>(s: &mut [u64], at: usize, n: usize, is_picked: F)
    requires { F.IsAlwaysCallable is_picked }
{
    for r in 0..n {
        if is_picked(r) {
            asked::add(s, at, r);
        }
    }
}

// The words outside the w words at `at` hold OUTSIDE.
fn outside(s: &[u64], at: usize, w: usize) -> bool {
    s.iter()
        .enumerate()
        .all(|(i, word)| at <= i && i - at < w || *word == OUTSIDE)
}

// The set has n rows; its words begin at word `at`.
#[derive(Drop)]
pub(crate) struct Trial {
    words: [u64; 24],
    at: usize,
    n: usize,
    keys: [u32; 1024],
}

impl Trial {
    pub(crate) fn new(n: usize, at: usize) -> Trial {
        let mut keys = [0; 1024];
        for (r, key) in keys.iter_mut().enumerate() {
            *key = key_of(r);
        }
        Trial {
            words: [0; 24],
            at,
            n,
            keys,
        }
    }

    fn width(&self) -> usize {
        asked::width(self.n)
    }

    fn strike_all(&mut self) {
        for r in 0..self.n {
            asked::strike(&mut self.words, self.at, r);
        }
    }

    // The first `rows` rows are as wanted, read both ways.
    fn agrees(&self, rows: usize, wanted: Wanted) -> bool {
        (0..rows).all(|r| {
            let is_wanted = wanted.has(self.n, r);
            asked::has(&self.words, self.at, r) == is_wanted
                && is_set(&self.words, self.at, r) == is_wanted
        })
    }

    // From every row on, the next row of the w words is the next wanted one.
    fn nexts(&self, w: usize, wanted: Wanted) -> bool {
        let end = w.wrapping_mul(64);
        let mut known = end;
        for from in (0..end).rev() {
            if wanted.has(self.n, from) {
                known = from;
            }
            if asked::next(&self.words, self.at, from, w) != Some(known) {
                return false;
            }
        }
        asked::next(&self.words, self.at, end, w) == Some(end)
    }

    // The words of the set hold just what is wanted, the others are as before, and size, next and smallest rows are right.
    fn holds(&self, wanted: Wanted) -> bool {
        let w = self.width();
        let end = w.wrapping_mul(64);
        self.agrees(end, wanted)
            && outside(&self.words, self.at, w)
            && asked::size(&self.words, self.at, w) == Some(wanted.size(self.n))
            && self.nexts(w, wanted)
            && asked::smallest(&self.words, self.at, w)
                == Some(wanted.smallest(self.n).unwrap_or(end))
            && asked::smallest_by(&self.words, self.at, self.n, &self.keys)
                == Some(wanted.smallest_by(self.n).unwrap_or(self.n))
    }

    // First all rows, then none.
    pub(crate) fn fills(&mut self) -> bool {
        self.words.fill(OUTSIDE);
        asked::fill(&mut self.words, self.at, self.n);
        self.holds(Wanted::All)
    }

    pub(crate) fn starts(&mut self) -> bool {
        self.words.fill(OUTSIDE);
        asked::fill(&mut self.words, self.at, self.n);
        self.strike_all();
        outside(&self.words, self.at, self.width())
    }

    pub(crate) fn empties(&mut self) -> bool {
        self.strike_all();
        self.holds(Wanted::Nothing)
    }

    // The last row alone, and no row again.
    pub(crate) fn adds_last(&mut self) -> bool {
        if self.n == 0 {
            return false;
        }
        asked::add(&mut self.words, self.at, self.n - 1);
        let right = self.holds(Wanted::Last);
        asked::strike(&mut self.words, self.at, self.n - 1);
        right
    }

    // Some rows, and fewer.
    pub(crate) fn adds(&mut self) -> bool {
        add_picked(&mut self.words, self.at, self.n, is_first_pick);
        self.holds(Wanted::Picked)
    }

    pub(crate) fn strikes(&mut self) -> bool {
        for r in 0..self.n {
            if is_second_pick(r) {
                asked::strike(&mut self.words, self.at, r);
            }
        }
        self.holds(Wanted::PickedOnce)
    }

    // Some rows, and of these those of a mask.
    pub(crate) fn keeps(&mut self) -> bool {
        let w = self.width();
        let mut mask = [0; 24];
        add_picked(&mut mask, 0, self.n, is_second_pick);
        add_picked(&mut self.words, self.at, self.n, is_first_pick);
        let fewer = Wanted::PickedTwice.size(self.n) < Wanted::Picked.size(self.n);
        asked::keep(&mut self.words, self.at, &mask, w) == Some(fewer)
            && asked::keep(&mut self.words, self.at, &mask, w) == Some(false)
            && self.holds(Wanted::PickedTwice)
    }

    // Some rows, and of these those of a label.
    pub(crate) fn keeps_label(&mut self) -> bool {
        let mut label = [0; 1024];
        for (r, l) in label.iter_mut().enumerate() {
            *l = label_of(r);
        }
        add_picked(&mut self.words, self.at, self.n, is_first_pick);
        asked::keep_label(&mut self.words, self.at, self.n, &label, 1);
        self.holds(Wanted::PickedWithLabel)
    }

    // Some rows, also past row n, and of these those below n with a key above the middle.
    pub(crate) fn keeps_after(&mut self) -> bool {
        let end = self.width().wrapping_mul(64);
        add_picked(&mut self.words, self.at, end, is_first_pick);
        asked::keep_after(&mut self.words, self.at, self.n, &self.keys, MIDDLE);
        self.holds(Wanted::PickedAboveMiddle)
    }

    // The first words, as many as the set has, zero, the others as before.
    pub(crate) fn clears(&mut self) -> bool {
        let k = self.width();
        self.words.fill(OUTSIDE);
        asked::clear(&mut self.words, k);
        outside(&self.words, 0, k) && self.words.iter().take(k).all(|word| *word == 0)
    }
}

// Picked rows of 24 words, and those from a up to b beside them.
pub(crate) fn adds_range(a: usize, b: usize) -> bool {
    let mut s = [0; 24];
    add_picked(&mut s, 0, 1536, is_first_pick);
    asked::add_range(&mut s, a, b);
    (0..1536).all(|r| is_set(&s, 0, r) == (is_first_pick(r) || a <= r && r < b))
}
