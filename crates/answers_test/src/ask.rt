// The three entries asked with buffers that hold a pattern: what they tell, and which places they changed. Refusals, axes and
// sets are told by document 01's numbers, in which the tests are written.
use meaning::{Ending, Listing};
use trials::buffers::{fill, kept, zero};
use trials::questions::Question;

pub(crate) fn listing(ending: Ending, tuples: usize, strikings: u64) -> Listing {
    Listing {
        ending,
        tuples,
        strikings,
    }
}

// W words for sets and P places for answers, of each of which the first are lent: the numbers say how many, not what is held.
#[derive(Drop)]
pub(crate) struct Buffers<const W: usize, const P: usize> {
    words: [u64; W],
    places: [u16; P],
    lent_words: usize,
    lent_places: usize,
}

// An entry is asked where there is as much as is to be lent; it tells what it finds, or the number of the refusal.
impl<const W: usize, const P: usize> Buffers<W, P> {
    pub(crate) fn lending(words: usize, places: usize) -> Buffers<W, P> {
        let mut buffers = Buffers {
            words: [0; W],
            places: [0; P],
            lent_words: words,
            lent_places: places,
        };
        fill(&mut buffers.words);
        fill(&mut buffers.places);
        buffers
    }

    pub(crate) fn yes_or_no(&mut self, asked: Question) -> Option<Result<bool, u8>> {
        let words = self.words.get_mut(..self.lent_words)?;
        let told = answers::yes_or_no(asked.post, asked.label, asked.query, words);
        Some(told.map_err(|why| why.number()))
    }

    // Whether a tuple was found.
    pub(crate) fn find_after(
        &mut self,
        asked: Question,
        tuple: &[u16],
    ) -> Option<Result<bool, u8>> {
        let words = self.words.get_mut(..self.lent_words)?;
        let places = self.places.get_mut(..self.lent_places)?;
        let told = answers::find_after(asked.post, asked.label, asked.query, tuple, words, places);
        Some(told.map_err(|why| why.number()))
    }

    pub(crate) fn list(&mut self, asked: Question, allowance: u64) -> Option<Result<Listing, u8>> {
        let words = self.words.get_mut(..self.lent_words)?;
        let places = self.places.get_mut(..self.lent_places)?;
        let told = answers::list_answers(
            asked.post,
            asked.label,
            asked.query,
            allowance,
            words,
            places,
        );
        Some(told.map_err(|why| why.number()))
    }

    // No word and no place differs.
    pub(crate) fn are_kept(&self) -> bool {
        kept(&self.words, 0) && kept(&self.places, 0)
    }

    // After an accepted call: zeros in the first `used` words, the pattern beyond.
    pub(crate) fn are_cleared(&self, used: usize) -> bool {
        zero(&self.words, used) && kept(&self.words, used)
    }

    // These numbers stand in the first places; no place beyond differs.
    pub(crate) fn hold(&self, tuples: &[u16]) -> bool {
        self.places.starts_with(tuples) && self.keep_from(tuples.len())
    }

    // From one place on no place differs.
    pub(crate) fn keep_from(&self, place: usize) -> bool {
        kept(&self.places, place)
    }
}
