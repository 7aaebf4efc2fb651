// The library asked with a buffer that holds a pattern: its answer, and which words it changed. Refusals and axes are told by
// document 01's numbers, in which the tests are written.
use trials::buffers::{fill, kept};
use trials::cells::wrong;
use trials::questions::Question;

// The first `words` words of the buffer are lent, where it has so many: the strikings, or the number of the refusal.
pub(crate) fn ask(asked: Question, s: &mut [u64], words: usize) -> Option<Result<u64, u8>> {
    let lent = s.get_mut(..words)?;
    Some(prune::prune(asked.post, asked.label, asked.query, lent).map_err(|why| why.number()))
}

// Refused with this number, and no word differs.
pub(crate) fn refused(asked: Question, words: usize, no: u8) -> u64 {
    let mut s = [0; 300];
    fill(&mut s);
    let told = ask(asked, &mut s, words);
    wrong(told == Some(Err(no)) && kept(&s, 0))
}

// Pruned with these strikings, and no word differs from word `used` on.
pub(crate) fn pruned(asked: Question, words: usize, strikings: u64, used: usize) -> u64 {
    let mut s = [0; 300];
    fill(&mut s);
    let told = ask(asked, &mut s, words);
    wrong(told == Some(Ok(strikings)) && kept(&s, used))
}

// Two variables, at most 64 rows: the strikings, and the rows that are left as bits of a word for each variable.
pub(crate) fn leaves(asked: Question, strikings: u64, first: u64, second: u64) -> u64 {
    let mut s = [0; 300];
    fill(&mut s);
    let told = ask(asked, &mut s, 2);
    wrong(told == Some(Ok(strikings)) && s[0] == first && s[1] == second && kept(&s, 2))
}
