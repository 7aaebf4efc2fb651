// One call of an entry judged against what trying every choice gives.
use crate::ask::{Buffers, listing};
use crate::costs::Costs;
use crate::order::Case;
use crate::tried::List;
use meaning::{Ending, Listing};
use trials::cells::wrong;
use trials::questions::Question;

// ---- yes or no, of up to 64 rows

pub(crate) fn yes_no(asked: Question, words: usize, yes: bool) -> u64 {
    let mut lent = Buffers::<20, 1>::lending(words, 0);
    let told = lent.yes_or_no(asked);
    wrong(told == Some(Ok(yes)) && lent.are_cleared(asked.query.variables))
}

// ---- the first answer after a tuple

// What is found stands in the buffer, and nothing else; where there is none no place differs. Both buffers are longer than
// needed by `more`, 2 at most. Up to 4 variables.
pub(crate) fn after_in(asked: Question, tuple: &[u16], next: Option<&[u16]>, more: usize) -> u64 {
    let v = asked.query.variables;
    let places = asked.query.head_count.wrapping_add(more);
    let mut lent = Buffers::<8, 8>::lending(v.wrapping_add(more), places);
    let told = lent.find_after(asked, tuple);
    wrong(told == Some(Ok(next.is_some())) && lent.hold(next.unwrap_or(&[])) && lent.are_cleared(v))
}

// The answer after tuple t is tuple `next`, both by number.
pub(crate) fn after(case: &Case, t: usize, next: Option<usize>, more: usize) -> u64 {
    let tuple = |t: usize| [case.row_of(t, 0), case.row_of(t, 1), case.row_of(t, 2)];
    let k = case.asked.query.head_count;
    if 3 < k {
        return 1;
    }
    let from = tuple(t);
    match next {
        Some(u) => after_in(case.asked, &from[..k], Some(&tuple(u)[..k]), more),
        None => after_in(case.asked, &from[..k], None, more),
    }
}

// ---- listing

// The document's three endings, word by word: with the largest j that has room and C(j) within the allowance.
pub(crate) fn expected(costs: &Costs, m: usize, room: usize, allowance: u64) -> Listing {
    let j = (0..m.wrapping_add(1))
        .rev()
        .find(|j| *j <= room && costs.first(*j) <= allowance)
        .unwrap_or(0);
    if room <= m && costs.first(room) <= allowance {
        listing(Ending::Full, j, costs.first(room))
    } else if m < room && costs.all <= allowance {
        listing(Ending::Finished, j, costs.all)
    } else {
        listing(Ending::Spent, j, allowance)
    }
}

// A listing tells what is expected, its tuples are the first of these, and nothing else is left in the buffers. Lent are
// `places` of 200 places, and the words of the variables with some `more`, 2 at most.
pub(crate) fn list_in(
    asked: Question,
    allowance: u64,
    places: usize,
    more: usize,
    tuples: &[u16],
    expect: Listing,
) -> u64 {
    let v = asked.query.variables;
    let mut lent = Buffers::<6, 200>::lending(v.wrapping_add(more), places);
    let told = lent.list(asked, allowance);
    let end = expect.tuples.wrapping_mul(asked.query.head_count);
    let held = tuples.get(..end).is_some_and(|first| lent.hold(first));
    wrong(told == Some(Ok(expect)) && held && lent.are_cleared(v))
}

// With this allowance and room, and up to k - 1 places past the last tuple that has room.
pub(crate) fn list(case: &Case, costs: &Costs, list: &List, allowance: u64, room: usize) -> u64 {
    let k = case.asked.query.head_count;
    let x = (allowance as usize).wrapping_add(room);
    let spare = match k {
        2 => x % 2,
        3 => x % 3,
        _ => 0,
    };
    list_in(
        case.asked,
        allowance,
        room.wrapping_mul(k).wrapping_add(spare),
        room % 3,
        list.tuples(),
        expected(costs, list.count, room, allowance),
    )
}
