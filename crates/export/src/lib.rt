// The library for programs in other languages: the entries on numbers and slices, for any input.
//
// A query comes in as its number of variables and three lists: the head; the label conditions, two numbers each (variable,
// label); the axis conditions, three numbers each (code, first variable, second variable). `told` gets the answer: document
// 01's number (0 for no refusal), the place, the values, then zeros.
#![tactic(auto)]

mod lent;
mod words;

ghost use Rattle.std.specs.Prelude.{◌≡◌, length};
ghost use Rattle.meaning.specs.Query.{asked};
ghost use Rattle.meaning.specs.Told.{told_table, told_query, told_prune, told_yes_no, told_search, told_list};
ghost use Rattle.meaning.specs.Entries.{at_front, table_answer, query_answer, prune_answer, prune_leaves, yes_no_answer, yes_no_leaves, search_answer, search_leaves_sets, search_leaves_found, list_answer, list_leaves_sets, list_leaves_found};
ghost use Rattle.meaning.specs.QueryTexts.{reading, query_for, buffer};
ghost use Rattle.export.specs.Lent.{lent, label_numbers, axis_numbers};
ghost use Rattle.export.specs.Words.{told_words, told_reading, SentenceTold};

use crate::lent::{gather, write_reading};

// Is the table a tree? No values.
#[unsafe(no_mangle)]
pub extern "C" fn pouchmeadow_check_table(post: &[u16], label: &[u16], told: &mut [u64; 8])
    ensures { told.new ≡ told_words (told_table (table_answer post.now label.now)) }
{
    *told = words::of_table(table::check_table(post, label));
}

// Is the query accepted? The value is the number of its axis set.
#[unsafe(no_mangle)]
pub extern "C" fn pouchmeadow_check_query(
    variables: usize,
    head: &[u8],
    labels: &[u16],
    axes: &[u8],
    told: &mut [u64; 8],
)
    ensures { told.new ≡ told_words (told_query (query_answer (lent variables head.now labels.now axes.now))) }
{
    let q = gather(variables, head, labels, axes);
    *told = words::of_query(query::check_query(q));
}

// Prunes the label sets. The value is the strikings; the sets are left in `sets`.
#[unsafe(no_mangle)]
pub extern "C" fn pouchmeadow_prune(
    post: &[u16],
    label: &[u16],
    variables: usize,
    head: &[u8],
    labels: &[u16],
    axes: &[u8],
    sets: &mut [u64],
    told: &mut [u64; 8],
)
    ensures { (told.new ≡ told_words (told_prune (prune_answer post.now label.now (lent variables head.now labels.now axes.now) sets.old)))
        × (sets.new ≡ prune_leaves post.now label.now (lent variables head.now labels.now axes.now) sets.old) }
{
    let q = gather(variables, head, labels, axes);
    let a = prune::prune(post, label, q, sets);
    *told = words::of_prune(a);
}

// Does some choice of rows meet all conditions? The value is 1 for yes, 0 for no.
#[unsafe(no_mangle)]
pub extern "C" fn pouchmeadow_yes_or_no(
    post: &[u16],
    label: &[u16],
    variables: usize,
    head: &[u8],
    labels: &[u16],
    axes: &[u8],
    sets: &mut [u64],
    told: &mut [u64; 8],
)
    ensures { (told.new ≡ told_words (told_yes_no (yes_no_answer post.now label.now (lent variables head.now labels.now axes.now) sets.old)))
        × (sets.new ≡ yes_no_leaves post.now label.now (lent variables head.now labels.now axes.now) sets.old) }
{
    let q = gather(variables, head, labels, axes);
    let a = answers::yes_or_no(post, label, q, sets);
    *told = words::of_truth(a);
}

// The first answer after a tuple, into `found`. The value is 1 for found, 0 for nothing.
#[unsafe(no_mangle)]
pub extern "C" fn pouchmeadow_find_after(
    post: &[u16],
    label: &[u16],
    variables: usize,
    head: &[u8],
    labels: &[u16],
    axes: &[u8],
    tuple: &[u16],
    sets: &mut [u64],
    found: &mut [u16],
    told: &mut [u64; 8],
)
    ensures { (told.new ≡ told_words (told_search (search_answer post.now label.now (lent variables head.now labels.now axes.now) tuple.now sets.old found.old)))
        × (sets.new ≡ search_leaves_sets post.now label.now (lent variables head.now labels.now axes.now) tuple.now sets.old found.old)
        × (found.new ≡ search_leaves_found post.now label.now (lent variables head.now labels.now axes.now) tuple.now sets.old found.old) }
{
    let q = gather(variables, head, labels, axes);
    let a = answers::find_after(post, label, q, tuple, sets, found);
    *told = words::of_truth(a);
}

// Lists answers into `found`. The values are the ending (0 finished, 1 full, 2 spent), the tuples, the strikings used.
#[unsafe(no_mangle)]
pub extern "C" fn pouchmeadow_list_answers(
    post: &[u16],
    label: &[u16],
    variables: usize,
    head: &[u8],
    labels: &[u16],
    axes: &[u8],
    allowance: u64,
    sets: &mut [u64],
    found: &mut [u16],
    told: &mut [u64; 8],
)
    ensures { (told.new ≡ told_words (told_list (list_answer post.now label.now (lent variables head.now labels.now axes.now) allowance sets.old found.old)))
        × (sets.new ≡ list_leaves_sets post.now label.now (lent variables head.now labels.now axes.now) allowance sets.old found.old)
        × (found.new ≡ list_leaves_found post.now label.now (lent variables head.now labels.now axes.now) allowance sets.old found.old) }
{
    let q = gather(variables, head, labels, axes);
    let a = answers::list_answers(post, label, q, allowance, sets, found);
    *told = words::of_list(a);
}

// Reads a query text. The values are the bytes of the names, then the numbers of variables, of head variables, of label
// conditions and of axis conditions. Of a refused text nothing is written but `told`.
#[unsafe(no_mangle)]
pub extern "C" fn pouchmeadow_read_query(
    text: &[u8],
    names: &mut [u8],
    head: &mut [u8; 8],
    labels: &mut [u16; 64],
    axes: &mut [u8; 96],
    told: &mut [u64; 8],
)
    ensures { (told.new ≡ told_words (told_reading (reading text.now (length names.old))))
        × (names.new ≡ buffer text.now names.old)
        × (head.new ≡ at_front (asked (query_for (reading text.now (length names.old)))).head head.old)
        × (labels.new ≡ at_front (label_numbers (asked (query_for (reading text.now (length names.old)))).labels) labels.old)
        × (axes.new ≡ at_front (axis_numbers (asked (query_for (reading text.now (length names.old)))).axes) axes.old) }
{
    let r = pouchmeadow::read_query(text, names);
    write_reading(r, head, labels, axes);
    *told = words::of_reading(r);
}

// Reads the sentence at the front of a text. The values are the rows, and where the sentence ends.
#[unsafe(no_mangle)]
pub extern "C" fn pouchmeadow_read_sentence(
    text: &[u8],
    names: &[u8],
    post: &mut [u16],
    label: &mut [u16],
    told: &mut [u64; 8],
)
    ensures { SentenceTold text.now names.now post.old label.old told.new post.new label.new }
{
    let a = pouchmeadow::read_sentence(text, names, post, label);
    *told = words::of_sentence(a);
}
