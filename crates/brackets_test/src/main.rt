// Tries the sentence reader: writes the number of each trial that fails, whether the places are those found by trying, and at
// the end `done`.
#![tactic(auto)]

mod seen;
mod texts;
mod tries;

use seen::{fails, left, refused, table};
use texts::{deep, deep_in_pair, long_label, long_word, many, names};
use tries::tries;

// Document 01's sentence, and legal texts at the edges of the rules.
fn legal_texts() {
    let d = b"( (S (NP (DT a) (NN dog)) (VP (VBD ran) (PP (IN in) (NP (NN rain))))) )";
    let posts = [9, 2, 0, 1, 8, 3, 7, 4, 6, 5];
    let labels = [65535, 0, 65535, 1, 65535, 65535, 65535, 65535, 0, 1];
    fails(1, table(d, b"NP\nNN\n", &posts, &labels));
    fails(
        2,
        table(b"(A (B b)(C c))", b"", &[2, 0, 1], &[65535, 65535, 65535]),
    );
    fails(3, table(b"(A a )", b"A\n", &[0], &[0]));
}

// White space of all four kinds around parentheses.
fn white_texts() {
    fails(4, table(b"((A a))", b"B\nA\n", &[0], &[1]));
    fails(
        5,
        table(
            b"\t\r\n ( \t\r\n (A \t\r\n a \t\r\n ) \t\r\n )",
            b"",
            &[0],
            &[65535],
        ),
    );
    fails(
        6,
        table(
            b" (A \t\r\n (B\tb)\r\n\t (C\rc) \n )",
            b"C\nB\nA\n",
            &[2, 0, 1],
            &[2, 1, 0],
        ),
    );
    fails(7, table(b"(A a))", b"A\n", &[0], &[0]));
}

// Names: what is cut off a label, equal names, an empty line.
fn name_texts() {
    let one = [0];
    fails(11, table(b"(NP-SBJ a)", b"NP\n", &one, &[0]));
    fails(12, table(b"(NP=2 a)", b"X\nNP\n", &one, &[1]));
    fails(13, table(b"(NP=2-1 a)", b"NP=2\nNP\nNP\n", &one, &[1]));
    fails(14, table(b"(-NONE- a)", b"NP\n", &one, &[65535]));
    fails(15, table(b"(-NONE- a)", b"NP\n\nX\n", &one, &[1]));
    fails(16, table(b"(=x a)", b"\n", &one, &[0]));
}

// Names: what no line feed closes, names that begin alike.
fn list_texts() {
    let one = [0];
    fails(17, table(b"(NP a)", b"NP", &one, &[65535]));
    fails(18, table(b"(NP a)", b"N\nNPP\nNP", &one, &[65535]));
    fails(19, table(b"(NP a)", b"N\nNPP\nNP\nNP\n", &one, &[2]));
    fails(20, table(b"(NP a)", b"", &one, &[65535]));
    fails(21, table(b"(A-B a)", b"A-B\n(\nA\n", &one, &[2]));
}

// The places of 11: labels and pairs.
fn wrong_texts() {
    fails(31, refused(b"(S(NP x))", 11, 2));
    fails(32, refused(b"( S x)", 11, 2));
    fails(33, refused(b"(S ( NP x))", 11, 4));
    fails(34, refused(b"(((A a)))", 11, 2));
    fails(35, refused(b"( (A a) (B b) )", 11, 8));
    fails(36, refused(b"()", 11, 1));
    fails(37, refused(b"(NP)", 11, 3));
}

// The places of 11: bodies, and texts that end early.
fn wrong_bodies() {
    fails(38, refused(b"(NP )", 11, 4));
    fails(39, refused(b"(A a b)", 11, 5));
    fails(40, refused(b"", 11, 0));
    fails(41, refused(b" \n", 11, 2));
    fails(42, refused(b"(S", 11, 2));
    fails(43, refused(b"(S (A a) ", 11, 9));
    fails(44, refused(b"(A (B b) c)", 11, 9));
}

// The places of 11: bytes that no sentence has, and what may not stand there.
fn wrong_bytes() {
    fails(45, refused(b"x", 11, 0));
    fails(46, refused(b"(A a\x01)", 11, 4));
    fails(47, refused(b"( )", 11, 2));
    fails(48, refused(b"(A a(B b))", 11, 4));
    fails(49, refused(b"( (A a)", 11, 7));
    fails(50, refused(b"\x00(A a)", 11, 0));
    fails(51, refused(b"(A\x0b a)", 11, 2));
}

// Labels and words of 64 bytes, and one more.
fn token_texts() {
    fails(61, table(long_word(64).bytes(), b"A\n", &[0], &[0]));
    fails(62, refused(long_word(65).bytes(), 11, 67));
    fails(63, table(long_label(64).bytes(), b"A\n", &[0], &[65535]));
    fails(64, refused(long_label(65).bytes(), 11, 65));
}

// Levels, and one more; also in a bare pair.
fn depth_texts() {
    let text = deep(64);
    fails(65, left(text.bytes(), 64, text.bytes().len()));
    fails(66, refused(deep(65).bytes(), 12, 192));
    let text = deep_in_pair(64);
    fails(67, left(text.bytes(), 64, text.bytes().len()));
    fails(68, refused(deep_in_pair(65).bytes(), 12, 193));
}

// Rows and names, and one more.
fn row_texts() {
    let text = many(1024);
    fails(69, left(text.bytes(), 1024, text.bytes().len()));
    fails(70, refused(many(1025).bytes(), 12, 5118));
    fails(71, seen::takes(names(32).bytes()));
    fails(72, seen::miscounts(names(33).bytes()));
}

// Columns exactly long enough, longer, and one short.
fn columns() {
    fails(73, seen::reads_three(&mut [7; 3], &mut [7; 3]));
    fails(74, seen::reads_three(&mut [7; 5], &mut [7; 4]));
    fails(75, seen::is_short_of_three(&mut [7; 2], &mut [7; 4]));
    fails(76, seen::is_short_of_three(&mut [7; 4], &mut [7; 2]));
    fails(77, seen::is_short_of_three(&mut [7; 1], &mut [7; 1]));
}

// The rest of a text, and several sentences one after the other.
fn rests() {
    fails(81, seen::rest_is(b"(S x)y", b"y"));
    fails(82, seen::rest_is(b"(S x)", b""));
    fails(83, seen::rest_is(b" ( (S x) ) (S", b" (S"));
    fails(84, seen::rest_is(b"(S x", b"(S x"));
    fails(85, seen::rest_is(b"", b""));
    fails(86, seen::sentences(b" (A a)\n(B b) ((C c)) \n") == 3);
    fails(87, seen::rest_past());
}

// Cuts, and bytes that no legal text has.
fn damages() {
    let d = b"( (S (NP (DT a) (NN dog)) (VP (VBD ran) (PP (IN in) (NP (NN rain))))) )";
    fails(91, seen::cuts(d));
    fails(92, seen::cuts(b" (A-B=1 \t (B b)\r(C c) \n )"));
    let mut e = *b"( (S (NP (DT a) (NN dog)) (VP (VBD ran) (PP (IN in) (NP (NN rain))))) )";
    fails(93, seen::damaged(&mut e, 1));
    fails(94, seen::damaged(&mut e, 0));
}

// The places of cut and damaged texts, compared with places found by trying.
fn places() {
    if tries() {
        io::write_all(1, b"places by trying: right\n");
    } else {
        io::write_all(1, b"places by trying: WRONG\n");
    }
}

fn main() {
    legal_texts();
    white_texts();
    name_texts();
    list_texts();
    wrong_texts();
    wrong_bodies();
    wrong_bytes();
    token_texts();
    depth_texts();
    row_texts();
    columns();
    rests();
    damages();
    places();
    io::write_all(1, b"done\n");
}
