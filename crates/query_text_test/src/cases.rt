// Single texts, with document 01's number and the place that they must give: the tests are written in them.
use meaning::QueryReading;

// The bytes of the names, or the number and the place of the refusal.
pub(crate) fn read(text: &[u8], names: &mut [u8]) -> Result<usize, (u8, usize)> {
    query_text::read_query(text, names)
        .map(|reading| reading.bytes)
        .map_err(|why| (why.number(), why.place()))
}

// Every byte is the one that the buffer was filled with.
pub(crate) fn untouched(names: &[u8]) -> bool {
    names.iter().all(|b| *b == 7)
}

// The text is read, with so many bytes of names.
pub(crate) fn reads(text: &[u8], bytes: usize) -> bool {
    read(text, &mut [7; 128]) == Ok(bytes)
}

// The text is refused with this number and place, and the buffer is as it was.
pub(crate) fn refused(text: &[u8], number: u8, place: usize) -> bool {
    let mut names = [7; 128];
    read(text, &mut names) == Err((number, place)) && untouched(&names)
}

// Document 01's example: its query and its names, and the buffer after them as it was.
pub(crate) fn example() -> bool {
    let mut names = [7; 8];
    let told = query_text::read_query(b"Q(x,y) <- NP(x), Child+(x,y), NN(y).", &mut names);
    let Ok(QueryReading { bytes: 6, query: q }) = told else {
        return false;
    };
    let l = q.labels[1];
    let c = q.axes[0];
    q.variables == 2
        && l.variable == 1
        && l.label == 1
        && c.code == 1
        && c.second == 1
        && names == *b"NP\nNN\n\x07\x07"
}

pub(crate) fn spelling() -> bool {
    reads(b"Q(x) <- C(x), N(x), F(x), Q(x), NE(x).", 11)
        && refused(b"Q(x) <- Chil(x,y).", 10, 12)
        && refused(b"Q(x) <- Childs(x,y).", 10, 13)
        && refused(b"Q(x) <- CHild(x,y).", 10, 10)
        && refused(b"Q(x) <- Child(x).", 10, 15)
        && refused(b"Q(x) <- NP(x,y).", 10, 12)
        && refused(b"Q(x) <- NextSiblin(x,y).", 10, 18)
        && refused(b"Q(x) <- Following+(x,y).", 10, 17)
        && reads(b"Q(x) <- NP|VP$2(x), NextSibling*(x,x), Following(x,x).", 8)
}

// White space of all four kinds between any two words and signs, and where it may not stand.
pub(crate) fn spaces() -> bool {
    reads(b"Q (x) <- NP (x).", 3)
        && reads(
            b"Q \t(\n\rx\t) <-\nChild+\r( x , \tx\n) , A ( x ) .\r\n\t ",
            2,
        )
        && refused(b" Q(x) <- NP(x).", 10, 0)
        && refused(b"Q(x) < - NP(x).", 10, 6)
        && refused(b"Q(x) <- Child +(x,y).", 10, 14)
        && refused(b"Q(x) <- N P(x).", 10, 10)
        && refused(b"Q(x) <- NP(x). x", 10, 15)
}

// Each reason, and which comes first: 10, 4, 5, 13, 9.
pub(crate) fn reasons() -> bool {
    refused(b"", 10, 0)
        && refused(b"Q(x,x,x,x,x,x,x,x,x) <- NP(y)", 10, 29)
        && refused(b"Q(x,x,x,x,x,x,x,x,x) <- NP(y).", 4, 0)
        && refused(b"Q(x,x) <- NP(y).", 5, 0)
        && refused(b"Q(y,x) <- NP(x).", 13, 0)
        && reads(b"Q(y,x) <- Child(x,y).", 0)
}

const LEGAL: &[u8; 42] = b"Q(x,y) <- NP(x), NextSibling+(x,y), NN(y).";

// Every cut of a legal text ends early.
pub(crate) fn cuts() -> bool {
    (0..LEGAL.len()).all(|n| refused(&LEGAL[..n], 10, n))
}

// A byte that is legal nowhere, in every place. A loop: a closure would not know that i is a place of the text.
pub(crate) fn damaged() -> bool {
    for i in 0..LEGAL.len() {
        let mut text = *LEGAL;
        text[i] = b'!';
        if !refused(&text, 10, i) {
            return false;
        }
    }
    true
}
