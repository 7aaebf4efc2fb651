// The place of a damaged text, compared with one that is found by trying: a beginning continues a legal text where it makes
// one with the end of a legal text.
use crate::cases::read;
use trials::texts::Text;

fn is_legal(text: &[u8]) -> bool {
    !matches!(read(text, &mut [0; 128]), Err((10, _)))
}

// A beginning with the end of another text.
fn completes(beginning: &[u8], end: &[u8]) -> bool {
    let mut text = Text::<128>::new();
    text.add(beginning);
    text.add(end);
    is_legal(text.bytes())
}

fn continues_to(beginning: &[u8], other: &[u8]) -> bool {
    (0..=other.len()).any(|from| completes(beginning, &other[from..]))
}

// The ends of these two complete every beginning of a legal text.
fn continues(beginning: &[u8]) -> bool {
    continues_to(beginning, b"Q(x,y) <- NP(x), Child+(x,y), NN(y).")
        || continues_to(beginning, b"Q() <- NextSibling*(x,y), Following(x,y).")
}

// A place given by 10 is the end of the longest beginning that continues.
fn agrees(text: &[u8]) -> bool {
    let Err((10, place)) = read(text, &mut [0; 128]) else {
        return true;
    };
    if text.len() <= place {
        return place == text.len() && continues(text);
    }
    continues(&text[..place]) && !continues(&text[..place + 1])
}

fn agrees_with(text: &[u8], i: usize, b: u8) -> bool {
    let mut damaged = Text::<128>::new();
    damaged.add(text);
    damaged.put(i, b);
    agrees(damaged.bytes())
}

fn agrees_everywhere(text: &[u8]) -> bool {
    let marks = b"QqCcNnFfhexz09AZ$|+*(),.<- \t\n\r!_\x00\xff";
    (0..text.len()).all(|i| marks.iter().all(|b| agrees_with(text, i, *b)))
}

// Every byte of some legal texts in turn, by every mark.
pub(crate) fn tries() -> bool {
    agrees_everywhere(b"Q(x,y) <- NP(x), Child+(x,y), NN(y).")
        && agrees_everywhere(b"Q( ) <- NextSibling* (abcdefgh,y1) .\r\n")
        && agrees_everywhere(b"Q(x)<-C(x),F(x),Following(x,x),ABCDEFGHIJKLMNOP(x).")
}
