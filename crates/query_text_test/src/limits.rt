// Each limit and one past it.
use crate::cases::{read, reads, refused, untouched};

pub(crate) fn letters() -> bool {
    reads(b"Q(abcdefgh) <- NP(abcdefgh).", 3)
        && refused(b"Q(abcdefghi) <- NP(x).", 10, 10)
        && reads(b"Q() <- ABCDEFGHIJKLMNOP(x).", 17)
        && refused(b"Q() <- ABCDEFGHIJKLMNOPQ(x).", 10, 23)
}

// 16 and 17 variables, 8 and 9 in the head.
pub(crate) fn variables() -> bool {
    reads(
        b"Q()<-A(v0),A(v1),A(v2),A(v3),A(v4),A(v5),A(v6),A(v7),A(v8),A(v9),A(v10),A(v11),A(v12),A(v13),A(v14),A(v15).",
        2,
    ) && refused(
        b"Q()<-A(v0),A(v1),A(v2),A(v3),A(v4),A(v5),A(v6),A(v7),A(v8),A(v9),A(v10),A(v11),A(v12),A(v13),A(v14),A(v15),A(v16).",
        4,
        0,
    ) && reads(
        b"Q(v0,v1,v2,v3,v4,v5,v6,v7)<-A(v0),A(v1),A(v2),A(v3),A(v4),A(v5),A(v6),A(v7).",
        2,
    ) && refused(
        b"Q(v0,v1,v2,v3,v4,v5,v6,v7,v8)<-A(v0),A(v1),A(v2),A(v3),A(v4),A(v5),A(v6),A(v7),A(v8).",
        4,
        0,
    )
}

fn labels_32() -> bool {
    reads(
        b"Q(x)<-A(x),A(x),A(x),A(x),A(x),A(x),A(x),A(x),A(x),A(x),A(x),A(x),A(x),A(x),A(x),A(x),A(x),A(x),A(x),A(x),A(x),A(x),A(x),A(x),A(x),A(x),A(x),A(x),A(x),A(x),A(x),A(x).",
        2,
    ) && refused(
        b"Q(x)<-A(x),A(x),A(x),A(x),A(x),A(x),A(x),A(x),A(x),A(x),A(x),A(x),A(x),A(x),A(x),A(x),A(x),A(x),A(x),A(x),A(x),A(x),A(x),A(x),A(x),A(x),A(x),A(x),A(x),A(x),A(x),A(x),A(x).",
        4,
        0,
    )
}

fn names_32() -> bool {
    reads(
        b"Q(x)<-AA(x),AB(x),AC(x),AD(x),AE(x),AF(x),AG(x),AH(x),AI(x),AJ(x),AK(x),AL(x),AM(x),AN(x),AO(x),AP(x),AQ(x),AR(x),AS(x),AT(x),AU(x),AV(x),AW(x),AX(x),AY(x),AZ(x),BA(x),BB(x),BC(x),BD(x),BE(x),BF(x).",
        96,
    ) && refused(
        b"Q(x)<-AA(x),AB(x),AC(x),AD(x),AE(x),AF(x),AG(x),AH(x),AI(x),AJ(x),AK(x),AL(x),AM(x),AN(x),AO(x),AP(x),AQ(x),AR(x),AS(x),AT(x),AU(x),AV(x),AW(x),AX(x),AY(x),AZ(x),BA(x),BB(x),BC(x),BD(x),BE(x),BF(x),BG(x).",
        4,
        0,
    )
}

fn axes_32() -> bool {
    reads(
        b"Q(x)<-Child(x,x),Child(x,x),Child(x,x),Child(x,x),Child(x,x),Child(x,x),Child(x,x),Child(x,x),Child(x,x),Child(x,x),Child(x,x),Child(x,x),Child(x,x),Child(x,x),Child(x,x),Child(x,x),Child(x,x),Child(x,x),Child(x,x),Child(x,x),Child(x,x),Child(x,x),Child(x,x),Child(x,x),Child(x,x),Child(x,x),Child(x,x),Child(x,x),Child(x,x),Child(x,x),Child(x,x),Child(x,x).",
        0,
    ) && refused(
        b"Q(x)<-Child(x,x),Child(x,x),Child(x,x),Child(x,x),Child(x,x),Child(x,x),Child(x,x),Child(x,x),Child(x,x),Child(x,x),Child(x,x),Child(x,x),Child(x,x),Child(x,x),Child(x,x),Child(x,x),Child(x,x),Child(x,x),Child(x,x),Child(x,x),Child(x,x),Child(x,x),Child(x,x),Child(x,x),Child(x,x),Child(x,x),Child(x,x),Child(x,x),Child(x,x),Child(x,x),Child(x,x),Child(x,x),Child(x,x).",
        4,
        0,
    )
}

// 32 and 33 label conditions, repeated ones too, and axis conditions; 32 of both.
pub(crate) fn conditions() -> bool {
    labels_32()
        && names_32()
        && axes_32()
        && reads(
            b"Q(x)<-A(x),A(x),A(x),A(x),A(x),A(x),A(x),A(x),A(x),A(x),A(x),A(x),A(x),A(x),A(x),A(x),A(x),A(x),A(x),A(x),A(x),A(x),A(x),A(x),A(x),A(x),A(x),A(x),A(x),A(x),A(x),A(x),Child(x,x),Child(x,x),Child(x,x),Child(x,x),Child(x,x),Child(x,x),Child(x,x),Child(x,x),Child(x,x),Child(x,x),Child(x,x),Child(x,x),Child(x,x),Child(x,x),Child(x,x),Child(x,x),Child(x,x),Child(x,x),Child(x,x),Child(x,x),Child(x,x),Child(x,x),Child(x,x),Child(x,x),Child(x,x),Child(x,x),Child(x,x),Child(x,x),Child(x,x),Child(x,x),Child(x,x),Child(x,x).",
            2,
        )
}

// A buffer of exactly the names' bytes, one byte less, and no buffer for no names.
pub(crate) fn buffers() -> bool {
    let text = b"Q(x,y) <- NP(x), Child+(x,y), NN(y).";
    let mut six = [7; 6];
    let mut five = [7; 5];
    read(text, &mut six) == Ok(6)
        && six == *b"NP\nNN\n"
        && read(text, &mut five) == Err((9, 0))
        && untouched(&five)
}
