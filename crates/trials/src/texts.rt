// Texts put together from parts.
ghost use Rattle.std.specs.Prelude.{◌≤◌};

// A text of N bytes at most, in a fixed room: no heap.
#[derive(Drop)]
pub struct Text<const N: usize> {
    room: [u8; N],
    len: usize,
    ghost in_room: { len ≤ N },
}

impl<const N: usize> Text<N> {
    pub fn new() -> Text<N> {
        Text {
            room: [0; N],
            len: 0,
        }
    }

    // Adds as much of a part as there is room for.
    pub fn add(&mut self, part: &[u8]) {
        let n = part.len().min(N - self.len);
        let room = &mut self.room[..];
        room[self.len..self.len + n].copy_from_slice(&part[..n]);
        self.len += n;
    }

    pub fn add_times(&mut self, part: &[u8], n: usize) {
        for _ in 0..n {
            self.add(part);
        }
    }

    // Puts one byte in the place of another.
    pub fn put(&mut self, i: usize, b: u8) {
        if i < self.len {
            self.room[i] = b;
        }
    }

    pub fn bytes(&self) -> &[u8] {
        let room = &self.room[..];
        &room[..self.len]
    }
}
