// A text that is lent, and the place up to which it is written.
ghost use Rattle.std.specs.Prelude.{◌≡◌, ◌+◌, ◌≤◌, length};
ghost use Rattle.std.proofs.lemmas.List.Edits.{sets};

use crate::Sink;

#[derive(Drop)]
pub struct Pen<'a> {
    text: &'a mut [u8],
    place: usize,
    ghost inside: { place ≤ length text.now },
}

impl<'a> Pen<'a> {
    // Before the first byte.
    pub fn new(text: &'a mut [u8]) -> Pen<'a>
        ensures same_text { result.text.ghost_name ≡ text.entry.ghost_name }
        ensures text { result.text.now ≡ text.old }
        ensures place { result.place ≡ 0 }
    {
        Pen { text, place: 0 }
    }

    // How many bytes are written.
    pub fn place(&self) -> usize
        ensures { result ≡ self.now.place }
    {
        self.place
    }
}

// Puts bytes from a place on. A word has few of them, and `copy_from_slice` would need `memmove`, which the library does
// without.
fn put_bytes(text: &mut [u8], place: usize, w: &[u8])
    requires { place + length w.now ≤ length text.old }
    ensures { text.new ≡ sets text.old place w.now }
{
    for (j, byte) in w.iter().enumerate() {
        text[place + j] = *byte;
    }
}

impl Sink for Pen<'_> {
    ghost use Rattle.spelling.specs.Pens.{left, Puts, pen_laws};

    ghost room = { left };

    ghost takes = { Puts };

    fn put_word(&mut self, w: &[u8]) {
        put_bytes(self.text, self.place, w);
        self.place += w.len();
    }

    ghost laws = { pen_laws };
}
