// How many bytes a text has.
ghost use Rattle.std.specs.Prelude.{◌≡◌};

use crate::Sink;

#[derive(Drop)]
pub struct Count {
    bytes: usize,
}

impl Count {
    pub fn new() -> Count
        ensures { result.bytes ≡ 0 }
    {
        Count { bytes: 0 }
    }

    pub fn bytes(&self) -> usize
        ensures { result ≡ self.now.bytes }
    {
        self.bytes
    }
}

impl Sink for Count {
    ghost use Rattle.spelling.specs.Counts.{left, Counts, count_laws};

    ghost room = { left };

    ghost takes = { Counts };

    fn put_word(&mut self, w: &[u8]) {
        self.bytes += w.len();
    }

    ghost laws = { count_laws };
}
