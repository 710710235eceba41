// An inner crate, for the writers of sheets: the fields of a line and the lines that they make, put into a text. What
// puts them also counts them, so that how long a text is follows from the same code.
#![tactic(auto)]

ghost use Rattle.std.specs.Prelude.{◌≡◌, ℕ, List, ◌++◌, ◌+◌, ◌*◌, ◌%◌, ◌≤◌, ◌<◌, length};
ghost use Rattle.rules.specs.Text.{numeral, signed_numeral, space, line_feed};
ghost use Rattle.rules.specs.Writing.{label_of, count_text, path_text, guard_text};
ghost use Rattle.sheet_laws.specs.Grid.{lowered};
ghost use Rattle.spelling.specs.Sinks.{IsSink};

mod count;
mod pen;

pub use count::Count;
pub use pen::Pen;

// The last digit of a number.
fn digit(v: usize) -> u8
    ensures { result ≡ 48 + v % 10 }
{
    b'0' + (v % 10) as u8
}

// Takes a text, piece after piece. A pen puts it into a slice of bytes, and a count only counts it.
pub trait Sink {
    // How many more bytes it takes.
    ghost room: { Self → ℕ };

    // It was the first, took the bytes, and is the second.
    ghost takes: { Self → List ℕ → Self → Type 0 };

    // Puts fixed bytes.
    fn put_word(&mut self, w: &[u8])
        requires { length w.now ≤ room self.old }
        ensures { takes self.old w.now self.new };

    ghost laws: { IsSink room takes };

    // Puts a number, in as many digits as it has.
    final fn put_number(&mut self, v: usize)
    where
        Self: Sized,
        requires { (v < 100000) × (length (numeral v) ≤ room self.old) }
        ensures { takes self.old (numeral v) self.new }
    {
        for power in [10000, 1000, 100, 10] {
            if power <= v {
                self.put_word(&[digit(v / power)]);
            }
        }
        self.put_word(&[digit(v)]);
    }

    // Puts a number that may lie below 0 and is counted from -100,000. Then it has a hyphen.
    #[tactic(auto, using(sheet_laws::specs::Grid::spelled_below, sheet_laws::specs::Grid::spelled_above))]
    final fn put_signed(&mut self, u: usize)
    where
        Self: Sized,
        requires { (0 < u) × (u < 200000) × (length (signed_numeral (lowered u)) ≤ room self.old) }
        ensures { takes self.old (signed_numeral (lowered u)) self.new }
    {
        if u < text::ZERO {
            self.put_word(b"-");
            self.put_number(text::ZERO - u);
        } else {
            self.put_number(u - text::ZERO);
        }
    }

    // Puts path k's label.
    final fn put_label(&mut self, labels: &[u8], k: usize)
    where
        Self: Sized,
        requires { (8 * k + 8 ≤ length labels.now) × (length (label_of labels.now k) ≤ room self.old) }
        ensures { takes self.old (label_of labels.now k) self.new }
    {
        self.put_word(labels::name(labels, k));
    }

    // Puts a line's last field: a space, a number and the line feed.
    final fn put_last(&mut self, v: usize)
    where
        Self: Sized,
        requires { (v < 100000) × (length (numeral v) + 2 ≤ room self.old) }
        ensures { takes self.old (space ++ (numeral v ++ line_feed)) self.new }
    {
        self.put_word(b" ");
        self.put_number(v);
        self.put_word(b"\n");
    }

    // Puts a section's word and its count.
    #[tactic(auto, using(sheet_laws::specs::Writes::count_length), unfolding(rules::specs::Writing::count_text))]
    final fn put_count_line(&mut self, w: &[u8], m: usize)
    where
        Self: Sized,
        requires { (m < 100000) × (length (count_text w.now m) ≤ room self.old) }
        ensures { takes self.old (count_text w.now m) self.new }
    {
        self.put_word(w);
        self.put_last(m);
    }

    // Puts path k's line: its label, and its number of a table.
    #[tactic(auto, using(sheet_laws::specs::Writes::path_length), unfolding(rules::specs::Writing::path_text))]
    final fn put_path_line(&mut self, labels: &[u8], table: &[u16], k: usize)
    where
        Self: Sized,
        requires { (8 * k + 8 ≤ length labels.now) × (k < length table.now)
            × (length (path_text labels.now table.now k) ≤ room self.old) }
        ensures { takes self.old (path_text labels.now table.now k) self.new }
    {
        self.put_label(labels, k);
        self.put_last(usize::from(table[k]));
    }

    // Puts the line of paths i and j, of which i is the earlier, where they have one.
    final fn put_guard_line(&mut self, labels: &[u8], guards: &[u8], i: usize, j: usize)
    where
        Self: Sized,
        requires { (i < j) × (j < 128) × (length labels.now ≡ 1024) × (length guards.now ≡ 16384)
            × (length (guard_text labels.now guards.now i j) ≤ room self.old) }
        ensures { takes self.old (guard_text labels.now guards.now i j) self.new }
    {
        let guard = guards[rules::PATHS * i + j];
        if guard != rules::NO_CONFLICT {
            self.put_label(labels, i);
            self.put_word(b" ");
            self.put_label(labels, j);
            self.put_last(usize::from(guard));
        }
    }
}
