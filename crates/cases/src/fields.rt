// A case: the name of a line, its call and its fields. Each function is total: what does not stand in the line, or does
// not fit, counts as the usual value.
ghost use Rattle.std.specs.Prelude.{◌≡◌, ◌≤◌, ◌<◌, length};

// A line that is a case, and the name that it begins with.
#[derive(Clone, Copy)]
pub struct Case<'a> {
    pub name: &'a [u8],
    line: &'a [u8],
}

// The number behind a mark, and what stands after it, from the next mark on. Where there is none, it counts as 0, and
// nothing stands after it.
fn entry(marked: &[u8]) -> (usize, &[u8])
    ensures { result.0 < 100000 }
{
    marked.get(1..).and_then(text::number).unwrap_or((0, &[]))
}

// The next entry of a list with its mark, if the list goes on.
fn next(rest: &[u8]) -> Option<&[u8]> {
    rest.starts_with(b",").then_some(rest)
}

// A value in one byte.
fn saturated(v: usize) -> u8 {
    u8::try_from(v).unwrap_or(u8::MAX)
}

// Puts a value into a cell, if the table has it.
fn put(table: &mut [u8], k: usize, value: u8) {
    if let Some(cell) = table.get_mut(k) {
        *cell = value;
    }
}

// Puts an entry of a list of guards: a pair, i-j=v; or that and all such pairs of n paths after it, i-j*v; or one cell,
// i=v. Answers the next entry.
fn put_guards<'a>(guards: &mut [u8], n: usize, marked: &'a [u8]) -> Option<&'a [u8]>
    requires { n < 100000 }
{
    let (i, behind_i) = entry(marked);
    let (j, behind_j) = entry(behind_i);
    if behind_i.starts_with(b"=") {
        put(guards, i, saturated(j));
        return next(behind_j);
    }
    let (v, behind_v) = entry(behind_j);
    let highest = i.max(j);
    let pairs = if behind_j.starts_with(b"*") {
        n.saturating_sub(highest)
    } else {
        usize::from(highest < rules::PATHS)
    };
    for k in 0..pairs {
        put(guards, rules::PATHS * (i + k) + (j + k), saturated(v));
        put(guards, rules::PATHS * (j + k) + (i + k), saturated(v));
    }
    next(behind_v)
}

impl<'a> Case<'a> {
    // The case of a line. A line that is empty, or begins with a byte before the letters, has none.
    pub fn from_line(line: &'a [u8]) -> Option<Case<'a>> {
        if *line.first()? < b'A' {
            return None;
        }
        let name = line.split(|b| *b == b' ').next()?;
        Some(Case { name, line })
    }

    // What stands behind a space and a key, from its mark on, at the first place where all three stand.
    fn field(&self, key: &[u8], mark: u8) -> Option<&'a [u8]> {
        (0..self.line.len()).find_map(|place| {
            let marked = self.line[place..].strip_prefix(b" ")?.strip_prefix(key)?;
            marked.starts_with(&[mark]).then_some(marked)
        })
    }

    // The first of some words that stands in the line between spaces.
    pub fn first_of(&self, words: &[&'static [u8]]) -> Option<&'static [u8]> {
        words
            .iter()
            .find(|word| self.field(word, b' ').is_some())
            .copied()
    }

    // The number behind a key and a mark.
    pub fn number(&self, key: &[u8], mark: u8, usual: usize) -> usize
        requires { usual < 100000 }
        ensures { result < 100000 }
    {
        self.field(key, mark)
            .map_or(usual, |marked| entry(marked).0)
    }

    // A table of which so many cells are lent: one value in every cell, and over it a list.
    pub fn table<'t, T: Copy + TryFrom<usize, Error: Drop>>(
        &self,
        key: &[u8],
        most: T,
        table: &'t mut [T],
    ) -> &'t mut [T]
        ensures { length result.now ≤ length table.old }
    {
        let usual = self.number(key, b'=', 0);
        let mut list = self.field(key, b':');
        for cell in table.iter_mut() {
            let (value, rest): (usize, &[u8]) = match list {
                Some(marked) => entry(marked),
                None => (usual, &[]),
            };
            *cell = T::try_from(value).unwrap_or(most);
            list = next(rest);
        }
        let lent = self.number(key, b'/', rules::PATHS).min(table.len());
        &mut table[..lent]
    }

    // The same of the guards of n paths.
    pub fn guards<'t>(&self, n: usize, guards: &'t mut [u8]) -> &'t mut [u8]
        requires { n < 100000 }
        ensures { length result.now ≤ length guards.old }
    {
        guards.fill(saturated(self.number(b"guards", b'=', 255)));
        let mut list = self.field(b"guards", b':');
        // An entry takes a byte of the line at least, so the turns are enough.
        for _ in 0..self.line.len() {
            let Some(marked) = list else { break };
            list = put_guards(guards, n, marked);
        }
        let lent = self.number(b"guards", b'/', rules::CELLS).min(guards.len());
        &mut guards[..lent]
    }
}
