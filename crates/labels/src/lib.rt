// An inner crate, for the readers and writers of sheets: the table of labels, eight bytes a path, and the keys that
// labels are compared by.
#![tactic(auto)]

ghost use Rattle.std.specs.Prelude.{◌≡◌, ◌+◌, ◌*◌, ◌≤◌, ◌<◌, List, ℕ, take, drop, length, unwrap_or};
ghost use Rattle.rules.specs.Sheet.{is_row, find, bytes_from, put_row};
ghost use Rattle.rules.specs.Writing.{label_of, bad_label, label_twice};
ghost use Rattle.table_laws.specs.Firsts.{FirstIs};
ghost use Rattle.labels.specs.Keys.{Bytes, key_of};

// So many rows are compared with a key before it is asked whether one of them has it, with no branch on a row, so that
// the compiler makes vector code of it.
const AT_ONCE: usize = 8;

// Path k's row.
fn row(labels: &[u8], k: usize) -> &[u8; rules::LABEL]
    requires { 8 * k + 8 ≤ length labels.now }
    ensures { result.now ≡ take 8 (drop (8 * k) labels.now) }
{
    &labels.as_chunks::<{ rules::LABEL }>().0[k]
}

// The eight bytes of a row that holds a label: zeros after it.
fn filled(name: &[u8]) -> [u8; rules::LABEL]
    ensures { result ≡ bytes_from 8 0 name.now }
{
    let mut bytes = [0; rules::LABEL];
    let m = name.len().min(rules::LABEL);
    bytes[..m].copy_from_slice(&name[..m]);
    bytes
}

// Eight bytes as one number: one test then compares all of them.
#[tactic(auto, unfolding(crate::specs::Keys::key_of))]
fn key(name: &[u8]) -> u64
    ensures { result ≡ key_of name.now }
{
    u64::from_le_bytes(filled(name))
}

// Whether path k's label is the one that has a key.
fn has_key(labels: &[u8], k: usize, key: u64) -> bool
    requires { 8 * k + 8 ≤ length labels.now }
    ensures { (w : List ℕ) → Bytes w → key ≡ key_of w → result ≡ is_row labels.now w k }
{
    u64::from_le_bytes(*row(labels, k)) == key
}

// Whether path k's label is a name.
pub fn is_row(labels: &[u8], k: usize, name: &[u8]) -> bool
    requires { 8 * k + 8 ≤ length labels.now }
    ensures { result ≡ is_row labels.now name.now k }
{
    has_key(labels, k, key(name))
}

// The path among the first n whose label is a name. The last eight rows may reach past the n-th, and what is past it is
// no path's.
pub fn find(labels: &[u8], n: usize, name: &[u8]) -> Option<usize>
    requires { (n ≤ 128) × (length labels.now ≡ 1024) }
    ensures first { FirstIs (is_row labels.now name.now) n result }
    ensures value { unwrap_or result n ≡ find labels.now n name.now }
{
    let key = key(name);
    for b in 0..n.div_ceil(AT_ONCE) {
        let mut is_here = false;
        for k in AT_ONCE * b..AT_ONCE * b + AT_ONCE {
            is_here |= has_key(labels, k, key);
        }
        if is_here {
            return (AT_ONCE * b..n).find(|&k| has_key(labels, k, key));
        }
    }
    None
}

// Puts a name down as path k's label.
pub fn put_row(labels: &mut [u8], k: usize, name: &[u8])
    requires { 8 * k + 8 ≤ length labels.old }
    ensures { labels.new ≡ put_row labels.old k name.now }
{
    let start = rules::LABEL * k;
    labels[start..start + rules::LABEL].copy_from_slice(&filled(name));
}

// Path k's label.
#[tactic(auto, unfolding(rules::specs::Writing::label_of))]
pub fn name(labels: &[u8], k: usize) -> &[u8]
    requires { 8 * k + 8 ≤ length labels.now }
    ensures { result.now ≡ label_of labels.now k }
{
    text::label_bytes(row(labels, k)).0
}

// How many bytes path k's label has.
pub fn label_length(labels: &[u8], k: usize) -> usize
    requires { 8 * k + 8 ≤ length labels.now }
    ensures { result ≡ length (label_of labels.now k) }
{
    name(labels, k).len()
}

// 11, in the writer: path k's row is no label with zeros after it.
#[tactic(auto, unfolding(rules::specs::Writing::bad_label))]
pub fn bad_label(labels: &[u8], k: usize) -> bool
    requires { 8 * k + 8 ≤ length labels.now }
    ensures { result ≡ bad_label labels.now k }
{
    let name = name(labels, k);
    name.is_empty() || !is_row(labels, k, name)
}

// 12, in the writer: path k's label is an earlier path's.
#[tactic(auto, using(table_laws::specs::Searches::found_of), unfolding(rules::specs::Writing::label_twice))]
pub fn label_twice(labels: &[u8], k: usize) -> bool
    requires { (k < 128) × (length labels.now ≡ 1024) }
    ensures { result ≡ label_twice labels.now k }
{
    find(labels, k, name(labels, k)).is_some()
}
