// An inner crate, for the readers of sheets: the fields of a line, and the lines that they make. A field is taken off
// the front of a text, and what is found comes with the text after it.
#![tactic(auto)]

ghost use Rattle.std.specs.Prelude.{◌≡◌, ℕ, Bool, ◌≤◌, ◌<◌, true, length, drop, slice_index, EachIndex, IfSome};
ghost use Rattle.rules.specs.Text.{word, run, is_digit, is_label_byte, label, number, signed, value_from};
ghost use Rattle.rules.specs.Sheet.{last_field, count_line, path_line};
ghost use Rattle.text.specs.Says.{parsed, parsed_word, parsed_label, parsed_path, parsed_signed};

// The section words: the reader compares these byte by byte, and the writer writes them.
pub const PATHS_WORD: &[u8] = b"paths";

pub const GUARDS_WORD: &[u8] = b"guards";

pub const STARTS_WORD: &[u8] = b"starts";

pub const ORDER_WORD: &[u8] = b"order";

// A number that may lie below 0 is counted from -100,000, below which no line can spell one. 0 is counted as this.
pub const ZERO: usize = 100000;

// A number has at most so many digits.
const DIGITS: usize = 5;

// A path's line: its label and its number.
#[derive(Clone, Copy)]
pub struct PathLine<'a> {
    pub label: &'a [u8],
    pub number: usize,
}

// A byte of a number.
#[tactic(auto, unfolding(rules::specs::Text::is_digit))]
pub fn is_digit(b: u8) -> bool
    ensures { result ≡ is_digit b }
{
    b.is_ascii_digit()
}

// A byte of a label: a digit, a capital or the hyphen.
#[tactic(auto, unfolding(rules::specs::Text::is_label_byte, rules::specs::Text::is_digit))]
pub fn is_label_byte(b: u8) -> bool
    ensures { result ≡ is_label_byte b }
{
    b.is_ascii_digit() || b.is_ascii_uppercase() || b == b'-'
}

// The longest front part of bytes that pass a test, and the text after it.
fn run<F: Fn(u8) -> bool + Drop>(text: &[u8], test: F) -> (&[u8], &[u8])
    requires { F.IsAlwaysCallable test }
    ensures { (p : ℕ → Bool) → ((x : ℕ) (b : Bool) → F.post test x b → b ≡ p x)
        → (result.0.now ≡ run p text.now) × (result.1.now ≡ drop (length (run p text.now)) text.now) }
{
    let end = text.iter().take_while(|b| test(**b)).count();
    text.split_at(end)
}

// The label bytes that stand in front, however many, and the text after them.
pub fn label_bytes(text: &[u8]) -> (&[u8], &[u8])
    ensures front { result.0.now ≡ run is_label_byte text.now }
    ensures rest { result.1.now ≡ drop (length (run is_label_byte text.now)) text.now }
{
    run(text, is_label_byte)
}

// The number that up to five digits spell.
#[tactic(auto, using(crate::proofs::Fields::digit_by_digit))]
fn value(digits: &[u8]) -> usize
    requires digits { EachIndex digits.now (λ k. is_digit (slice_index digits.now k) ≡ true) }
    requires few { length digits.now ≤ 5 }
    ensures value { result ≡ value_from 0 digits.now }
    ensures below { result < 100000 }
{
    let mut value = 0;
    for digit in digits {
        value = 10 * value + usize::from(*digit - b'0');
    }
    value
}

// A number: one to five digits, of which the first is not 0 unless it stands alone.
#[tactic(auto, unfolding(rules::specs::Text::number, rules::specs::Text::is_plain))]
pub fn number(text: &[u8]) -> Option<(usize, &[u8])>
    ensures value { parsed result ≡ number text.now }
    ensures below { IfSome result (λ r. r.0 < 100000) }
{
    let (digits, rest) = run(text, is_digit);
    if !(1..=DIGITS).contains(&digits.len()) {
        return None;
    }
    if digits[0] == b'0' && 1 < digits.len() {
        return None;
    }
    Some((value(digits), rest))
}

// A label: one to eight bytes.
#[tactic(auto, unfolding(rules::specs::Text::label))]
pub fn label(text: &[u8]) -> Option<(&[u8], &[u8])>
    ensures value { parsed_label result ≡ label text.now }
    ensures few { IfSome result (λ r. (0 < length r.0.now) × (length r.0.now ≤ 8)) }
{
    let (label, rest) = label_bytes(text);
    if !(1..=rules::LABEL).contains(&label.len()) {
        return None;
    }
    Some((label, rest))
}

// Fixed bytes.
pub fn word<'a>(text: &'a [u8], w: &[u8]) -> Option<&'a [u8]>
    ensures { parsed_word result ≡ word w.now text.now }
{
    text.strip_prefix(w)
}

// A number that may lie below 0, counted from -100,000. What stands after a hyphen is not 0.
#[tactic(auto, using(crate::proofs::Fields::with_hyphen))]
pub fn signed(text: &[u8]) -> Option<(usize, &[u8])>
    ensures value { parsed_signed result ≡ signed text.now }
    ensures below { IfSome result (λ r. r.0 < 200000) }
{
    let Some(after) = word(text, b"-") else {
        let (v, rest) = number(text)?;
        return Some((ZERO + v, rest));
    };
    let (v, rest) = number(after)?;
    if v == 0 {
        return None;
    }
    Some((ZERO - v, rest))
}

// A line's last field: a space, a number and the line feed.
#[tactic(auto, unfolding(rules::specs::Sheet::last_field, rules::specs::Text::then))]
pub fn last_field(text: &[u8]) -> Option<(usize, &[u8])>
    ensures value { parsed result ≡ last_field text.now }
    ensures below { IfSome result (λ r. r.0 < 100000) }
{
    let field = word(text, b" ")?;
    let (v, end) = number(field)?;
    Some((v, word(end, b"\n")?))
}

// A section's word and its count. It is inlined, since a caller would else keep room on its stack for each answer.
#[inline(always)]
#[tactic(auto, unfolding(rules::specs::Sheet::count_line, rules::specs::Text::then))]
pub fn count_line<'a>(text: &'a [u8], w: &[u8]) -> Option<(usize, &'a [u8])>
    ensures value { parsed result ≡ count_line w.now text.now }
    ensures below { IfSome result (λ r. r.0 < 100000) }
{
    last_field(word(text, w)?)
}

// A label and a number.
#[tactic(auto, unfolding(rules::specs::Sheet::path_line, rules::specs::Text::then))]
pub fn path_line(text: &[u8]) -> Option<(PathLine<'_>, &[u8])>
    ensures { parsed_path result ≡ path_line text.now }
{
    let (label, field) = label(text)?;
    let (number, rest) = last_field(field)?;
    Some((PathLine { label, number }, rest))
}
