// An inner crate of the ask program (RULES 26): what its arguments ask for, the path that a label names, and the
// highest slot of a plan.
#![tactic(auto)]

ghost use Rattle.std.specs.Prelude.{◌≡◌, true, false, List, ℕ, ◌≤◌, length};
ghost use Rattle.rules.specs.Tables.{at};
ghost use Rattle.rules.specs.Plan.{net_of, highest};
ghost use Rattle.rules.specs.Text.{label, word};
ghost use Rattle.rules.specs.Sheet.{find};
ghost use Rattle.rules.specs.Asking.{is_whole, asked};
ghost use Rattle.network.specs.Lent.{lent};
ghost use Rattle.questions.specs.Asks.{AsksOrder, Asks};

use network::Plan;

// What is asked of a sheet: why a path stands where it stands, whether the plan is valid, or its order sheet from an
// anchor, which is counted from -100,000.
#[derive(Clone, Copy)]
pub enum Topic {
    Reason,
    Verdict,
    Order(usize),
}

// What the arguments ask for: something of a sheet. The others are answered without one: no label or anchor is given,
// what is given is none, or the words are others.
#[derive(Clone, Copy)]
pub enum Question {
    Sheet(Topic),
    NoLabel,
    BadLabel,
    NoAnchor,
    BadAnchor,
    NoWord,
}

// Whether an argument is a word, byte for byte and whole: a longer one that begins so is another word.
fn is_word(arg: &[u8], w: &[u8]) -> bool
    ensures { result ≡ is_whole (word w.now arg.now) }
{
    arg == w
}

// Whether an argument is a label, whole.
#[tactic(auto, unfolding(rules::specs::Asking::is_whole))]
fn is_label(arg: &[u8]) -> bool
    ensures value { result ≡ is_whole (label arg.now) }
    ensures arg_len_bound { result ≡ true → length arg.now ≤ 8 }
{
    text::label(arg).is_some_and(|(_, rest)| rest.is_empty())
}

// What an anchor asks for: all of an argument is one, and it is within its range.
#[tactic(auto, unfolding(rules::specs::Asking::order_asked))]
fn anchor_asked(second: &[u8]) -> Question
    ensures { AsksOrder second.now result }
{
    let Some((anchor, rest)) = text::signed(second) else {
        return Question::BadAnchor;
    };
    if !rest.is_empty() || grid::check_anchor(grid::uncounted(anchor)).is_err() {
        return Question::BadAnchor;
    }
    Question::Sheet(Topic::Order(anchor))
}

// What so many arguments ask for, of which the first two are given.
#[tactic(auto, unfolding(rules::specs::Asking::asked, rules::specs::Asking::with_one))]
pub fn asked_for(count: usize, first: &[u8], second: &[u8]) -> Question
    ensures { Asks count first.now second.now result }
{
    if is_word(first, b"why") {
        return match count {
            1 => Question::NoLabel,
            2 if is_label(second) => Question::Sheet(Topic::Reason),
            2 => Question::BadLabel,
            _ => Question::NoWord,
        };
    }
    if is_word(first, text::ORDER_WORD) {
        return match count {
            1 => Question::NoAnchor,
            2 => anchor_asked(second),
            _ => Question::NoWord,
        };
    }
    if is_word(first, b"judge") && count == 1 {
        return Question::Sheet(Topic::Verdict);
    }
    Question::NoWord
}

// Whether a sheet is asked for. Where none is, the answer is the same whatever the input is, so it is not read.
pub fn needs_input(count: usize, first: &[u8], second: &[u8]) -> bool
    ensures { result ≡ false → (input other : List ℕ)
        → asked count first.now second.now input
        ≡ asked count first.now second.now other }
{
    matches!(asked_for(count, first, second), Question::Sheet(_))
}

// The path that is called by a name, n where none is. Labels are compared as bytes, so 0417 is not 417.
pub fn path_called(n: usize, labels: &[u8], name: &[u8]) -> usize
    requires { (n ≤ 128) × (length labels.now ≡ 1024) }
    ensures { result ≡ find labels.now n name.now }
{
    labels::find(labels, n, name).unwrap_or(n)
}

// The highest slot of a plan.
pub fn highest_slot(plan: &Plan) -> usize
    ensures { (result ≡ highest (net_of (lent plan.now.net)) (at plan.now.starts.now) plan.now.net.n)
        × (result ≤ 16448) }
{
    let ends = (0..plan.net.n).map(|k| plan.start(k) + plan.net.width(k) - 1);
    ends.max().map_or(0, usize::from)
}
