// An inner crate of the ask program: a reason (RULES 25) told in lines (RULES 26), put into a text. It says where a
// path stands, each link of the chain below it, and where the chain ends.
#![tactic(auto)]

ghost use Rattle.std.specs.Prelude.{◌≡◌, [], ℕ, ◌+◌, ◌-◌, ◌*◌, ◌≤◌, ◌<◌, length};
ghost use Rattle.rules.specs.Tables.{at, lend};
ghost use Rattle.rules.specs.Plan.{net_of};
ghost use Rattle.rules.specs.Writing.{join_from};
ghost use Rattle.rules.specs.Asking.{stands_text, link_text, end_text, reason_text};
ghost use Rattle.spelling.specs.Says.{Wrote};
ghost use Rattle.reason_lines.specs.Told.{Told, Chained, held_text, free_text};

use spelling::{Pen, Sink};

// Puts where path k stands. No guard is asked for that.
#[tactic(auto, using(sheet_laws::specs::Writes::label_short))]
fn put_stands<S: Sink>(sink: &mut S, labels: &[u8], widths: &[u16], starts: &[u16], k: usize)
    requires { Told labels.now widths.now starts.now k × (33 ≤ S.room sink.old) }
    ensures wrote { S.takes sink.old
        (stands_text labels.now (net_of (lend widths.now [])) (at starts.now) k) sink.new }
    ensures upper_bound { S.room sink.old ≤ S.room sink.new + 33 }
{
    let s = usize::from(starts[k]);
    let e = s + usize::from(widths[k]) - 1;
    sink.put_label(labels, k);
    phrases::put_block(sink, s, e);
}

// Puts a link of a chain (RULES 25): path j, which holds path k up, and the guard of the two.
fn put_link<S: Sink>(
    sink: &mut S,
    labels: &[u8],
    widths: &[u16],
    guards: &[u8],
    starts: &[u16],
    k: usize,
    j: usize,
)
    requires { Told labels.now widths.now starts.now j × (k < 128) × (length guards.now ≡ 16384)
        × (68 ≤ S.room sink.old) }
    ensures wrote { S.takes sink.old
        (link_text labels.now (net_of (lend widths.now guards.now)) (at starts.now) k j) sink.new }
    ensures upper_bound { S.room sink.old ≤ S.room sink.new + 68 }
{
    let guard = usize::from(guards[rules::PATHS * j + k]);
    sink.put_word(b"Below it ");
    put_stands(sink, labels, widths, starts, j);
    phrases::put_part(sink, b", and the guard is ", guard);
    sink.put_word(b".\n");
}

// Puts the links of a chain: each path but the first holds up the one before it.
fn put_links<S: Sink>(
    sink: &mut S,
    labels: &[u8],
    widths: &[u16],
    guards: &[u8],
    starts: &[u16],
    chain: &[u8],
)
    requires { Chained labels.now widths.now guards.now starts.now chain.now
        × (68 * (length chain.now - 1) ≤ S.room sink.old) }
    ensures wrote { S.takes sink.old
        (join_from (length chain.now - 1) 0 (λ i. link_text labels.now
        (net_of (lend widths.now guards.now)) (at starts.now)
        (at chain.now i) (at chain.now (i + 1)))) sink.new }
    ensures upper_bound { S.room sink.old ≤ S.room sink.new + 68 * (length chain.now - 1) }
{
    for i in 0..chain.len() - 1 {
        let k = usize::from(chain[i]);
        let j = usize::from(chain[i + 1]);
        put_link(sink, labels, widths, guards, starts, k, j);
    }
}

// Puts the end of a chain whose last path is in slot 1: path k, its first, cannot come down in this order.
fn put_held<S: Sink>(sink: &mut S, labels: &[u8], k: usize)
    requires { (8 * k + 8 ≤ length labels.now) × (59 ≤ S.room sink.old) }
    ensures wrote { S.takes sink.old (held_text labels.now k) sink.new }
    ensures upper_bound { S.room sink.old ≤ S.room sink.new + 59 }
{
    sink.put_word(b" is in slot 1, so ");
    phrases::put_named(sink, labels, k, b" cannot come down in this order.\n");
}

// Puts the end of a chain whose last path can come down.
fn put_free<S: Sink>(sink: &mut S, d: usize)
    requires { (d < 100000) × (28 ≤ S.room sink.old) }
    ensures wrote { S.takes sink.old (free_text d) sink.new }
    ensures upper_bound { S.room sink.old ≤ S.room sink.new + 28 }
{
    sink.put_word(b" can come down ");
    phrases::put_slots(sink, d);
    sink.put_word(b".\n");
}

// Puts where a chain ends: its last path can come down by d slots, or stands in slot 1. A chain of one path names
// it once.
#[tactic(auto, using(sheet_laws::specs::Writes::label_short))]
fn put_end<S: Sink>(sink: &mut S, labels: &[u8], chain: &[u8], d: usize)
    requires { (length labels.now ≡ 1024) × (1 ≤ length chain.now)
        × ((i : ℕ) → i < length chain.now → at chain.now i < 128) × (d < 100000)
        × (67 ≤ S.room sink.old) }
    ensures wrote { S.takes sink.old (end_text labels.now chain.now d) sink.new }
    ensures upper_bound { S.room sink.old ≤ S.room sink.new + 67 }
{
    sink.put_label(labels, usize::from(chain[chain.len() - 1]));
    if d != 0 {
        put_free(sink, d);
    } else if chain.len() == 1 {
        sink.put_word(b" is in slot 1 and cannot come down.\n");
    } else {
        put_held(sink, labels, usize::from(chain[0]));
    }
}

// Puts a whole reason (RULES 25): where the first path of the chain stands, each link, and the end.
fn put_chain<S: Sink>(
    sink: &mut S,
    labels: &[u8],
    widths: &[u16],
    guards: &[u8],
    starts: &[u16],
    chain: &[u8],
    d: usize,
)
    requires { Chained labels.now widths.now guards.now starts.now chain.now × (d < 100000)
        × (9000 ≤ S.room sink.old) }
    ensures wrote { S.takes sink.old
        (reason_text labels.now (net_of (lend widths.now guards.now))
        (at starts.now) chain.now d) sink.new }
    ensures upper_bound { S.room sink.old ≤ S.room sink.new + 9000 }
{
    put_stands(sink, labels, widths, starts, usize::from(chain[0]));
    sink.put_word(b".\n");
    put_links(sink, labels, widths, guards, starts, chain);
    put_end(sink, labels, chain, d);
}

// The text of a whole reason.
pub fn put_reason(
    text: &mut [u8],
    labels: &[u8],
    widths: &[u16],
    guards: &[u8],
    starts: &[u16],
    chain: &[u8],
    d: usize,
) -> usize
    requires { Chained labels.now widths.now guards.now starts.now chain.now × (d < 100000)
        × (9000 ≤ length text.old) }
    ensures wrote { Wrote text.old 0
        (reason_text labels.now (net_of (lend widths.now guards.now))
        (at starts.now) chain.now d) result text.new }
    ensures upper_bound { result ≤ 9000 }
{
    let mut pen = Pen::new(text);
    put_chain(&mut pen, labels, widths, guards, starts, chain, d);
    pen.place()
}
