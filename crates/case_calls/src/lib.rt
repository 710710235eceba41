// An inner crate of the test program `figures`: the call of a case made, and what it leaves printed. Only
// safety is proved.
#![tactic(auto)]

use cases::fields::Case;
use cases::show;
use rules::{Arranged, Fault, Floored, Packed, Planned, Pressed, Refusal, Sided, Why};
use std::io::Write;

// The calls. Of those that a line names, the first of this list is made.
const CALLS: [&[u8]; 9] = [
    b"judge",
    b"pack",
    b"press",
    b"why",
    b"better",
    b"two_sides",
    b"improve",
    b"plan",
    b"floor",
];

// What each call is lent: so many paths, their widths and their guards.
#[derive(Clone, Copy)]
pub struct Lent<'a> {
    pub n: usize,
    pub widths: &'a [u16],
    pub guards: &'a [u8],
}

fn judge<W: Write>(out: &mut W, lent: Lent, starts: &[u16]) {
    let r = Fault::from(packing::judge(lent.n, lent.widths, lent.guards, starts));
    show::answer(out, r.number, r.place);
    show::value(out, b" short", r.short);
}

fn pack<W: Write>(out: &mut W, lent: Lent, order: &[u8], starts: &mut [u16]) {
    let r = Packed::from(packing::pack(lent.n, lent.widths, lent.guards, order, starts));
    show::answer(out, r.number, r.place);
    show::value(out, b" highest", r.highest);
    show::table(out, b" starts", starts);
}

fn press<W: Write>(out: &mut W, lent: Lent, starts: &mut [u16]) {
    let r = Pressed::from(packing::press(lent.n, lent.widths, lent.guards, starts));
    show::answer(out, r.number, r.place);
    show::value(out, b" short", r.short);
    show::value(out, b" highest", r.highest);
    show::table(out, b" starts", starts);
}

fn why<W: Write>(out: &mut W, lent: Lent, starts: &[u16], path: usize, chain: &mut [u8]) {
    let r = Why::from(reason::why(lent.n, lent.widths, lent.guards, starts, path, chain));
    show::answer(out, r.number, r.place);
    show::value(out, b" short", r.short);
    show::value(out, b" length", r.length);
    show::value(out, b" down", r.down);
    show::table(out, b" chain", chain);
}

fn better<'a, W: Write>(out: &mut W, lent: Lent, order: &'a [u8], other: &'a [u8]) {
    let part = packing::better(lent.n, lent.widths, lent.guards, order, other);
    show::value(out, b" entries", part.len());
    show::table(out, b"", part);
}

fn two_sides<W: Write>(out: &mut W, lent: Lent, order: &mut [u8]) {
    let r = Sided::from(planning::two_sides(lent.n, lent.widths, lent.guards, order));
    show::answer(out, r.number, r.place);
    show::value(out, b" low", r.low);
    show::table(out, b" order", order);
}

fn floor<W: Write>(out: &mut W, lent: Lent, list: &[u8]) {
    let r = Floored::from(planning::floor(lent.n, lent.widths, lent.guards, list));
    show::answer(out, r.number, r.place);
    show::value(out, b" floor", r.floor);
}

// What planning or improving answers, and leaves in its tables.
fn arranged<W: Write>(
    out: &mut W,
    answer: Result<Arranged, Refusal>,
    order: &[u8],
    starts: &[u16],
) {
    let r = Planned::from(answer);
    show::answer(out, r.number, r.place);
    show::value(out, b" highest", r.highest);
    show::value(out, b" kept", r.kept);
    show::table(out, b" order", order);
    show::table(out, b" starts", starts);
}

// The call that a case names, on what it is lent.
pub fn call<W: Write>(
    out: &mut W,
    case: &Case,
    lent: Lent,
    order: &mut [u8],
    other: &[u8],
    starts: &mut [u16],
) {
    let path = case.number(b"path", b'=', 0);
    let seed = case.number(b"seed", b'=', 0) as u32;
    let rounds = case.number(b"rounds", b'=', 0);
    let Lent { n, widths, guards } = lent;
    match case.first_of(&CALLS) {
        Some(b"judge") => judge(out, lent, starts),
        Some(b"pack") => pack(out, lent, order, starts),
        Some(b"press") => press(out, lent, starts),
        Some(b"why") => why(out, lent, starts, path, order),
        Some(b"better") => better(out, lent, order, other),
        Some(b"two_sides") => two_sides(out, lent, order),
        Some(b"improve") => {
            let answer = planning::improve(n, widths, guards, order, starts, seed, rounds);
            arranged(out, answer, order, starts);
        }
        Some(b"plan") => {
            let answer = planning::plan(n, widths, guards, order, starts, seed, rounds);
            arranged(out, answer, order, starts);
        }
        Some(b"floor") => floor(out, lent, other),
        _ => {}
    }
}
