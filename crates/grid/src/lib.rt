// The grid of ITU-T G.694.1 (RULES 27): n of a block, the start that n gives, and the two public calls `centre` and
// `centre_number`. Signed numbers stand in these calls alone: behind them a number is counted from -100,000, as `text`
// reads it and as the laws on the rules' texts (`sheet_laws`) count it.
#![tactic(auto)]

ghost use Rattle.std.specs.Prelude.{◌≡◌, ◌≤◌, ◌<◌, pos, IfSome, unwrap_or};
ghost use Rattle.rules.specs.Grid.{grid_number, grid_start, quarters};
ghost use Rattle.rules.specs.Numbers.{anchor_fault, centre_fault};
ghost use Rattle.rules.specs.Calls.{centring, centre_number};
ghost use Rattle.rules.specs.Told.{told};
ghost use Rattle.sheet_laws.specs.Grid.{lowered};
ghost use Rattle.grid.specs.Block.{block_fault};

use rules::{Cause, Refusal};

const ANCHOR_LEAST: i32 = -1024;

const WIDTH_MOST: usize = rules::WIDTH_MOST as usize;

const START_MOST: usize = rules::START_MOST as usize;

// A step of the grid is 25 quarters of a GHz, and 193.1 THz are 772,400 of them, from which n is counted.
const STEP: usize = 25;

const BELOW: usize = 1727600;

// 17: an anchor outside -1,024 to 1,024.
pub fn check_anchor(anchor: i32) -> Result<(), Refusal>
    ensures { told result ≡ anchor_fault anchor }
{
    tables::refuse_if(
        !(ANCHOR_LEAST..=rules::ANCHOR_MOST).contains(&anchor),
        Cause::Anchor,
    )
}

// An anchor that is not refused, counted from -100,000.
pub fn counted(anchor: i32) -> usize
    requires { (anchor_fault anchor).number ≡ 0 }
    ensures { (anchor ≡ lowered result) × (98976 ≤ result) × (result ≤ 101024) }
{
    (anchor + 100000) as usize
}

// The number that is counted as u.
pub fn uncounted(u: usize) -> i32
    requires { u < 200000 }
    ensures { result ≡ lowered u }
{
    u as i32 - 100000
}

// n of a block.
pub fn number(anchor: usize, start: usize, width: usize) -> usize
    requires { (98976 ≤ anchor) × (anchor ≤ 101024) × (1 ≤ start) × (start ≤ 16384) × (width ≤ 64) }
    ensures { (grid_number (lowered anchor) start width ≡ lowered result) × (98976 ≤ result) × (result ≤ 133854) }
{
    anchor + (2 * (start - 1) + width)
}

// The start that n gives a block of a width, where it gives one: a whole one of 1 to 16,384.
pub fn start_of(anchor: usize, width: usize, n: usize) -> Option<usize>
    requires { (anchor ≤ 101024) × (width ≤ 65535) × (n < 200000) }
    ensures value { unwrap_or result 0 ≡ grid_start (lowered anchor) width (lowered n) }
    ensures within { IfSome result (λ start. (1 ≤ start) × (start ≤ 16384)) }
{
    let steps = n.checked_sub(anchor + width)?;
    let slots = steps / 2;
    (steps % 2 == 0 && slots < START_MOST).then_some(slots + 1)
}

// 3 of a width, then 7 of a start.
fn check_block(start: usize, width: usize) -> Result<(), Refusal>
    ensures { told result ≡ block_fault start width }
{
    tables::refuse_if(!(1..=WIDTH_MOST).contains(&width), Cause::Width)?;
    tables::refuse_if(!(1..=START_MOST).contains(&start), Cause::Start)
}

// 17, 3, 7: what both calls of the centre test.
fn check_centre(anchor: i32, start: usize, width: usize) -> Result<(), Refusal>
    ensures { told result ≡ centre_fault anchor start width }
{
    check_anchor(anchor)?;
    check_block(start, width)
}

// The number of a call of `centre`: 17, 3, 7 or 0.
pub fn centre_number(anchor: i32, start: usize, width: usize) -> usize
    ensures { result ≡ centre_number anchor start width }
{
    match check_centre(anchor, start, width) {
        Ok(()) => 0,
        Err(refusal) => refusal.cause.number(),
    }
}

// The centre that n names, in quarters of a GHz.
fn in_quarters(n: usize) -> u32
    requires { (98976 ≤ n) × (n ≤ 133854) }
    ensures { (quarters (lowered n) ≡ pos result) × (0 < result) × (result < 2000000) }
{
    (STEP * n - BELOW) as u32
}

// The centre of a block in GHz, exact: a quarter of a whole number below 2,000,000 is a double. Refused, 0.0.
pub fn centre(anchor: i32, start: usize, width: usize) -> f64
    ensures { result ≡ centring anchor start width }
{
    match check_centre(anchor, start, width) {
        Ok(()) => f64::from(in_quarters(number(counted(anchor), start, width))) * 0.25,
        Err(_) => 0.0,
    }
}
