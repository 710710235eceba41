// The library's C face: each call under its exported name, with the promise of the call itself. In C a
// slice is a pointer and then a length, and a Result is a struct that begins with the number of the refusal.
#![tactic(auto)]

ghost use Rattle.std.specs.Prelude.{◌≡◌};
ghost use Rattle.rules.specs.Tables.{lend};
ghost use Rattle.rules.specs.Calls.{left, judging, packing, pressing, explaining, siding, improving, planning, flooring, reading, writing, centring, centre_number, order_writing, order_reading};
ghost use Rattle.rules.specs.Better.{comparing};

use rules::{
    Fault, Floored, OrderRead, Packed, Planned, Pressed, SheetRead, SheetWritten, Sided, Why,
};

#[unsafe(no_mangle)]
pub extern "C" fn nesbrunka_judge(n: usize, widths: &[u16], guards: &[u8], starts: &[u16]) -> Fault
    ensures { result ≡ judging n (lend widths.now guards.now)
        starts.now }
{
    packing::judge(n, widths, guards, starts).into()
}

#[unsafe(no_mangle)]
pub extern "C" fn nesbrunka_pack(
    n: usize,
    widths: &[u16],
    guards: &[u8],
    order: &[u8],
    starts: &mut [u16],
) -> Packed
    ensures { left result starts.new
        ≡ packing n (lend widths.now guards.now) order.now
        starts.old }
{
    packing::pack(n, widths, guards, order, starts).into()
}

#[unsafe(no_mangle)]
pub extern "C" fn nesbrunka_press(
    n: usize,
    widths: &[u16],
    guards: &[u8],
    starts: &mut [u16],
) -> Pressed
    ensures { left result starts.new
        ≡ pressing n (lend widths.now guards.now) starts.old }
{
    packing::press(n, widths, guards, starts).into()
}

#[unsafe(no_mangle)]
pub extern "C" fn nesbrunka_why(
    n: usize,
    widths: &[u16],
    guards: &[u8],
    starts: &[u16],
    path: usize,
    chain: &mut [u8],
) -> Why
    ensures { left result chain.new
        ≡ explaining n (lend widths.now guards.now) starts.now path
        chain.old }
{
    reason::why(n, widths, guards, starts, path, chain).into()
}

// An exported function cannot return a reference: 1 for the first order, 2 for the second, 0 for neither.
#[unsafe(no_mangle)]
pub extern "C" fn nesbrunka_better(
    n: usize,
    widths: &[u16],
    guards: &[u8],
    first: &[u8],
    second: &[u8],
) -> usize
    ensures { result ≡ comparing n (lend widths.now guards.now)
        first.now second.now }
{
    packing::winner_number(packing::compare(n, widths, guards, first, second))
}

#[unsafe(no_mangle)]
pub extern "C" fn nesbrunka_two_sides(
    n: usize,
    widths: &[u16],
    guards: &[u8],
    order: &mut [u8],
) -> Sided
    ensures { left result order.new
        ≡ siding n (lend widths.now guards.now) order.old }
{
    planning::two_sides(n, widths, guards, order).into()
}

#[unsafe(no_mangle)]
pub extern "C" fn nesbrunka_plan(
    n: usize,
    widths: &[u16],
    guards: &[u8],
    order: &mut [u8],
    starts: &mut [u16],
    seed: u32,
    rounds: usize,
) -> Planned
    ensures { left result (order.new, starts.new)
        ≡ planning n (lend widths.now guards.now) order.old
        starts.old seed rounds }
{
    planning::plan(n, widths, guards, order, starts, seed, rounds).into()
}

#[unsafe(no_mangle)]
pub extern "C" fn nesbrunka_improve(
    n: usize,
    widths: &[u16],
    guards: &[u8],
    order: &mut [u8],
    starts: &mut [u16],
    seed: u32,
    rounds: usize,
) -> Planned
    ensures { left result (order.new, starts.new)
        ≡ improving n (lend widths.now guards.now) order.old
        starts.old seed rounds }
{
    planning::improve(n, widths, guards, order, starts, seed, rounds).into()
}

#[unsafe(no_mangle)]
pub extern "C" fn nesbrunka_floor(n: usize, widths: &[u16], guards: &[u8], list: &[u8]) -> Floored
    ensures { result ≡ flooring n (lend widths.now guards.now) list.now }
{
    planning::floor(n, widths, guards, list).into()
}

#[unsafe(no_mangle)]
pub extern "C" fn nesbrunka_read(
    text: &[u8],
    labels: &mut [u8],
    widths: &mut [u16],
    guards: &mut [u8],
    starts: &mut [u16],
) -> SheetRead
    ensures { left result
        (labels.new, lend widths.new guards.new, starts.new)
        ≡ reading text.now labels.old
        (lend widths.old guards.old) starts.old }
{
    sheet::read(text, labels, widths, guards, starts).into()
}

#[unsafe(no_mangle)]
pub extern "C" fn nesbrunka_write(
    n: usize,
    labels: &[u8],
    widths: &[u16],
    guards: &[u8],
    starts: &[u16],
    text: &mut [u8],
) -> SheetWritten
    ensures { left result text.new
        ≡ writing n labels.now (lend widths.now guards.now)
        starts.now text.old }
{
    sheet::write(n, labels, widths, guards, starts, text).into()
}

#[unsafe(no_mangle)]
pub extern "C" fn nesbrunka_centre(anchor: i32, start: usize, width: usize) -> f64
    ensures { result ≡ centring anchor start width }
{
    grid::centre(anchor, start, width)
}

#[unsafe(no_mangle)]
pub extern "C" fn nesbrunka_centre_number(anchor: i32, start: usize, width: usize) -> usize
    ensures { result ≡ centre_number anchor start width }
{
    grid::centre_number(anchor, start, width)
}

#[unsafe(no_mangle)]
pub extern "C" fn nesbrunka_order_write(
    anchor: i32,
    n: usize,
    labels: &[u8],
    widths: &[u16],
    guards: &[u8],
    starts: &[u16],
    text: &mut [u8],
) -> SheetWritten
    ensures { left result text.new
        ≡ order_writing anchor n labels.now (lend widths.now guards.now)
        starts.now text.old }
{
    order::order_write(anchor, n, labels, widths, guards, starts, text).into()
}

#[unsafe(no_mangle)]
pub extern "C" fn nesbrunka_order_read(
    anchor: i32,
    text: &[u8],
    n: usize,
    labels: &[u8],
    widths: &[u16],
    guards: &[u8],
    starts: &mut [u16],
) -> OrderRead
    ensures { left result starts.new
        ≡ order_reading anchor text.now n labels.now
        (lend widths.now guards.now) starts.old }
{
    order::order_read(anchor, text, n, labels, widths, guards, starts).into()
}
