// The limits (RULES 3), and what each public call answers (RULES 16). The rules themselves stand in specs/.
#![tactic(auto)]

mod for_c;

ghost use Rattle.std.specs.Prelude.{◌≡◌};
ghost use Rattle.rules.specs.Numbers.{fault};
ghost use Rattle.rules.specs.Told.{number_of, refused};

// The sizes of the tables, which do not depend on n.
pub const PATHS: usize = 128;

pub const CELLS: usize = 16384;

pub const LABEL: usize = 8;

pub const LABELS: usize = 1024;

// What a cell may hold.
pub const WIDTH_MOST: u16 = 64;

pub const GUARD_MOST: u8 = 32;

pub const NO_CONFLICT: u8 = 255;

pub const START_MOST: u16 = 16384;

// What a call may be given.
pub const ROUNDS_MOST: usize = 10000;

pub const LIST_MOST: usize = 8;

pub const PAIRS_MOST: usize = 2000;

pub const SHEET_MOST: usize = 45489;

pub const ANCHOR_MOST: i32 = 1024;

pub const ORDER_MOST: usize = 2314;

// What a call is refused for, in the order of its number (RULES 17); 0 is none.
#[derive(Clone, Copy, Debug, PartialEq, Eq)]
pub enum Cause {
    Count = 1,
    Size,
    Width,
    Guard,
    Mirror,
    Entry,
    Start,
    Clash,
    NoSides,
    Rounds,
    Form,
    LabelTwice,
    LabelUnknown,
    PairTwice,
    List,
    Room,
    Anchor,
}

impl Cause {
    pub fn number(self) -> usize
        ensures { result ≡ number_of self }
    {
        self as usize
    }
}

// A refusal: for what, at which place, and how many slots short the pair is that `Clash` refuses, 0 beside every
// other cause.
#[derive(Clone, Copy, Debug, PartialEq, Eq)]
pub struct Refusal {
    pub cause: Cause,
    pub place: usize,
    pub short: usize,
}

impl Refusal {
    // No test but that of the slots says how many are short.
    pub fn at(cause: Cause, place: usize) -> Refusal
        ensures { refused result ≡ fault (number_of cause) place }
    {
        Refusal {
            cause,
            place,
            short: 0,
        }
    }

    // A refusal of a whole, which has no place.
    pub fn whole(cause: Cause) -> Refusal
        ensures { refused result ≡ fault (number_of cause) 0 }
    {
        Refusal::at(cause, 0)
    }
}

// What is done where nothing is refused, of the calls that do more than one thing or number says. Why a path stands where
// it stands: so many paths of the chain stand in their table, and the last of them can come down by `down` slots, 0 in
// slot 1.
#[derive(Clone, Copy, Debug, PartialEq, Eq)]
pub struct Explained {
    pub length: usize,
    pub down: usize,
}

// Planning and improving: order and starts stand in their tables; the highest slot, and how many swaps were kept.
#[derive(Clone, Copy, Debug, PartialEq, Eq)]
pub struct Arranged {
    pub highest: usize,
    pub kept: usize,
}

// What C is answered: number and place of a refusal, 0 and 0 where nothing is at fault, and what is done, 0 beside a
// refusal. Judging: how many slots short the pair is that 8 refuses, 0 beside every other number.
#[repr(C)]
#[derive(Drop)]
pub struct Fault {
    pub number: usize,
    pub place: usize,
    pub short: usize,
}

// Packing, which meets no 8: the starts stand in their table.
#[repr(C)]
#[derive(Drop)]
pub struct Packed {
    pub number: usize,
    pub place: usize,
    pub highest: usize,
}

// Pressing: the starts stand in their table. What may be refused by 8 answers number, place, short first.
#[repr(C)]
#[derive(Drop)]
pub struct Pressed {
    pub number: usize,
    pub place: usize,
    pub short: usize,
    pub highest: usize,
}

// Why a path stands where it stands: `length` paths of the chain stand in their table, and the last of them
// can come down by `down` slots, 0 in slot 1.
#[repr(C)]
#[derive(Drop)]
pub struct Why {
    pub number: usize,
    pub place: usize,
    pub short: usize,
    pub length: usize,
    pub down: usize,
}

// The two sides: the order stands in its table, `low` is how many paths are low.
#[repr(C)]
#[derive(Drop)]
pub struct Sided {
    pub number: usize,
    pub place: usize,
    pub low: usize,
}

// Planning and improving: order and starts stand in their tables, `kept` counts the swaps kept.
#[repr(C)]
#[derive(Drop)]
pub struct Planned {
    pub number: usize,
    pub place: usize,
    pub highest: usize,
    pub kept: usize,
}

// The floor of a list of paths.
#[repr(C)]
#[derive(Drop)]
pub struct Floored {
    pub number: usize,
    pub place: usize,
    pub floor: usize,
}

// The reader answers the number of paths.
#[repr(C)]
#[derive(Drop)]
pub struct SheetRead {
    pub number: usize,
    pub place: usize,
    pub n: usize,
}

// The writers answer the sheet's length.
#[repr(C)]
#[derive(Drop)]
pub struct SheetWritten {
    pub number: usize,
    pub place: usize,
    pub length: usize,
}

// An order sheet read: the starts stand in their table.
#[repr(C)]
#[derive(Drop)]
pub struct OrderRead {
    pub number: usize,
    pub place: usize,
}
