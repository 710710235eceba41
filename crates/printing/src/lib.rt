// An inner crate of the plan program: from an input to what is printed, and to the line that `--verbose` adds.
#![tactic(auto)]

ghost use Rattle.std.specs.Prelude.{◌≡◌, ◌≤◌, length, take};
ghost use Rattle.rules.specs.Tables.{lend};
ghost use Rattle.rules.specs.Program.{planned_text, printed};
ghost use Rattle.console.specs.Made.{Made};
ghost use Rattle.printing.specs.Made.{note_of, noted};

use rules::Arranged;

// How many bytes are for standard output, and how many for the line on standard error: none where the sheet
// is refused.
#[derive(Drop)]
pub struct Lengths {
    pub out: usize,
    pub line: usize,
}

// The sheet with the starts that are planned for it, and what was planned. A sheet that was read is planned and written.
fn planned(
    n: usize,
    labels: &[u8],
    widths: &[u16],
    guards: &[u8],
    starts: &mut [u16],
    out: &mut [u8],
    line: &mut [u8],
) -> Lengths
    requires { (n ≤ 128) × (length guards.now ≡ 16384)
        × (length out.old ≡ 45489) × (length line.old ≡ 80) }
    ensures out_after { (take result.out out.new
        ≡ planned_text n labels.now (lend widths.now guards.now)
        starts.old)
        × (result.out ≤ 45489) }
    ensures line_after { (take result.line line.new
        ≡ note_of n labels.now (lend widths.now guards.now) starts.old)
        × (result.line ≤ 80) }
{
    let mut order = [0; rules::PATHS];
    let done = planning::plan(n, widths, guards, &mut order, starts, 1, 1000);
    let plan = done.unwrap_or(Arranged {
        highest: 0,
        kept: 0,
    });
    let out = sheet::write(n, labels, widths, guards, starts, out).unwrap_or(0);
    let line = notes::note(n, widths, guards, plan.highest, plan.kept, line);
    Lengths { out, line }
}

// From the input to what is printed: so many bytes of a lent text that has room for the longest sheet, and of
// a lent line. The four tables are for the work. Where the input has 65,536 bytes or more, whatever comes
// after them changes nothing.
pub fn answer(
    input: &[u8],
    labels: &mut [u8],
    widths: &mut [u16],
    guards: &mut [u8],
    starts: &mut [u16],
    out: &mut [u8],
    line: &mut [u8],
) -> Lengths
    requires { (length labels.old ≡ 1024) × (length widths.old ≡ 128) × (length guards.old ≡ 16384)
        × (length starts.old ≡ 128) × (length out.old ≡ 45489) × (length line.old ≡ 80) }
    ensures prints { Made printed input.now result.out out.new }
    ensures notes { Made noted input.now result.line line.new }
{
    match sheet::read(input, labels, widths, guards, starts) {
        Ok(n) => planned(n, labels, widths, guards, starts, out, line),
        Err(refusal) => Lengths {
            out: console::refuse(out, refusal.cause.number(), refusal.place),
            line: 0,
        },
    }
}
