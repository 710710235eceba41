// An inner crate, for `sheet`: a sheet read into tables of the right sizes.
#![tactic(auto)]

ghost use Rattle.std.specs.Prelude.{◌≡◌, IfErr};
ghost use Rattle.rules.specs.Tables.{cleared, lend, cleared_network};
ghost use Rattle.rules.specs.Sheet.{sheet_from};
ghost use Rattle.rules.specs.Calls.{left, read_outcome};
ghost use Rattle.rules.specs.Told.{read_of};
ghost use Rattle.sheet_laws.specs.Sizes.{Sized};
ghost use Rattle.reader.specs.Blank.{Blank};

use rules::Refusal;

// A cleared table holds 0 in every cell, that of the guards "no conflict".
fn clear(labels: &mut [u8], widths: &mut [u16], guards: &mut [u8], starts: &mut [u16])
    requires { Sized labels.old widths.old guards.old starts.old }
    ensures { Blank labels.new widths.new guards.new starts.new }
{
    labels.fill(0);
    widths.fill(0);
    guards.fill(rules::NO_CONFLICT);
    starts.fill(0);
}

// A sheet is read over cleared tables, so that they are clear past n, and a refusal leaves them cleared.
#[tactic(auto, unfolding(rules::specs::Calls::read_outcome))]
pub fn read_sized(
    text: &[u8],
    labels: &mut [u8],
    widths: &mut [u16],
    guards: &mut [u8],
    starts: &mut [u16],
) -> Result<usize, Refusal>
    requires { Sized labels.old widths.old guards.old starts.old }
    ensures reads { left (read_of result) (labels.new, lend widths.new guards.new, starts.new)
        ≡ read_outcome (sheet_from (cleared 1024 0) cleared_network (cleared 128 0) text.now) }
    ensures short { IfErr result (λ r. r.short ≡ 0) }
{
    clear(labels, widths, guards, starts);
    let read = whole_sheet::sheet_parts(text, labels, widths, guards, starts);
    if read.is_err() {
        clear(labels, widths, guards, starts);
    }
    read
}
