// The sheet's two public calls: `read`, and `write`. Nothing is asked of the caller.
#![tactic(auto)]

ghost use Rattle.std.specs.Prelude.{◌≡◌, IfErr};
ghost use Rattle.rules.specs.Tables.{cleared, lend};
ghost use Rattle.rules.specs.Calls.{left, reading, writing};
ghost use Rattle.rules.specs.Told.{read_of, written_of};
ghost use Rattle.sheet_laws.specs.Sizes.{Sized};

use rules::{Cause, Refusal};

// The four tables of a sheet, each of its size.
#[derive(Drop)]
pub struct Tables {
    pub labels: [u8; rules::LABELS],
    pub widths: [u16; rules::PATHS],
    pub guards: [u8; rules::CELLS],
    pub starts: [u16; rules::PATHS],
}

impl Tables {
    // All cells are 0, those of the guards too.
    #[tactic(auto, unfolding(rules::specs::Tables::cleared))]
    pub fn new() -> Tables
        ensures zeros { (result.labels ≡ cleared 1024 0) × (result.widths ≡ cleared 128 0)
            × (result.guards ≡ cleared 16384 0) × (result.starts ≡ cleared 128 0) }
    {
        Tables {
            labels: [0; rules::LABELS],
            widths: [0; rules::PATHS],
            guards: [0; rules::CELLS],
            starts: [0; rules::PATHS],
        }
    }

    // Reads a sheet into the tables, as `read` does.
    pub fn read(&mut self, text: &[u8]) -> Result<usize, Refusal>
        ensures sized { Sized self.old.labels self.old.widths self.old.guards self.old.starts }
        ensures reads { left (read_of result) (self.new.labels, lend self.new.widths self.new.guards, self.new.starts)
            ≡ reading text.now self.old.labels (lend self.old.widths self.old.guards) self.old.starts }
        ensures short { IfErr result (λ r. r.short ≡ 0) }
    {
        read(
            text,
            &mut self.labels,
            &mut self.widths,
            &mut self.guards,
            &mut self.starts,
        )
    }

    // Writes the sheet of n paths into a lent text, as `write` does.
    pub fn write(&self, n: usize, text: &mut [u8]) -> Result<usize, Refusal>
        ensures writes { left (written_of result) text.new
            ≡ writing n self.now.labels (lend self.now.widths self.now.guards)
            self.now.starts text.old }
        ensures short { IfErr result (λ r. r.short ≡ 0) }
    {
        write(
            n,
            &self.labels,
            &self.widths,
            &self.guards,
            &self.starts,
            text,
        )
    }
}

// Reads a sheet into the four tables: 2 first, then the first line at fault. Answers how many paths it has.
pub fn read(
    text: &[u8],
    labels: &mut [u8],
    widths: &mut [u16],
    guards: &mut [u8],
    starts: &mut [u16],
) -> Result<usize, Refusal>
    ensures reads { left (read_of result) (labels.new, lend widths.new guards.new, starts.new)
        ≡ reading text.now labels.old (lend widths.old guards.old) starts.old }
    ensures short { IfErr result (λ r. r.short ≡ 0) }
{
    sheet_tables::check_sheet_sizes(labels, widths, guards, starts)?;
    reader::read_sized(text, labels, widths, guards, starts)
}

// Writes a sheet into a lent text, and answers its length. That is known before the first byte is written: 16 leaves the
// text unchanged.
pub fn write(
    n: usize,
    labels: &[u8],
    widths: &[u16],
    guards: &[u8],
    starts: &[u16],
    text: &mut [u8],
) -> Result<usize, Refusal>
    ensures writes { left (written_of result) text.new
        ≡ writing n labels.now (lend widths.now guards.now)
        starts.now text.old }
    ensures short { IfErr result (λ r. r.short ≡ 0) }
{
    sheet_tables::check_tables(n, labels, widths, guards, starts)?;
    let length = writer::sheet_length(n, labels, widths, guards, starts);
    tables::refuse_if(text.len() < length, Cause::Room)?;
    Ok(writer::put_sheet(text, n, labels, widths, guards, starts))
}
