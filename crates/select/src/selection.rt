// The whole selection: the checks before any line, the run, and the marks of a refusal.
ghost use Rattle.units.specs.declared.Dialect.{Dialect};
ghost use Rattle.select.specs.Select.{Selects};
ghost use Rattle.select.specs.Running.{ChecksLimits, SelectsSome};

use crate::{Selected, run};
use line::cut;
use units::{Dialect, Reason, Refusal};

// The largest number of bytes and of lines in a file.
const MAX_FILE: usize = 65536;

const MAX_LINES: usize = 4096;

// The value of every mark after a refusal.
const REFUSED: u8 = 255;

// The refusal before any line, if there is one.
#[tactic(auto, unfolding(crate::specs::Select::selection))]
fn check_limits(file: &[u8], table: &[u8], room: usize) -> Result<(), Reason>
    ensures { (δ : Dialect) → ChecksLimits file.now table.now room result δ }
{
    if !settings::is_well_formed(table) {
        return Err(Reason::TableMalformed);
    }
    if MAX_FILE < file.len() {
        return Err(Reason::FileLong);
    }
    let n = cut::count(file);
    if MAX_LINES < n.0 {
        return Err(Reason::LinesMany);
    }
    if room < n.0 {
        return Err(Reason::MarksShort);
    }
    Ok(())
}

// The checks and the run. After a refusal the marks may have any values.
#[tactic(auto, using(crate::proofs::SelectCorrect::refused_before, crate::proofs::SelectCorrect::some_run))]
fn checked_run(
    marks: &mut [u8],
    file: &[u8],
    table: &[u8],
    dialect: Dialect,
) -> Result<Selected, Refusal>
    ensures { SelectsSome file.now table.now marks.old result marks.new dialect }
{
    check_limits(file, table, marks.len())?;
    run::run(marks, file, table, dialect)
}

// Marks the lines of a file: the number of lines and the sum of the counts, or the refusal, and then every mark is 255.
pub fn select(
    marks: &mut [u8],
    file: &[u8],
    table: &[u8],
    dialect: Dialect,
) -> Result<Selected, Refusal>
    ensures { Selects file.now table.now marks.old result marks.new dialect }
{
    let answer = checked_run(marks, file, table, dialect);
    if answer.is_err() {
        marks.fill(REFUSED);
    }
    answer
}
