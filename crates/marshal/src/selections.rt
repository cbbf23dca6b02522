// The call that selects lines.
ghost use Rattle.marshal.specs.Calls.{dialect_of, Marks};

use crate::dialects;
use select::selection;

// Marks the lines of a file: 0, and the number of lines and the sum of counts in `out`; or the refusal number, its line and its offset there
// in `out`, and every mark 255.
pub fn mark(marks: &mut [u8], file: &[u8], table: &[u8], dialect: u8, out: &mut [u64; 4]) -> u8
    ensures { Marks file.now table.now (dialect_of dialect) marks.old out.old result marks.new out.new }
{
    match selection::select(marks, file, table, dialects::dialect_of(dialect)) {
        Ok(selected) => {
            *out = [0, selected.lines.0 as u64, selected.count as u64, 0];
            0
        }
        Err(refusal) => {
            *out = [refusal.line.0 as u64, 0, 0, refusal.offset.0 as u64];
            refusal.reason.into()
        }
    }
}
