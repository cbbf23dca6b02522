// The selection of lines.
ghost use Rattle.marshal.specs.Calls.{dialect_of, Marks};

// Marks the lines of a file: 0, and the number of lines and the sum of counts in `out`; or the refusal number, its line and its offset there
// in `out`, and every mark 255.
// Bit 0 of `dialect` is the edition, 1 for the old one.
pub fn korzhinay_select(
    marks: &mut [u8],
    file: &[u8],
    table: &[u8],
    dialect: u8,
    out: &mut [u64; 4],
) -> u8
    ensures { Marks file.now table.now (dialect_of dialect) marks.old out.old result marks.new out.new }
{
    marshal::selections::mark(marks, file, table, dialect, out)
}
