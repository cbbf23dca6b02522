// The answer to an expression.
ghost use Rattle.marshal.specs.Calls.{dialect_of, Answers};

// The value of an expression over a table: 0 and the value in `out`; or the refusal number, and `out` is all zeros except for the offset of
// the refusal, its last entry.
// Bit 0 of `dialect` is the edition, 1 for the old one.
pub fn korzhinay_evaluate(expr: &[u8], table: &[u8], dialect: u8, out: &mut [u64; 7]) -> u8
    ensures { Answers expr.now table.now (dialect_of dialect) out.old result out.new }
{
    marshal::expressions::answer(expr, table, dialect, out)
}
