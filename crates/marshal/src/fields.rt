// The call on data fields.
ghost use Rattle.marshal.specs.Calls.{dialect_of, Fills};

use crate::dialects;

// The bytes of a data field: 0, the length of the field in `out`, and the field at the front of `buffer`; or the refusal number, its offset in
// `out`, and `buffer` as it was.
pub fn fill(
    buffer: &mut [u8],
    expr: &[u8],
    table: &[u8],
    datum: u8,
    dialect: u8,
    out: &mut [u64; 2],
) -> u8
    ensures { Fills expr.now table.now datum (dialect_of dialect) buffer.old out.old result buffer.new out.new }
{
    match field::field(buffer, expr, table, datum, dialects::dialect_of(dialect)) {
        Ok(length) => {
            *out = [length as u64, 0];
            0
        }
        Err(refusal) => {
            *out = [0, refusal.offset.0 as u64];
            refusal.reason.into()
        }
    }
}
