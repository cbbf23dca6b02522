// The bytes of a data field.
ghost use Rattle.marshal.specs.Calls.{dialect_of, Fills};

// The bytes of a data field: 0, the length of the field in `out`, and the field at the front of `buffer`; or the refusal number, its offset in
// `out`, and `buffer` as it was.
// Bit 0 of `dialect` is the edition, 1 for the old one.
pub fn korzhinay_field(
    buffer: &mut [u8],
    expr: &[u8],
    table: &[u8],
    datum: u8,
    dialect: u8,
    out: &mut [u64; 2],
) -> u8
    ensures { Fills expr.now table.now datum (dialect_of dialect) buffer.old out.old result buffer.new out.new }
{
    marshal::fields::fill(buffer, expr, table, datum, dialect, out)
}
