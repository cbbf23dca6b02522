// The tokens of an expression.
ghost use Rattle.token.specs.Tokens.{reading};
ghost use Rattle.marshal.specs.Calls.{dialect_of, Lists};

// The tokens of an expression: the refusal number or 0, the number of tokens that were read, the offset of the refusal or 0, and the codes,
// starts, lengths and values of the tokens.
// Bit 0 of `dialect` is the edition, 1 for the old one.
pub fn korzhinay_tokens(
    expr: &[u8],
    dialect: u8,
    out: &mut [u64; 3],
    codes: &mut [u8; 200],
    starts: &mut [u16; 200],
    lens: &mut [u16; 200],
    values: &mut [u64; 200],
)
    ensures { Lists (reading expr.now (dialect_of dialect)) out.old codes.old starts.old lens.old values.old out.new codes.new starts.new lens.new values.new }
{
    marshal::tokens::list(expr, dialect, out, codes, starts, lens, values)
}
