// The call that lists the tokens of an expression.
ghost use Rattle.std.specs.Prelude.{◌≡◌};
ghost use Rattle.token.specs.Tokens.{reading, ending_number};
ghost use Rattle.marshal.specs.Calls.{dialect_of, Lists, ending_offset};

use crate::dialects;
use token::scan;
use units::{Offset, Refusal};

// The refusal number of an ending, 0 if nothing was refused.
fn number_of(ending: Result<Offset, Refusal>) -> u8
    ensures { result ≡ ending_number ending }
{
    match ending {
        Ok(_) => 0,
        Err(refusal) => refusal.reason.into(),
    }
}

// The offset of the refusal of an ending, 0 if nothing was refused.
fn offset_of(ending: Result<Offset, Refusal>) -> usize
    ensures { result ≡ ending_offset ending }
{
    match ending {
        Ok(_) => 0,
        Err(refusal) => refusal.offset.0,
    }
}

// The tokens of an expression: the refusal number or 0, the number of tokens that were read, the offset of the refusal or 0, and the codes,
// starts, lengths and values of the tokens.
pub fn list(
    expr: &[u8],
    dialect: u8,
    out: &mut [u64; 3],
    codes: &mut [u8; 200],
    starts: &mut [u16; 200],
    lens: &mut [u16; 200],
    values: &mut [u64; 200],
)
    ensures { Lists (reading expr.now (dialect_of dialect)) out.old codes.old starts.old lens.old values.old out.new codes.new starts.new lens.new values.new }
{
    let rules = dialects::dialect_of(dialect);
    let scan = scan::tokens(codes, starts, lens, values, expr, rules);
    let number = number_of(scan.ending);
    let offset = offset_of(scan.ending);
    *out = [u64::from(number), scan.tokens.0 as u64, offset as u64];
}
