// One PCD data field: the value of an expression in the bytes of its datum.
#![tactic(auto)]

ghost use Rattle.value.specs.Places.{over};
ghost use Rattle.datum.specs.Encoding.{Writes};
ghost use Rattle.field.specs.Fields.{field_of};

use evaluation::outcome;
use lookup::{TextKind, Value};
use units::{Dialect, Refusal};

// Writes the field to the front of the buffer and returns its length; a refusal writes nothing. `code` is the code of the datum.
pub fn field(
    buffer: &mut [u8],
    expr: &[u8],
    table: &[u8],
    code: u8,
    dialect: Dialect,
) -> Result<usize, Refusal>
    ensures { Writes (field_of (over expr.now table.now) code buffer.old dialect) result buffer.new }
{
    let answer = outcome::evaluate(expr, table, dialect);
    match answer?.value {
        Value::Number(x) => datum::number(buffer, code, x),
        Value::Text(kind, _) => {
            let s = outcome::string(expr, table, answer);
            match kind {
                TextKind::String => datum::string(buffer, code, s),
                TextKind::Wide => datum::wide(buffer, code, s),
            }
        }
    }
}
