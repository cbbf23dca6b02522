// The calls on expressions.
ghost use Rattle.std.specs.Prelude.{◌≡◌, [], ◌∷◌};
ghost use Rattle.value.specs.Places.{Memory as Meant};
ghost use Rattle.value.specs.Values.{denote_value};
ghost use Rattle.text.specs.Parts.{stored};
ghost use Rattle.evaluation.specs.Evaluation.{value as valued};
ghost use Rattle.marshal.specs.Calls.{dialect_of, home_number, answer_shown, Answers};

use crate::dialects;
use evaluation::outcome;
use lookup::{Home, Place, TextKind, Value};
use units::Offset;

fn number_of(home: Home) -> u64
    ensures { result ≡ home_number home }
{
    match home {
        Home::Expression => 0,
        Home::Table => 1,
    }
}

// Stores a number with its count of operators.
fn show_number(out: &mut [u64; 7], x: u64, count: u64)
    ensures { out.new ≡ stored (0 ∷ x ∷ count ∷ 0 ∷ 0 ∷ 0 ∷ 0 ∷ []) out.old }
{
    *out = [0, x, count, 0, 0, 0, 0];
}

// Stores the place of a string.
fn show_string(out: &mut [u64; 7], kind: u64, place: Place, count: u64)
    ensures { out.new ≡ stored (kind ∷ 0 ∷ count ∷ home_number place.home ∷ place.start.0 ∷ place.len ∷ 0 ∷ []) out.old }
{
    let home = number_of(place.home);
    *out = [
        kind,
        0,
        count,
        home,
        place.start.0 as u64,
        place.len as u64,
        0,
    ];
}

// Stores a value.
fn show_value(out: &mut [u64; 7], v: Value, count: usize)
    ensures { (m : Meant) → out.new ≡ stored (answer_shown (valued (denote_value m v) count)) out.old }
{
    let n = count as u64;
    match v {
        Value::Number(x) => show_number(out, x, n),
        Value::Text(TextKind::String, p) => show_string(out, 1, p, n),
        Value::Text(TextKind::Wide, p) => show_string(out, 2, p, n),
    }
}

// Stores the offset of a refusal, with no value and no count.
fn show_refusal(out: &mut [u64; 7], at: Offset)
    ensures { out.new ≡ stored (0 ∷ 0 ∷ 0 ∷ 0 ∷ 0 ∷ 0 ∷ at.0 ∷ []) out.old }
{
    *out = [0, 0, 0, 0, 0, 0, at.0 as u64];
}

// The value of an expression over a table: 0 and the value in `out`; or the refusal number, and `out` is all zeros except for the offset of
// the refusal, its last entry.
pub fn answer(expr: &[u8], table: &[u8], dialect: u8, out: &mut [u64; 7]) -> u8
    ensures { Answers expr.now table.now (dialect_of dialect) out.old result out.new }
{
    match outcome::evaluate(expr, table, dialects::dialect_of(dialect)) {
        Ok(answer) => {
            show_value(out, answer.value, answer.count);
            0
        }
        Err(refusal) => {
            show_refusal(out, refusal.offset);
            refusal.reason.into()
        }
    }
}
