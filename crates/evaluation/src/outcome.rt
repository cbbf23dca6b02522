// The answer to an expression, and the part of memory that holds a string.
ghost use Rattle.std.specs.Prelude.{◌≡◌, ◌≤◌, length, ltb};
ghost use Rattle.text.specs.Bytes.{pick};
ghost use Rattle.token.specs.Tokens.{reading};
ghost use Rattle.value.specs.Places.{Memory as Meant, over};
ghost use Rattle.value.specs.Lent.{memory_of};
ghost use Rattle.value.specs.Denote.{denote_attributes};
ghost use Rattle.expression.specs.Lent.{token_of};
ghost use Rattle.evaluation.specs.Arrays.{of_arrays, Checks};
ghost use Rattle.evaluation.specs.Evaluation.{clash_in, check_then_answer, evaluation_in, evaluation, denote_answer, HandsBack};

use crate::Evaluated;
use expression::arrays::Tokens;
use leftmost::{bars, missing};
use lookup::{Settings, Value};
use token::scan;
use units::{Dialect, Offset, Reason, Refusal, TokenNumber};
use value::{Attributes, Kind, Memory, forms, values};

// The operator to blame for wrong kinds.
fn clash_in(k: Kind) -> Option<Offset>
    ensures { result ≡ clash_in k }
{
    match k {
        Kind::Number | Kind::String | Kind::Wide => None,
        Kind::Clash(at) => Some(Offset(usize::from(at))),
    }
}

// The refusal for this reason at a place, if there is one.
fn check(place: Option<Offset>, reason: Reason) -> Result<(), Refusal>
    ensures { Checks place reason result }
{
    match place {
        None => Ok(()),
        Some(at) => Err(units::refuse_at(reason, at)),
    }
}

// The answer if the tokens derive a tree: the places of a bar that is refused and of a PCD that is missing, and the attributes of the tree.
fn check_then_answer(
    bar: Option<Offset>,
    pcd: Option<Offset>,
    a: Attributes,
) -> Result<Evaluated, Refusal>
    ensures { (m : Meant) → denote_answer m result ≡ check_then_answer bar pcd (denote_attributes m a) }
{
    let Attributes { kind, value, count } = a;
    check(bar, Reason::BarOutside)?;
    check(pcd, Reason::PcdMissing)?;
    check(clash_in(kind), Reason::KindsUnsuited)?;
    let value = value.map_err(|fault| units::refuse_at(fault.reason, fault.at))?;
    Ok(Evaluated { value, count })
}

// Where a token starts; past the tokens, where the expression ends.
fn start_at(tokens: Tokens, end: Offset, at: TokenNumber) -> Offset
    ensures { result.0 ≡ pick (ltb at.0 tokens.entry.count.0) (token_of tokens.entry at.0).start end.0 }
{
    if at.0 < tokens.count.0 {
        forms::place(tokens.at(at))
    } else {
        end
    }
}

// The answer to the tokens of an expression that ends at `end`.
fn answer_tokens(
    m: Memory,
    tokens: Tokens,
    end: Offset,
    dialect: Dialect,
) -> Result<Evaluated, Refusal>
    ensures { denote_answer (memory_of m.entry) result ≡ of_arrays (memory_of m.entry) (token_of tokens.entry) tokens.entry.count.0 end.0 dialect }
{
    let bar = bars::bar_at(tokens, dialect);
    let pcd = missing::pcd_at(m, tokens);
    match expression::parse(m, tokens) {
        Ok((a, next)) if next.0 == tokens.count.0 => check_then_answer(bar, pcd, a),
        Ok((_, at)) | Err(at) => {
            let place = start_at(tokens, end, at);
            Err(units::refuse_at(Reason::NoDerivation, place))
        }
    }
}

// The answer with room for this many tokens. The room is bounded, so that its size in memory is.
fn evaluate_with_room<const ROOM: usize>(m: Memory, dialect: Dialect) -> Result<Evaluated, Refusal>
    requires roomy { length (reading m.expr.now dialect).tokens ≤ ROOM }
    requires small { ROOM ≤ 200 }
    ensures { denote_answer (memory_of m.entry) result ≡ evaluation_in (memory_of m.entry) dialect }
{
    let mut codes = [0u8; 200];
    let mut starts = [0u16; ROOM];
    let mut lens = [0u16; ROOM];
    let mut values = [0u64; ROOM];
    let scan = scan::tokens(
        &mut codes,
        &mut starts,
        &mut lens,
        &mut values,
        m.expr,
        dialect,
    );
    let end = scan.ending?;
    let tokens = Tokens {
        codes: &codes,
        starts: &starts,
        lens: &lens,
        values: &values,
        count: scan.tokens,
    };
    answer_tokens(m, tokens, end, dialect)
}

// An expression has no more tokens than bytes, so less memory is cleared for one of at most this many bytes.
const SHORT: usize = 32;

// The answer without the check of the table, which has to be ordered, and with records in front of it.
pub fn evaluate_in(m: Memory, dialect: Dialect) -> Result<Evaluated, Refusal>
    ensures { denote_answer (memory_of m.entry) result ≡ evaluation_in (memory_of m.entry) dialect }
{
    if m.expr.len() <= SHORT {
        evaluate_with_room::<32>(m, dialect)
    } else {
        evaluate_with_room::<200>(m, dialect)
    }
}

// The answer to an expression over a table, whatever their bytes.
pub fn evaluate<'a>(expr: &'a [u8], table: &'a [u8], dialect: Dialect) -> Result<Evaluated, Refusal>
    ensures { denote_answer (over expr.now table.now) result ≡ evaluation (over expr.now table.now) dialect }
{
    if !settings::is_well_formed(table) {
        return Err(Reason::TableMalformed.into());
    }
    let settings = Settings {
        own: &table[..0],
        table,
    };
    evaluate_in(Memory { expr, settings }, dialect)
}

// The part of the expression or of the table that holds an answer's string; an empty part for a number and for a refusal.
pub fn string<'a>(expr: &'a [u8], table: &'a [u8], a: Result<Evaluated, Refusal>) -> &'a [u8]
    ensures { HandsBack expr.entry table.entry a result }
{
    if let Ok(answer) = a
        && let Value::Text(_, place) = answer.value
    {
        values::bytes(expr, table, place)
    } else {
        &expr[..0]
    }
}
