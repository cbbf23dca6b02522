// `!if` and `!elseif`: the answer to an expression as a condition.
ghost use Rattle.std.specs.Prelude.{◌≡◌, ◌++◌};
ghost use Rattle.value.specs.Places.{Memory as Meant};
ghost use Rattle.evaluation.specs.Evaluation.{denote_answer};
ghost use Rattle.condition.specs.Conditions.{of_number, of_answer, of_expression};

use crate::blanks;
use evaluation::{Evaluated, outcome};
use line::Condition;
use lookup::{Settings, Value};
use units::{Dialect, Fault, Reason, Refusal};
use value::Memory;

fn of_number(x: u64, count: usize) -> Result<Condition, Fault>
    ensures { result ≡ of_number x count }
{
    match x {
        1 => Ok(Condition::Holds(count)),
        0 => Ok(Condition::Fails(count)),
        _ => Err(Reason::ConditionValue.into()),
    }
}

#[tactic(auto, unfolding(crate::specs::Conditions::of_answer))]
fn of_answer(answer: Result<Evaluated, Refusal>) -> Result<Condition, Fault>
    ensures { (m : Meant) → result ≡ of_answer (denote_answer m answer) }
{
    match answer {
        Ok(Evaluated { value, count }) => match value {
            Value::Number(x) => of_number(x, count),
            Value::Text(_, _) => Err(Reason::ConditionValue.into()),
        },
        Err(refusal) => Err(Fault {
            reason: refusal.reason,
            at: refusal.offset,
        }),
    }
}

// The argument is all of the text. Bars need no parentheses in it.
#[tactic(auto, unfolding(crate::specs::Conditions::of_expression))]
pub fn of_expression(settings: Settings, text: &[u8], dialect: Dialect) -> Result<Condition, Fault>
    ensures { result ≡ of_expression (settings.entry.own.now ++ settings.entry.table.now) text.now dialect }
{
    if !blanks::is_spaced(text) {
        return Err(Reason::TextMalformed.into());
    }
    let rules = Dialect {
        bars: true,
        old: dialect.old,
    };
    let memory = Memory {
        expr: text,
        settings,
    };
    of_answer(outcome::evaluate_in(memory, rules))
}
