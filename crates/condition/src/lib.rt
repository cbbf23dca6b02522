// The condition in the text of a directive.
#![tactic(auto)]

mod blanks;
mod expressions;
mod macros;
pub mod places;

ghost use Rattle.std.specs.Prelude.{◌≡◌, ◌++◌};
ghost use Rattle.condition.specs.Conditions.{evaluate as evaluate_of};

use line::{Condition, Directive};
use lookup::Settings;
use units::{Dialect, Fault};

// The condition in the text after the word of a directive. A plain line and an unknown word get a fixed condition.
#[tactic(auto, unfolding(crate::specs::Conditions::evaluate))]
pub fn evaluate(
    settings: Settings,
    d: Directive,
    text: &[u8],
    dialect: Dialect,
) -> Result<Condition, Fault>
    ensures { result ≡ evaluate_of (settings.entry.own.now ++ settings.entry.table.now) d text.now dialect }
{
    match d {
        Directive::If | Directive::Elseif => expressions::of_expression(settings, text, dialect),
        Directive::Ifdef => macros::of_macro(settings, true, text, dialect),
        Directive::Ifndef => macros::of_macro(settings, false, text, dialect),
        Directive::Else | Directive::Endif => blanks::of_nothing(text),
        Directive::Plain | Directive::Unknown => Ok(Condition::Fails(0)),
    }
}
