// The evaluation of a postfix order.
ghost use Rattle.std.specs.Prelude.{length};
ghost use Rattle.expression.specs.Lent.{input_of};
ghost use Rattle.expression.specs.Postfix.{Foldable, Folds};

use crate::arrays::Tokens;
use operands::stack;
use syntax::tokens as entries;
use units::TokenNumber;
use value::{Attributes, Memory, Strings, forms};

// The attributes that the entries of an order leave. The operands that wait for their operator are in lent memory.
pub fn fold(waiting: &mut [Attributes], m: Memory, tokens: Tokens, order: &[u16]) -> Attributes
    requires { Foldable (input_of m tokens) (length waiting.old) order.now }
    ensures { Folds (input_of m.entry tokens.entry) (length waiting.old) order.now result }
{
    let strings = Strings {
        expr: m.expr,
        own: m.settings.own,
        table: m.settings.table,
    };
    // Stays: the number of waiting operands stands beside their memory, since there is no heap here, and so no `Vec`.
    let mut top: usize = 0;
    for entry in order {
        let x = usize::from(*entry);
        if entries::UNARY <= x {
            let k = tokens.at(TokenNumber(x - entries::UNARY));
            stack::unary(waiting, top - 1, k);
            continue;
        }
        let k = tokens.at(TokenNumber(x));
        if entries::is_primary(k.code) {
            stack::store(waiting, top, forms::of_primary(m, k));
            top += 1;
        } else if *entry != entries::FILLER {
            if k.code == codes::QUESTION {
                stack::choice(waiting, top - 3, k);
                top -= 2;
            } else {
                stack::binary(waiting, top - 2, strings, k);
                top -= 1;
            }
        }
    }
    stack::load(waiting, 0)
}
