// Bars outside parentheses.
ghost use Rattle.std.specs.Prelude.{◌≡◌, ◌&&◌, ◌<◌, eqb};
ghost use Rattle.token.specs.Tokens.{first_place};
ghost use Rattle.grammar.specs.Bars.{is_bar, deeper as deeper_of, bars_outside};
ghost use Rattle.expression.specs.Meaning.{code_of};
ghost use Rattle.expression.specs.Lent.{token_of};
ghost use Rattle.leftmost.specs.Tokens.{tokens_from};
ghost use Rattle.leftmost.specs.Leftmost.{bar_at};

use expression::arrays::Tokens;
use units::{Dialect, Offset, TokenNumber};
use value::forms;

fn is_bar(c: u8) -> bool
    ensures { result ≡ is_bar c }
{
    matches!(c, codes::BIT_OR | codes::OR_BARS)
}

// Whether this token is a bar and no parenthesis is open.
fn is_outside(depth: usize, c: u8) -> bool
    ensures { result ≡ (is_bar c && eqb depth 0) }
{
    is_bar(c) && depth == 0
}

// The number of open parentheses after a token.
fn deeper(depth: usize, c: u8) -> usize
    requires { depth < 200 }
    ensures { result ≡ deeper_of depth c }
{
    match c {
        codes::OPEN => depth + 1,
        codes::CLOSE => depth.saturating_sub(1),
        _ => depth,
    }
}

// The first token that is a bar outside all parentheses.
fn first_outside(tokens: Tokens) -> Option<Offset>
    ensures { result ≡ first_place (bars_outside code_of 0 (tokens_from (token_of tokens.entry) 0 tokens.entry.count.0)) }
{
    let mut depth: usize = 0;
    for i in 0..tokens.count.0 {
        let c = tokens.codes[i];
        if is_outside(depth, c) {
            return Some(forms::place(tokens.at(TokenNumber(i))));
        }
        depth = deeper(depth, c);
    }
    None
}

// The first token that is a bar outside all parentheses, if the dialect does not allow it there.
pub fn bar_at(tokens: Tokens, dialect: Dialect) -> Option<Offset>
    ensures { result ≡ bar_at (tokens_from (token_of tokens.entry) 0 tokens.entry.count.0) dialect }
{
    if dialect.bars {
        return None;
    }
    first_outside(tokens)
}
