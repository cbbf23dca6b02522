// PCDs that the table does not have.
ghost use Rattle.std.specs.Prelude.{◌≡◌, ◌<◌};
ghost use Rattle.value.specs.Lent.{memory_of};
ghost use Rattle.value.specs.Values.{is_missing_pcd};
ghost use Rattle.expression.specs.Lent.{token_of};
ghost use Rattle.leftmost.specs.Tokens.{tokens_from};
ghost use Rattle.leftmost.specs.Leftmost.{pcd_at};

use expression::arrays::Tokens;
use units::{Offset, TokenNumber};
use value::{Memory, forms};

// Whether a token is a PCD that the table does not have. Few tokens are PCDs, so the code is looked at first.
fn is_missing_pcd(m: Memory, tokens: Tokens, at: TokenNumber) -> bool
    requires { at.0 < tokens.count.0 }
    ensures { result ≡ is_missing_pcd (memory_of m.entry) (token_of tokens.entry at.0) }
{
    tokens.codes[at.0] == codes::PCD && forms::named(m, tokens.at(at)).is_none()
}

// The first token that is a PCD which the table does not have.
pub fn pcd_at(m: Memory, tokens: Tokens) -> Option<Offset>
    ensures { result ≡ pcd_at (memory_of m.entry) (tokens_from (token_of tokens.entry) 0 tokens.entry.count.0) }
{
    for i in 0..tokens.count.0 {
        if is_missing_pcd(m, tokens, TokenNumber(i)) {
            return Some(forms::place(tokens.at(TokenNumber(i))));
        }
    }
    None
}
