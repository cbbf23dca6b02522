// The tokens of an expression in the arrays of the scanner.
ghost use Rattle.expression.specs.Parsing.{Holding};

use syntax::tokens;
use units::TokenNumber;
use value::forms::Token;

// The first `count` entries of each array are the tokens.
// Stays: four arrays and no slice of tokens, since the scanner fills the four that C lends, one for each part of a token.
#[derive(Clone, Copy)]
pub struct Tokens<'a> {
    pub codes: &'a [u8; 200],
    pub starts: &'a [u16],
    pub lens: &'a [u16],
    pub values: &'a [u64],
    pub count: TokenNumber,
    ghost holding: { Holding codes.now starts.now lens.now values.now count.0 },
}

impl<'a> Tokens<'a> {
    ghost use Rattle.std.specs.Prelude.{◌≡◌};
    ghost use Rattle.value.specs.Denote.{denote_token};
    ghost use Rattle.expression.specs.Lent.{token_of};

    // The token with a number; past the tokens one that nothing derives.
    pub fn at(self, number: TokenNumber) -> Token
        ensures { denote_token result ≡ token_of self.entry number.0 }
    {
        let i = number.0;
        if self.count.0 <= i {
            return Token {
                code: tokens::END,
                start: 0,
                len: 0,
                value: 0,
            };
        }
        Token {
            code: self.codes[i],
            start: self.starts[i],
            len: self.lens[i],
            value: self.values[i],
        }
    }
}
