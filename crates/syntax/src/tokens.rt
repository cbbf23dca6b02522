// The codes of the tokens that the descent reads, and the entries of the order that it writes.
ghost use Rattle.std.specs.Prelude.{◌≡◌, ◌≤◌, false};
ghost use Rattle.codes.specs.Levels.{is_unary};
ghost use Rattle.grammar.specs.Grammar.{is_primary};
ghost use Rattle.syntax.specs.Order.{code_at};
ghost use Rattle.syntax.specs.Descent.{Run};

use codes::levels;
use units::TokenNumber;

// The code after the last token, which no token has.
pub const END: u8 = 255;

// The codes of n tokens.
#[derive(Clone, Copy)]
pub struct Codes<'a> {
    pub codes: &'a [u8; 200],
    pub n: TokenNumber,
    ghost few: { n.0 ≤ 200 },
}

impl<'a> Codes<'a> {
    // The code of a token, `END` after the last one.
    pub fn code_at(self, at: TokenNumber) -> u8
        ensures { result ≡ code_at self.entry.codes.now self.entry.n.0 at.0 }
    {
        if at.0 < self.n.0 {
            self.codes[at.0]
        } else {
            END
        }
    }

    // The token after the run of unary operators from token i on.
    // Stays: with `take_while` and `count` in place of this loop each call of the descent's `level` would take 16 bytes of stack more.
    #[tactic(auto, using(crate::proofs::Runs::empty, crate::proofs::Runs::longer, crate::proofs::Runs::code_in, crate::proofs::Runs::end_stops))]
    pub fn run_end(self, i: TokenNumber) -> TokenNumber
        requires { i.0 ≤ self.n.0 }
        ensures run { Run self.entry.codes.now self.entry.n.0 i.0 result.0 }
        ensures result_value { is_unary (code_at self.entry.codes.now self.entry.n.0 result.0) ≡ false }
    {
        for j in i.0..self.n.0 {
            if !levels::is_unary(self.codes[j]) {
                return TokenNumber(j);
            }
        }
        self.n
    }
}

// Whether a token is a primary by itself.
pub fn is_primary(c: u8) -> bool
    ensures { result ≡ is_primary c }
{
    c <= codes::BARE
}

// An entry of the order is the number of a token, plus this for a unary operator.
pub const UNARY: usize = 256;

// The second entry of a choice, which has no effect.
pub const FILLER: u16 = 255;
