// Symbols: operators and parentheses.
ghost use Rattle.std.specs.Prelude.{◌≡◌};
ghost use Rattle.lexeme.specs.Lexeme.{symbol_of};

use codes::{Lexeme, found};
use text::bytes;
use units::{Dialect, Offset, Reason};

// The symbol at the front of a text.
#[tactic(auto, using(std::proofs::lemmas::Bool::Decides::nat_tests, crate::proofs::Spellings::symbol_hit))]
pub fn symbol(s: &[u8], dialect: Dialect) -> Result<Lexeme, Reason>
    ensures { result ≡ symbol_of s.now dialect }
{
    match (bytes::byte_at(s, Offset(0)), bytes::byte_at(s, Offset(1))) {
        (b'(', _) => found(codes::OPEN, 1, 0),
        (b')', _) => found(codes::CLOSE, 1, 0),
        (b'?', _) => found(codes::QUESTION, 1, 0),
        (b':', _) => found(codes::COLON, 1, 0),
        (b'!', b'=') => found(codes::NOT_EQUAL, 2, 0),
        (b'!', _) => found(codes::NOT, 1, 0),
        (b'~', _) => found(codes::COMPLEMENT, 1, 0),
        (b'+', _) => found(codes::PLUS, 1, 0),
        (b'-', _) => found(codes::MINUS, 1, 0),
        (b'*', _) => found(codes::TIMES, 1, 0),
        (b'/', _) => found(codes::DIVIDE, 1, 0),
        (b'%', _) => found(codes::REMAINDER, 1, 0),
        (b'<', b'<') => found(codes::SHIFT_LEFT, 2, 0),
        (b'<', b'=') => found(codes::LESS_EQUAL, 2, 0),
        (b'<', _) => found(codes::LESS, 1, 0),
        (b'>', b'>') => found(codes::SHIFT_RIGHT, 2, 0),
        (b'>', b'=') => found(codes::GREATER_EQUAL, 2, 0),
        (b'>', _) => found(codes::GREATER, 1, 0),
        (b'=', b'=') => found(codes::EQUAL, 2, 0),
        (b'&', b'&') => found(codes::AND, 2, 0),
        (b'&', _) => found(codes::BIT_AND, 1, 0),
        (b'^', _) => found(codes::BIT_XOR, 1, 0),
        (b'|', b'|') => found(codes::OR_BARS, 2, 0),
        (b'|', _) => found(codes::BIT_OR, 1, 0),
        _ => Err(Reason::TokenBad),
    }
}
