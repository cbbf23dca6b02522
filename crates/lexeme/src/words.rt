// Runs that start with a letter or `_`: PCD names, wide strings, words and bare words.
ghost use Rattle.std.specs.Prelude.{◌≡◌};
ghost use Rattle.text.specs.Runs.{span};
ghost use Rattle.text.specs.declared.runs.Set.TheVariants.{Word};
ghost use Rattle.codes.specs.Spellings.{words};
ghost use Rattle.lexeme.specs.Lexeme.{spelled, is_wide, word_of};

use crate::quoted;
use codes::{Lexeme, found};
use text::runs::Set;
use text::{names, runs};
use units::{Dialect, Offset, Reason};

// An operator word or a truth word.
#[tactic(auto, using(crate::proofs::Spellings::word_reads))]
fn spelled_word(w: &[u8]) -> Result<Lexeme, Reason>
    ensures { result ≡ spelled words w.now }
{
    match w {
        b"TRUE" | b"True" | b"true" => found(codes::TRUTH, w.len(), 1),
        b"FALSE" | b"False" | b"false" => found(codes::TRUTH, w.len(), 0),
        b"NOT" | b"not" => found(codes::NOT, w.len(), 0),
        b"LT" => found(codes::LESS, w.len(), 0),
        b"LE" => found(codes::LESS_EQUAL, w.len(), 0),
        b"GT" => found(codes::GREATER, w.len(), 0),
        b"GE" => found(codes::GREATER_EQUAL, w.len(), 0),
        b"EQ" => found(codes::EQUAL, w.len(), 0),
        b"NE" => found(codes::NOT_EQUAL, w.len(), 0),
        b"AND" | b"and" => found(codes::AND, w.len(), 0),
        b"XOR" | b"xor" => found(codes::XOR, w.len(), 0),
        b"OR" | b"or" => found(codes::OR, w.len(), 0),
        _ => Err(Reason::TokenBad),
    }
}

// Whether a run of n bytes is `L`, and a quote follows.
#[tactic(auto, using(std::proofs::lemmas::Bool::Decides::nat_tests), unfolding(crate::specs::Lexeme::is_wide))]
fn is_wide(n: usize, s: &[u8]) -> bool
    ensures { result ≡ is_wide s.now n }
{
    n == 1 && matches!(s, [b'L', b'"' | b'\'', ..])
}

// The token of the run at the front, which starts with a letter or `_`. `after` says whether the token before is an equality operator.
#[tactic(auto, using(std::proofs::lemmas::Bool::Decides::nat_tests, crate::proofs::Spellings::wide_inside), unfolding(crate::specs::Lexeme::word_of))]
pub fn word(after: bool, s: &[u8], dialect: Dialect) -> Result<Lexeme, Reason>
    ensures { result ≡ word_of (span Word s.now) after s.now dialect }
{
    let pcd = names::pcd_name(s);
    if 0 < pcd {
        return found(codes::PCD, pcd, 0);
    }
    let n = runs::run_end(s, Offset(0), Set::Word).0;
    if is_wide(n, s) {
        return quoted::string(codes::WIDE, Offset(1), s);
    }
    match spelled_word(&s[..n]) {
        Err(_) if after && dialect.old => found(codes::BARE, n, 0),
        spelled => spelled,
    }
}
