// The levels of operators.
ghost use Rattle.std.specs.Prelude.{◌≡◌};
ghost use Rattle.codes.specs.Levels.{is_unary, is_equality, level_of};

// Whether a token is a unary operator.
#[tactic(auto, using(std::proofs::lemmas::Bool::Decides::nat_tests), unfolding(crate::specs::Levels::is_unary))]
pub fn is_unary(c: u8) -> bool
    ensures { result ≡ is_unary c }
{
    (crate::NOT..=crate::MINUS).contains(&c)
}

// Whether a token is an equality operator.
#[tactic(auto, using(std::proofs::lemmas::Bool::Decides::nat_tests), unfolding(crate::specs::Levels::is_equality))]
pub fn is_equality(c: u8) -> bool
    ensures { result ≡ is_equality c }
{
    matches!(c, crate::EQUAL | crate::NOT_EQUAL)
}

// The level of each code: 99 if it is no binary operator.
const LEVELS: [u8; 36] = [
    99, 99, 99, 99, 99, 99, 99, 99, 99, 99, 99, 99, 99, 99, 99, 99, 3, 3, 2, 2, 2, 4, 4, 5, 5, 5,
    5, 6, 6, 7, 8, 9, 10, 11, 12, 12,
];

// The level of a binary operator, 99 for any other token.
// Stays: the definition `level_of` of specs/, which may not change, gives 99, and the descent compares levels as numbers.
pub fn level_of(c: u8) -> u8
    ensures { result ≡ level_of c }
{
    LEVELS.get(usize::from(c)).copied().unwrap_or(99)
}
