// The recursive descent: a level of the grammar calls tighter ones, and a primary in parentheses the whole expression. It reads the codes
// of the tokens and writes the postfix order: operands before their operator. It reads no values, so that a call needs little stack.
ghost use Rattle.std.specs.Prelude.{◌≡◌, ◌+◌, ◌-◌, ◌≤◌, ◌<◌, set, length};
ghost use Rattle.grammar.specs.Grammar.{level as level_at, expression};
ghost use Rattle.grammar.specs.Parse.{find};
ghost use Rattle.syntax.specs.Order.{WritesPostfix};
ghost use Rattle.syntax.specs.Descent.{Fit, Appends, AppendsRun};

use crate::tokens;
use crate::tokens::Codes;
use codes::levels;
use units::TokenNumber;

// The order that is being written: the caller's array, and the number of its entries that are written.
#[derive(Drop)]
struct Postfix<'a> {
    entries: &'a mut [u16; 200],
    filled: usize,
}

impl<'a> Postfix<'a> {
    // Appends an entry.
    fn push(&mut self, entry: u16)
        requires { self.old.filled < 200 }
        ensures entries { self.new.entries.now ≡ set self.old.entries.now self.old.filled entry }
        ensures filled { self.new.filled ≡ self.old.filled + 1 }
        ensures same { self.new.entries.ghost_name ≡ self.old.entries.ghost_name }
    {
        self.entries[self.filled] = entry;
        self.filled += 1;
    }

    // Appends the entries of the unary operators from token i to token j, the last one first.
    fn push_run(&mut self, i: TokenNumber, j: TokenNumber)
        requires { (i.0 ≤ j.0) × (j.0 ≤ 200) × (self.old.filled + (j.0 - i.0) ≤ 200) × (length self.old.entries.now ≡ 200) }
        ensures appended { AppendsRun i.0 j.0 self.old.filled self.old.entries.now self.new.filled self.new.entries.now }
        ensures same { self.new.entries.ghost_name ≡ self.old.entries.ghost_name }
    {
        for at in (i.0..j.0).rev() {
            self.push((tokens::UNARY + at) as u16);
        }
    }
}

// The expression from token i on: an operand of level 12, or a choice.
#[cycle(level_primary_unary_whole)]
fn whole(order: &mut Postfix, codes: Codes, i: TokenNumber) -> Result<TokenNumber, TokenNumber>
    requires { Fit codes.n.0 i.0 order.old.filled order.old.entries.now }
    ensures part { Appends codes.entry.codes.now codes.entry.n.0 (find expression i.0) i.0 order.old.filled order.old.entries.now result order.new.filled order.new.entries.now }
    ensures same { order.new.entries.ghost_name ≡ order.old.entries.ghost_name }
{
    let c = level(order, codes, 12, i)?;
    if codes.code_at(c) != codes::QUESTION {
        return Ok(c);
    }
    let a = whole(order, codes, TokenNumber(c.0 + 1))?;
    if codes.code_at(a) != codes::COLON {
        return Err(a);
    }
    let b = whole(order, codes, TokenNumber(a.0 + 1))?;
    order.push(c.0 as u16);
    order.push(tokens::FILLER);
    Ok(b)
}

// An operand of level k, by precedence climbing. If the operator after the operand has a level looser than `low` and not looser than k, its
// right operand is of the next tighter level. Levels at which nothing extends the operand are skipped.
#[cycle(level_primary_unary_whole)]
fn level(
    order: &mut Postfix,
    codes: Codes,
    k: usize,
    i: TokenNumber,
) -> Result<TokenNumber, TokenNumber>
    requires { Fit codes.n.0 i.0 order.old.filled order.old.entries.now × (1 ≤ k) × (k ≤ 12) }
    ensures part { Appends codes.entry.codes.now codes.entry.n.0 (find (level_at k) i.0) i.0 order.old.filled order.old.entries.now result order.new.filled order.new.entries.now }
    ensures same { order.new.entries.ghost_name ≡ order.old.entries.ghost_name }
{
    let mut at = unary(order, codes, i)?;
    let mut low: usize = 1;
    loop {
        let o = codes.code_at(at);
        let l = usize::from(levels::level_of(o));
        if l <= low || k < l {
            return Ok(at);
        }
        low = l - 1;
        let next = level(order, codes, low, TokenNumber(at.0 + 1))?;
        order.push(at.0 as u16);
        at = next;
    }
}

// An operand of level 1: a run of unary operators and a primary. The entries of the operators come after those of the primary.
#[cycle(level_primary_unary_whole)]
fn unary(order: &mut Postfix, codes: Codes, i: TokenNumber) -> Result<TokenNumber, TokenNumber>
    requires { Fit codes.n.0 i.0 order.old.filled order.old.entries.now }
    ensures part { Appends codes.entry.codes.now codes.entry.n.0 (find (level_at 1) i.0) i.0 order.old.filled order.old.entries.now result order.new.filled order.new.entries.now }
    ensures same { order.new.entries.ghost_name ≡ order.old.entries.ghost_name }
{
    let j = codes.run_end(i);
    let next = primary(order, codes, j)?;
    order.push_run(i, j);
    Ok(next)
}

#[cycle(level_primary_unary_whole)]
fn primary(order: &mut Postfix, codes: Codes, i: TokenNumber) -> Result<TokenNumber, TokenNumber>
    requires { Fit codes.n.0 i.0 order.old.filled order.old.entries.now }
    ensures part { Appends codes.entry.codes.now codes.entry.n.0 (find (level_at 0) i.0) i.0 order.old.filled order.old.entries.now result order.new.filled order.new.entries.now }
    ensures same { order.new.entries.ghost_name ≡ order.old.entries.ghost_name }
{
    let o = codes.code_at(i);
    if tokens::is_primary(o) {
        order.push(i.0 as u16);
        return Ok(TokenNumber(i.0 + 1));
    }
    if o != codes::OPEN {
        return Err(i);
    }
    let a = whole(order, codes, TokenNumber(i.0 + 1))?;
    if codes.code_at(a) != codes::CLOSE {
        return Err(a);
    }
    Ok(TokenNumber(a.0 + 1))
}

// Writes the order of the expression that starts at the first token: the number of entries written and the token after the
// expression, or the token at which parsing fails.
pub fn write_postfix(
    order: &mut [u16; 200],
    codes: &[u8; 200],
    n: TokenNumber,
) -> Result<(usize, TokenNumber), TokenNumber>
    requires { (n.0 ≤ 200) × (length order.old ≡ 200) }
    ensures { WritesPostfix codes.now n.0 result order.new }
{
    let mut postfix = Postfix {
        entries: order,
        filled: 0,
    };
    let end = whole(&mut postfix, Codes { codes, n }, TokenNumber(0))?;
    Ok((postfix.filled, end))
}
