// The stack of operands. Each operator takes its operands, the first of them at `at`, and leaves its result in their place.
ghost use Rattle.std.specs.Prelude.{◌≡◌, ◌+◌, ◌≤◌, ◌<◌, length, get_or};
ghost use Rattle.value.specs.Places.{Memory as Meant};
ghost use Rattle.value.specs.Lent.{strings_of};
ghost use Rattle.value.specs.Attributes.{unary_from, binary_from, choice_from};
ghost use Rattle.value.specs.Denote.{denote_attributes, denote_token};
ghost use Rattle.operands.specs.Stack.{NOTHING, count_at, RecordedAt, operand_at, Leaves};

use lookup::Value;
use value::forms::Token;
use value::{Attributes, Kind, Strings, forms};

// What fills room that no operand has taken yet.
pub const NOTHING: Attributes = Attributes {
    kind: Kind::Number,
    value: Ok(Value::Number(0)),
    count: 0,
};

// The operand at a place.
pub fn load(waiting: &[Attributes], at: usize) -> Attributes
    requires { at < length waiting.now }
    ensures { result ≡ get_or waiting.now at NOTHING }
{
    waiting[at]
}

// Puts an operand in a place.
pub fn store(waiting: &mut [Attributes], at: usize, a: Attributes)
    requires { at < length waiting.old }
    ensures { (m : Meant) → Leaves m waiting.old at (denote_attributes m a) waiting.new }
{
    waiting[at] = a;
}

// A unary operator takes the operand at `at`.
pub fn unary(waiting: &mut [Attributes], at: usize, o: Token)
    requires { (at < length waiting.old) × (count_at waiting.old at ≤ 200) }
    ensures { (m : Meant) → Leaves m waiting.old at (unary_from (denote_token o) (operand_at m waiting.old at)) waiting.new }
{
    let a = waiting[at];
    store(waiting, at, forms::of_unary(o, a));
}

// A binary operator takes the operands at `at` and behind it.
pub fn binary(waiting: &mut [Attributes], at: usize, s: Strings, o: Token)
    requires { (at + 1 < length waiting.old) × (count_at waiting.old at + count_at waiting.old (at + 1) ≤ 400) × RecordedAt waiting.old at × RecordedAt waiting.old (at + 1) }
    ensures { Leaves (strings_of s.entry) waiting.old at (binary_from (denote_token o) (operand_at (strings_of s.entry) waiting.old at) (operand_at (strings_of s.entry) waiting.old (at + 1))) waiting.new }
{
    let a = waiting[at];
    let b = waiting[at + 1];
    store(waiting, at, forms::of_binary(s, o, a, b));
}

// A choice takes the operands at `at` and the two behind it; `o` is the token of its `?`.
pub fn choice(waiting: &mut [Attributes], at: usize, o: Token)
    requires { (at + 2 < length waiting.old) × (count_at waiting.old at + count_at waiting.old (at + 1) + count_at waiting.old (at + 2) ≤ 600) }
    ensures { (m : Meant) → Leaves m waiting.old at (choice_from (denote_token o) (operand_at m waiting.old at) (operand_at m waiting.old (at + 1)) (operand_at m waiting.old (at + 2))) waiting.new }
{
    let c = waiting[at];
    let a = waiting[at + 1];
    let b = waiting[at + 2];
    store(waiting, at, forms::of_choice(o, c, a, b));
}
