// The attributes of an expression from those of its operands, form by form.
ghost use Rattle.std.specs.Prelude.{◌≡◌, ◌+◌, ◌-◌, ◌%◌, ◌^◌, ◌<◌, length, ◌++◌};
ghost use Rattle.text.specs.Bytes.{pick};
ghost use Rattle.lookup.specs.Setting.{value_of};
ghost use Rattle.value.specs.Places.{Memory as Meant, in_expression};
ghost use Rattle.value.specs.Lent.{memory_of, strings_of};
ghost use Rattle.value.specs.Values.{denote_value, denote_result, setting_of, RecordedResult};
ghost use Rattle.value.specs.Attributes.{valued, primary_of, unary_from, binary_from, first_arm, choice_from};
ghost use Rattle.value.specs.Denote.{denote_attributes, denote_token};

use crate::values::Operator;
use crate::{Attributes, Memory, Strings, kinds, values};
use lookup::{Home, Place, TextKind, Value};
use text::parts;
use units::{Fault, Offset};

// A token in the arrays of the scanner.
#[derive(Clone, Copy)]
pub struct Token {
    pub code: u8,
    pub start: u16,
    pub len: u16,
    pub value: u64,
}

// The place of a token.
pub fn place(k: Token) -> Offset
    ensures result_value { result.0 ≡ k.start }
    ensures result_bound { result.0 < 65536 }
{
    Offset(usize::from(k.start))
}

// An operator by its token.
impl From<Token> for Operator {
    ghost from_gives = { λ k o. (o.code ≡ k.code) × (o.at.0 ≡ k.start) };

    fn from(k: Token) -> Operator {
        Operator {
            code: k.code,
            at: place(k),
        }
    }
}

// The setting under the name in a token.
pub fn named(m: Memory, k: Token) -> Option<Value>
    ensures { result ≡ setting_of (memory_of m.entry) (denote_token k) }
{
    let from = place(k).0;
    let len = usize::from(k.len);
    let name = if k.code == codes::MACRO {
        parts::part(m.expr, Offset(from + 2), len.saturating_sub(3))
    } else {
        parts::part(m.expr, Offset(from), len)
    };
    m.settings.get(name)
}

// The attributes of a primary with this value.
fn plain(value: Value) -> Attributes
    ensures { (m : Meant) → denote_attributes m result ≡ valued (denote_value m value) }
{
    Attributes {
        kind: value.into(),
        value: Ok(value),
        count: 0,
    }
}

// The attributes of a name: those of its setting's value.
fn of_name(m: Memory, k: Token) -> Attributes
    ensures { denote_attributes (memory_of m.entry) result ≡ valued (denote_value (memory_of m.entry) (value_of (setting_of (memory_of m.entry) (denote_token k)))) }
{
    plain(lookup::value_of(named(m, k)))
}

// The place of a string in a token: after `before` bytes, with as many bytes fewer than the token as `around`.
fn inner(k: Token, before: usize, around: usize) -> Place
    requires { before < 3 }
    ensures { result ≡ in_expression (k.start + before) (k.len - around) }
{
    Place {
        home: Home::Expression,
        start: Offset(place(k).0 + before),
        len: usize::from(k.len).saturating_sub(around),
    }
}

// The attributes of a primary.
#[tactic(auto, unfolding(crate::specs::Values::primary_value))]
pub fn of_primary(m: Memory, k: Token) -> Attributes
    ensures { denote_attributes (memory_of m.entry) result ≡ primary_of (memory_of m.entry) (denote_token k) }
{
    match k.code {
        codes::STRING => plain(Value::Text(TextKind::String, inner(k, 1, 2))),
        codes::WIDE => plain(Value::Text(TextKind::Wide, inner(k, 2, 3))),
        codes::BARE => plain(Value::Text(TextKind::String, inner(k, 0, 0))),
        codes::MACRO | codes::PCD => of_name(m, k),
        _ => plain(Value::Number(k.value)),
    }
}

// The attributes of a unary operator's result.
pub fn of_unary(o: Token, a: Attributes) -> Attributes
    requires { a.count + 1 < 2 ^ 64 }
    ensures { (m : Meant) → denote_attributes m result ≡ unary_from (denote_token o) (denote_attributes m a) }
{
    Attributes {
        kind: kinds::of_unary(o.start, a.kind),
        value: values::unary(o.into(), a.value),
        count: a.count + 1,
    }
}

// The attributes of a binary operator's result.
#[tactic(auto, unfolding(crate::specs::Values::binary_value))]
pub fn of_binary(s: Strings, o: Token, a: Attributes, b: Attributes) -> Attributes
    requires { (a.count + b.count + 1 < 2 ^ 64) × RecordedResult a.value × RecordedResult b.value }
    ensures { denote_attributes (strings_of s.entry) result ≡ binary_from (denote_token o) (denote_attributes (strings_of s.entry) a) (denote_attributes (strings_of s.entry) b) }
{
    let skip = values::skips(o.code, a.value);
    Attributes {
        kind: kinds::of_binary(o.code, o.start, a.kind, b.kind),
        value: values::binary(s, o.into(), skip, a.value, b.value),
        count: a.count + if skip { 0 } else { b.count } + 1,
    }
}

// Whether a choice whose test has this value takes its first arm.
fn first_arm(v: Result<Value, Fault>) -> bool
    ensures { (m : Meant) → result ≡ first_arm (denote_result m v) }
{
    matches!(v, Ok(Value::Number(x)) if x != 0)
}

// The attributes of a choice; `o` is the token of its `?`.
pub fn of_choice(o: Token, c: Attributes, a: Attributes, b: Attributes) -> Attributes
    requires { c.count + a.count + b.count + 1 < 2 ^ 64 }
    ensures { (m : Meant) → denote_attributes m result ≡ choice_from (denote_token o) (denote_attributes m c) (denote_attributes m a) (denote_attributes m b) }
{
    let arm = if first_arm(c.value) { a.count } else { b.count };
    Attributes {
        kind: kinds::of_choice(o.start, c.kind, a.kind, b.kind),
        value: values::choice(o.into(), c.value, a.value, b.value),
        count: c.count + arm + 1,
    }
}
