// `!ifdef` and `!ifndef`: the name of one macro.
ghost use Rattle.std.specs.Prelude.{◌≡◌, ◌++◌, Ok};
ghost use Rattle.condition.specs.Conditions.{plain_name, used_name, name_at, decided, of_named, of_macro};

use crate::blanks;
use line::Condition;
use lookup::Settings;
use text::runs::Set;
use text::{bytes, names, parts, runs};
use units::{Dialect, Fault, Offset, Reason};

// The name of a macro at the front of a text: its start, its length, which is 0 if there is none, and the start of the text after it.
// Stays: an `Option<Named>` is no plainer, since `names::macro_name` gives the length 0 for no name and the tests read that number.
#[derive(Clone, Copy)]
pub struct Named {
    pub start: Offset,
    pub len: usize,
    pub after: Offset,
}

// No name.
const NO_NAME: Named = Named {
    start: Offset(0),
    len: 0,
    after: Offset(0),
};

// `NAME`.
fn plain_name(text: &[u8]) -> Named
    ensures { result ≡ plain_name text.now }
{
    let len = names::macro_name(text);
    Named {
        start: Offset(0),
        len,
        after: Offset(len),
    }
}

// `$(NAME)`.
#[tactic(auto, using(crate::proofs::Texts::used_inside))]
fn used_name(text: &[u8]) -> Named
    ensures { result ≡ used_name text.now }
{
    if bytes::byte_at(text, Offset(1)) != b'(' {
        return NO_NAME;
    }
    let len = names::macro_name(&text[2..]);
    if bytes::byte_at(text, Offset(2 + len)) != b')' {
        return NO_NAME;
    }
    Named {
        start: Offset(2),
        len,
        after: Offset(len + 3),
    }
}

// One of the two: `$(NAME)` in the old edition only.
#[tactic(auto, unfolding(crate::specs::Conditions::name_at))]
fn name_at(text: &[u8], dialect: Dialect) -> Named
    ensures { result ≡ name_at text.now dialect }
{
    let dollar = bytes::byte_at(text, Offset(0)) == b'$';
    if dollar && dialect.old {
        used_name(text)
    } else {
        plain_name(text)
    }
}

// Whether a name is in the table, or is not, as wanted.
fn decide(wanted: bool, found: bool) -> Condition
    ensures { Ok result ≡ decided wanted found }
{
    if wanted == found {
        Condition::Holds(0)
    } else {
        Condition::Fails(0)
    }
}

// The condition in a text with this name at its front.
#[tactic(auto, unfolding(crate::specs::Conditions::of_named))]
fn of_named(settings: Settings, wanted: bool, text: &[u8], n: Named) -> Result<Condition, Fault>
    ensures { result ≡ of_named (settings.entry.own.now ++ settings.entry.table.now) wanted text.now n }
{
    if n.len == 0 || !blanks::is_idle(text, n.after) {
        return Err(Reason::TextMalformed.into());
    }
    let name = parts::part(text, n.start, n.len);
    let found = settings.get(name).is_some();
    Ok(decide(wanted, found))
}

// `!ifdef` if `wanted` is true, `!ifndef` if it is false.
#[tactic(auto, using(crate::proofs::Texts::blanks_inside, crate::proofs::Texts::past_blanks), unfolding(crate::specs::Conditions::of_macro))]
pub fn of_macro(
    settings: Settings,
    wanted: bool,
    text: &[u8],
    dialect: Dialect,
) -> Result<Condition, Fault>
    ensures { result ≡ of_macro (settings.entry.own.now ++ settings.entry.table.now) wanted text.now dialect }
{
    if !blanks::is_spaced(text) {
        return Err(Reason::TextMalformed.into());
    }
    let first = runs::run_end(text, Offset(0), Set::Blanks);
    let rest = &text[first.0..];
    of_named(settings, wanted, rest, name_at(rest, dialect))
}
