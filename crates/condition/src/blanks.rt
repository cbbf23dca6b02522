// Blanks and comments: before an argument, after it, and in place of one.
ghost use Rattle.std.specs.Prelude.{◌≡◌, drop};
ghost use Rattle.condition.specs.Conditions.{spaced, idle, of_nothing};

use line::Condition;
use text::runs::Set;
use text::{bytes, runs};
use units::{Fault, Offset, Reason};

// Whether a blank follows the word directly.
pub fn is_spaced(text: &[u8]) -> bool
    ensures { result ≡ spaced text.now }
{
    runs::has(Set::Blanks, bytes::byte_at(text, Offset(0)))
}

// Whether only blanks and an optional comment follow.
#[tactic(auto, using(crate::proofs::Texts::idle_past, crate::proofs::Texts::idle_by_byte))]
pub fn is_idle(text: &[u8], from: Offset) -> bool
    ensures { result ≡ idle (drop from.0 text.now) }
{
    let end = runs::run_end(text, from, Set::Blanks);
    matches!(&text.get(end.0), None | Some(b'#'))
}

// `!else` and `!endif`.
pub fn of_nothing(text: &[u8]) -> Result<Condition, Fault>
    ensures { result ≡ of_nothing text.now }
{
    if is_idle(text, Offset(0)) {
        Ok(Condition::Holds(0))
    } else {
        Err(Reason::TextMalformed.into())
    }
}
