// The bytes of one PCD data field: a number, a string or a wide string at the front of the caller's buffer, or a refusal.
#![tactic(auto)]

mod sizes;
mod store;
pub mod types;

ghost use Rattle.std.specs.Prelude.{◌≡◌, ℕ, List, MatchResult};
ghost use Rattle.datum.specs.Encoding.{bytes, terminated, widened, number_field, string_field, fitted, Writes};
ghost use Rattle.datum.specs.Datums.{Unfits};

use sizes::Numbers;
use text::copies;
use types::Datum;
use units::{Reason, Refusal};

// Writes the lowest bytes of a number, the lowest first.
pub fn number(buffer: &mut [u8], datum: u8, x: u64) -> Result<usize, Refusal>
    ensures { Writes (fitted (number_field datum x) buffer.old) result buffer.new }
{
    let Numbers { width, largest } = Numbers::of(datum)?;
    if largest < x {
        return Err(Reason::DatumRange.into());
    }
    if buffer.len() < width {
        return Err(Reason::BufferShort.into());
    }
    copies::copy(&mut buffer[..width], &x.to_le_bytes()[..width]);
    Ok(width)
}

// Refuses the code of a datum that takes no strings.
fn check_string(datum: u8) -> Result<(), Refusal>
    ensures { MatchResult result (λ _. (s : List ℕ) → string_field datum s ≡ bytes s) (Unfits (string_field datum)) }
{
    if Datum::try_from(datum)? != Datum::Void {
        return Err(Reason::DatumKind.into());
    }
    Ok(())
}

// Writes a string and its zero.
pub fn string(buffer: &mut [u8], datum: u8, s: &[u8]) -> Result<usize, Refusal>
    ensures { Writes (fitted (string_field datum (terminated s.now)) buffer.old) result buffer.new }
{
    check_string(datum)?;
    if buffer.len() <= s.len() {
        return Err(Reason::BufferShort.into());
    }
    store::put_string(buffer, s);
    Ok(s.len() + 1)
}

// Writes a wide string and its two zeros. The test halves the buffer's length, since the doubled length of the string may overflow `usize`.
// Stays: one function for both, by the width of a byte's place, would be no plainer, since a string is copied whole and a wide one spread.
pub fn wide(buffer: &mut [u8], datum: u8, s: &[u8]) -> Result<usize, Refusal>
    ensures { Writes (fitted (string_field datum (widened s.now)) buffer.old) result buffer.new }
{
    check_string(datum)?;
    if buffer.len() / 2 <= s.len() {
        return Err(Reason::BufferShort.into());
    }
    store::put_wide(buffer, s);
    Ok(2 * (s.len() + 1))
}
