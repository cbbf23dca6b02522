// The place of a refusal, in the text after a word and in the whole line.
ghost use Rattle.std.specs.Prelude.{◌≡◌, ◌+◌, ◌^◌, ◌<◌};
ghost use Rattle.units.specs.Refusals.{fault_at, placed};
ghost use Rattle.text.specs.Bytes.{pick};
ghost use Rattle.condition.specs.Conditions.{offset_of, in_line};

use line::Condition;
use units::{Fault, Offset};

// A fault in a text that starts at this byte of its line: a place in the text becomes a place in the line.
pub fn moved(fault: Fault, start: Offset) -> Fault
    requires { start.0 + fault.at.0 < 2 ^ 64 }
    ensures { result ≡ fault_at fault.reason (pick (placed fault.reason) (start.0 + fault.at.0) 0) }
{
    if !fault.reason.is_placed() {
        return fault.reason.into();
    }
    Fault {
        reason: fault.reason,
        at: Offset(start.0 + fault.at.0),
    }
}

// A condition whose text starts at this byte of its line.
pub fn in_line(c: Result<Condition, Fault>, start: Offset) -> Result<Condition, Fault>
    requires { start.0 + offset_of c < 2 ^ 64 }
    ensures { result ≡ in_line start.0 c }
{
    match c {
        Ok(_) => c,
        Err(fault) => Err(moved(fault, start)),
    }
}
