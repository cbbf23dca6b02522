// The shape of a DEFINE line.
ghost use Rattle.std.specs.Prelude.{◌≡◌};
ghost use Rattle.text.specs.Runs.{span};
ghost use Rattle.text.specs.declared.runs.Set.TheVariants.{Blanks};
ghost use Rattle.define.specs.Settling.{Splits};

use text::runs::Set;
use text::{bytes, names, runs};
use units::Offset;

// The name of the macro, by its start and its length, which is not 0, and the start of the expression.
#[derive(Clone, Copy)]
pub struct Parts {
    pub name: Offset,
    pub len: usize,
    pub text: Offset,
}

// The largest number of bytes in a name.
const MAX_NAME: usize = 64;

// The parts of a line, if it has this shape. `first` is the first byte of the line that is no blank.
#[tactic(auto, using(crate::proofs::Shapes::shape_tests))]
pub fn split(line: &[u8], first: Offset) -> Option<Parts>
    requires { first.0 ≡ span Blanks line.now }
    ensures { Splits line.now result }
{
    let after = Offset(first.0 + 6);
    if !runs::has(Set::Blanks, bytes::byte_at(line, after)) {
        return None;
    }
    let name = runs::run_end(line, after, Set::Blanks);
    let len = names::macro_name(&line[name.0..]);
    if len == 0 || MAX_NAME < len {
        return None;
    }
    let equals = runs::run_end(line, Offset(name.0 + len), Set::Blanks);
    if bytes::byte_at(line, equals) != b'=' {
        return None;
    }
    Some(Parts {
        name,
        len,
        text: Offset(equals.0 + 1),
    })
}
