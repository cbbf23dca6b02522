// The dialect of a call.
ghost use Rattle.std.specs.Prelude.{◌≡◌};
ghost use Rattle.marshal.specs.Calls.{dialect_of};

use units::Dialect;

// The dialect that a number means: bit 0 is the edition, 1 for the old one; the other bits are ignored.
pub fn dialect_of(number: u8) -> Dialect
    ensures { result ≡ dialect_of number }
{
    Dialect {
        bars: false,
        old: number % 2 == 1,
    }
}
