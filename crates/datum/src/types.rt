// The datums, by their codes.
ghost use Rattle.std.specs.Prelude.{◌≡◌, ◌<◌, MatchResult};
ghost use Rattle.units.specs.Refusals.{refusal};
ghost use Rattle.units.specs.declared.Reason.TheVariants.{DatumUnknown};
ghost use Rattle.datum.specs.Encoding.{UINT64};
ghost use Rattle.datum.specs.Datums.{code_of};

use units::{Reason, Refusal};

// What a field takes.
#[derive(Clone, Copy, Debug, PartialEq, Eq)]
pub enum Datum {
    // a string or a wide string: VOID*
    Void,
    // 0 or 1, in one byte
    Boolean,
    // a number of one byte
    Uint8,
    // a number of two bytes
    Uint16,
    // a number of four bytes
    Uint32,
    // a number of eight bytes
    Uint64,
}

impl TryFrom<u8> for Datum {
    type Error = Refusal;

    ghost try_from_gives = { λ n r. MatchResult r (λ d. n ≡ code_of d) (λ e. (e ≡ refusal DatumUnknown) × (UINT64 < n)) };

    fn try_from(code: u8) -> Result<Datum, Refusal> {
        match code {
            0 => Ok(Datum::Void),
            1 => Ok(Datum::Boolean),
            2 => Ok(Datum::Uint8),
            3 => Ok(Datum::Uint16),
            4 => Ok(Datum::Uint32),
            5 => Ok(Datum::Uint64),
            _ => Err(Reason::DatumUnknown.into()),
        }
    }
}
