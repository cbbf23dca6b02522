// The numbers that a datum takes.
ghost use Rattle.std.specs.Prelude.{◌≡◌, ◌≤◌, ℕ, MatchResult};
ghost use Rattle.datum.specs.Encoding.{number_field};
ghost use Rattle.datum.specs.Datums.{Unfits, within};

use crate::types::Datum;
use units::{Reason, Refusal};

// The width of a datum's numbers in bytes, and the largest of them.
#[derive(Clone, Copy)]
pub struct Numbers {
    pub width: usize,
    pub largest: u64,
}

impl Numbers {
    // The numbers that the datum of a code takes.
    #[tactic(auto, using(crate::proofs::Fitting::within_limit), unfolding(crate::specs::Encoding::width_of, crate::specs::Encoding::limit_of))]
    pub fn of(code: u8) -> Result<Numbers, Refusal>
        ensures { MatchResult result (λ p. (p.width ≤ 8) × ((x : ℕ) → number_field code x ≡ within p.width p.largest x)) (Unfits (number_field code)) }
    {
        let (width, largest) = match Datum::try_from(code)? {
            Datum::Void => return Err(Reason::DatumKind.into()),
            Datum::Boolean => (1, 1),
            Datum::Uint8 => (1, u64::from(u8::MAX)),
            Datum::Uint16 => (2, u64::from(u16::MAX)),
            Datum::Uint32 => (4, u64::from(u32::MAX)),
            Datum::Uint64 => (8, u64::MAX),
        };
        Ok(Numbers { width, largest })
    }
}
