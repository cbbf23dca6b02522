// The struct of a running selection, and how any bytes of it are read.
#![tactic(auto)]

ghost use Rattle.std.specs.Prelude.{◌≡◌, ◌≤◌, length, eqb};
ghost use Rattle.text.specs.Names.{macro_name};
ghost use Rattle.settings.specs.Table.{records, unpadded};
ghost use Rattle.progress.specs.Reading.{clip, in_range, is_setting, are_settings, used_of};

use groups::Selection;
use text::runs::Set;
use text::{names, runs};
use units::Offset;

// The lines so far: the selection after them, how many bytes and lines they were, whether the last had no LF (0 if it had one), and how
// many bytes of the settings are used. The settings that DEFINE lines made are in a buffer beside it.
// Stays: C keeps this struct between the calls, with a number for whether the last line had an LF and with the buffer beside it.
#[repr(C)]
#[derive(Clone, Copy)]
pub struct Running {
    pub selection: Selection,
    pub bytes: usize,
    pub fed: usize,
    pub ended: usize,
    pub used: usize,
}

// The largest numbers of groups, of bytes, of lines, and of operators in a line.
const MAX_GROUPS: usize = 16;

const MAX_FILE: usize = 65536;

const MAX_LINES: usize = 4096;

const MAX_COUNT: usize = 199;

// A number, but not above a limit.
fn clipped(limit: usize, n: usize) -> usize
    ensures value { result ≡ clip limit n }
    ensures upper_bound { result ≤ limit }
{
    n.min(limit)
}

// A running selection with no number above its limit.
pub fn read(x: Running) -> Running
    ensures { result ≡ in_range x }
{
    let s = x.selection;
    let fed = clipped(MAX_LINES, x.fed);
    let depth = clipped(MAX_GROUPS, s.depth);
    let count = clipped(MAX_COUNT * fed, s.count);
    Running {
        selection: Selection { depth, count, ..s },
        bytes: clipped(MAX_FILE, x.bytes),
        fed,
        ..x
    }
}

// Whether the name in a name field is that of a macro.
#[tactic(auto, using(text::proofs::Laws::span_fits, own::proofs::FieldNames::unpadded_length))]
fn has_macro_name(field: &[u8]) -> bool
    ensures { result ≡ eqb (macro_name (unpadded field.now)) (length (unpadded field.now)) }
{
    let (name, _) = field.split_at(runs::run_end(field, Offset(0), Set::NonZero).0);
    names::macro_name(name) == name.len()
}

// Whether a record is one that a DEFINE line can make.
#[tactic(auto, unfolding(crate::specs::Reading::is_setting))]
fn is_setting(r: &[u8]) -> bool
    requires { length r.now ≡ 128 }
    ensures { result ≡ is_setting r.now }
{
    settings::is_well_formed(r) && has_macro_name(&r[..64])
}

// Whether every record is one that a DEFINE line can make.
fn are_settings(b: &[u8]) -> bool
    ensures { result ≡ are_settings (records b.now) }
{
    b.chunks_exact(128).all(|r| is_setting(r))
}

// How many bytes of a buffer hold settings, if this many are said to: that many, or none.
#[tactic(auto, unfolding(crate::specs::Reading::used_of))]
pub fn used_of(b: &[u8; 8192], used: usize) -> usize
    ensures value { result ≡ used_of used b.now }
    ensures b_len { length b.now ≡ 8192 }
{
    if used % 128 == 0 && used <= b.len() && are_settings(&b[..used]) {
        used
    } else {
        0
    }
}
