// A file cut into its lines.
ghost use Rattle.std.specs.Prelude.{◌≡◌, ◌+◌, ◌≤◌, ◌<◌, length, drop, eqb};
ghost use Rattle.std.specs.List.{count_by, position};
ghost use Rattle.text.specs.Bytes.{byte};
ghost use Rattle.text.specs.Runs.{span};
ghost use Rattle.text.specs.declared.runs.Set.TheVariants.{NotLineFeed};
ghost use Rattle.line.specs.Lines.{lines};
ghost use Rattle.line.specs.Cutting.{line_end, opened, Cuts};

use text::runs;
use text::runs::Set;
use units::{LineNumber, Offset};

// The end of a line, and the start of the next one: at the end of the file or past it if there is none.
#[derive(Clone, Copy)]
pub struct Cut {
    pub end: Offset,
    pub after: Offset,
}

// The end of the line that starts at `from` and has its LF, or else the end of the file, at `lf`. A CR of this line directly before the LF
// is dropped; a CR at the end of the file is kept.
#[tactic(auto, using(crate::proofs::FirstLine::line_ends))]
fn line_end(file: &[u8], from: Offset, lf: Offset) -> Offset
    requires { lf.0 ≤ length file.now }
    ensures { result.0 ≡ line_end file.now from.0 lf.0 }
{
    // the test for the end of the file is the last one, since few lines reach it
    if from.0 < lf.0 && file[lf.0 - 1] == b'\r' && lf.0 < file.len() {
        Offset(lf.0 - 1)
    } else {
        lf
    }
}

// The place of the first LF in a part of a file.
fn first_lf(part: &[u8]) -> Option<usize>
    ensures { result ≡ position (λ b. eqb b (byte "\n")) part.now }
{
    part.iter().position(|b| *b == b'\n')
}

// The place of the first LF from a byte on, or the end of the file. Eight bytes per turn, so that the cost of the loop is shared by eight.
fn lf_from(file: &[u8], from: Offset) -> Offset
    requires { from.0 ≤ length file.now }
    ensures { result.0 ≡ from.0 + span NotLineFeed (drop from.0 file.now) }
{
    let mut at = from.0;
    for eight in file[from.0..].chunks_exact(8) {
        if let Some(k) = first_lf(eight) {
            return Offset(at + k);
        }
        at += 8;
    }
    runs::run_end(file, Offset(at), Set::NotLineFeed)
}

// The line that starts at a byte. Out of line, so that the loop over the lines of a file keeps its registers.
#[inline(never)]
pub fn next(file: &[u8], from: Offset) -> Cut
    requires { from.0 < length file.now }
    ensures { Cuts file.now from.0 result }
{
    let lf = lf_from(file, from);
    let end = line_end(file, from, lf);
    // past the end if there is no LF, so that no line starts there and no caller needs a case for it
    let after = Offset(lf.0 + 1);
    Cut { end, after }
}

// Whether bytes follow the last LF.
#[tactic(auto, using(crate::proofs::Counting::opened_some, crate::proofs::Counting::opened_none))]
fn is_open(file: &[u8]) -> bool
    ensures { result ≡ opened file.now (length file.now) }
{
    file.last().is_some_and(|b| *b != b'\n')
}

// The number of bytes in one block: a multiple of 32, and so small that a u8 can count the LFs.
const BLOCK: usize = 224;

// The number of LFs in a block. The loop has no early exit and a u8 as its counter, so that it vectorises with a byte per lane.
// Stays: by `filter` and `count`, whose counter is wider, it does not vectorise and takes some forty times as long.
fn block_lfs(block: &[u8]) -> u8
    requires { length block.now ≤ 224 }
    ensures { result ≡ count_by (λ b. eqb b (byte "\n")) block.now }
{
    let mut lfs: u8 = 0;
    for b in block {
        if *b == b'\n' {
            lfs += 1;
        }
    }
    lfs
}

// The number of lines of a file, by its LFs.
#[tactic(auto, using(crate::proofs::Counting::line_count, crate::proofs::Counting::none_counted))]
pub fn count(file: &[u8]) -> LineNumber
    ensures { result.0 ≡ length (lines file.now) }
{
    let mut n: usize = 0;
    for block in file.chunks(BLOCK) {
        n += usize::from(block_lfs(block));
    }
    LineNumber(n + usize::from(is_open(file)))
}
