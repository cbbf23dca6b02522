// A piece of a file, fed to a running selection, and the end of the file.
ghost use Rattle.std.specs.Prelude.{◌≡◌, false, List, ℕ};
ghost use Rattle.following.specs.Feeding.{feeding, ending};
ghost use Rattle.progress.specs.Reading.{progress_in, lines_of};
ghost use Rattle.follow.specs.Outcomes.{Gives, ending_shown};

use crate::{Fed, judging};
use line::cut;
use progress::Running;
use select::{Selected, run};
use units::{Dialect, Fault, LineNumber, Offset, Reason, Refusal};

// The largest number of bytes and of lines in a file.
const MAX_FILE: usize = 65536;

const MAX_LINES: usize = 4096;

// Feeds one line, with its LF if it has one, to a running selection whose settings are in a buffer. A line that is refused leaves both.
pub fn feed(
    x: Running,
    own: &mut [u8; 8192],
    table: &[u8],
    piece: &[u8],
    dialect: Dialect,
) -> Result<Fed, Refusal>
    ensures { Gives own.old result own.new (feeding table.now (progress_in x own.old) piece.now dialect) }
{
    if !settings::is_well_formed(table) {
        return Err(Reason::TableMalformed.into());
    }
    let len = piece.len();
    if len == 0 {
        return Err(Reason::PieceMalformed.into());
    }
    let cut = cut::next(piece, Offset(0));
    if cut.after.0 < len || x.ended != 0 {
        return Err(Reason::PieceMalformed.into());
    }
    let y = progress::read(x);
    let line = LineNumber(y.fed + 1);
    if MAX_FILE - y.bytes < len {
        return Err(Fault::from(Reason::FileLong).in_line(line));
    }
    if MAX_LINES <= y.fed {
        return Err(Fault::from(Reason::LinesMany).in_line(line));
    }
    let text = &piece[..cut.end.0];
    // Stays: with `map_err` and `?` the proof does not close, since what the closure gives stays out of reach there.
    let judged = match judging::judge(y.selection, x.used, own, table, line, text, dialect) {
        Ok(judged) => judged,
        Err(fault) => return Err(fault.in_line(line)),
    };
    Ok(Fed {
        next: Running {
            selection: judged.next,
            bytes: y.bytes + len,
            fed: y.fed + 1,
            ended: cut.after.0 - len,
            used: judged.used,
        },
        mark: judged.mark,
    })
}

// The answer to the lines so far, if the file ends here.
pub fn end(x: Running, table: &[u8]) -> Result<Selected, Refusal>
    ensures { (b : List ℕ) → result ≡ ending_shown (lines_of x) (ending table.now (progress_in x b)) }
{
    if !settings::is_well_formed(table) {
        return Err(Reason::TableMalformed.into());
    }
    let y = progress::read(x);
    run::finish(y.selection, LineNumber(y.fed))
}
