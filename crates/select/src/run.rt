// A run over the lines of a file.
ghost use Rattle.std.specs.Prelude.{◌≡◌, true, ◌≤◌, ◌<◌, length};
ghost use Rattle.settings.specs.Table.{ordered};
ghost use Rattle.line.specs.Lines.{lines};
ghost use Rattle.groups.specs.Stack.{groups_of, Represents};
ghost use Rattle.select.specs.Select.{start as start_of};
ghost use Rattle.select.specs.Running.{ends, Runs};

use crate::{Selected, step};
use define::settle;
use groups::{Selection, rules};
use line::{cut, word};
use lookup::Settings;
use units::{Dialect, Fault, LineNumber, Offset, Reason, Refusal};

// A selection before the first line.
fn fresh() -> Selection
    ensures { Represents result start_of }
{
    Selection {
        depth: 0,
        count: 0,
        states: 0,
        lines: [0; 16],
    }
}

// The answer after the last of n lines: the selection is accepted if no group is open, else refused at the innermost open `!if`.
pub fn finish(x: Selection, n: LineNumber) -> Result<Selected, Refusal>
    requires { x.depth ≤ 16 }
    ensures { result ≡ ends n.0 (groups_of x) x.count }
{
    let depth = x.depth;
    if depth == 0 {
        return Ok(Selected {
            lines: n,
            count: x.count,
        });
    }
    let last = depth - 1;
    let line = LineNumber(usize::from(x.lines[last]));
    Err(Fault::from(Reason::FileUnfinished).in_line(line))
}

// Marks the lines of a file in order, up to the first that is refused.
pub fn run(
    marks: &mut [u8],
    file: &[u8],
    table: &[u8],
    dialect: Dialect,
) -> Result<Selected, Refusal>
    requires { (ordered table.now ≡ true) × (length (lines file.now) ≤ length marks.old) × (length (lines file.now) ≤ 4096) }
    ensures { Runs file.now table.now marks.old result marks.new dialect }
{
    let mut x = fresh();
    // the settings that lines so far made: the first `used` bytes
    let mut own = [0u8; 8192];
    let mut used: usize = 0;
    // the mark of plain lines in the current state
    let mut mark = rules::KEPT;
    let mut at = Offset(0);
    let mut n = LineNumber(0);
    // Stays: a `for` over lines would be no plainer, since the place of each line comes from cutting the one before it.
    while at.0 < file.len() {
        let cut = cut::next(file, at);
        let text = &file[at.0..cut.end.0];
        let i = n.0;
        let line = LineNumber(i + 1);
        if step::is_passed(text) {
            marks[i] = mark;
        } else if step::is_defining(mark, text) {
            // Stays: with `map_err` and `?` the proof does not close, since what the closure gives stays out of reach there (below too).
            let defined = match settle::define(&mut own, used, table, text, dialect) {
                Ok(defined) => defined,
                Err(fault) => return Err(fault.in_line(line)),
            };
            marks[i] = rules::DEFINED;
            used = defined.used;
            x = step::counted(x, defined.count);
        } else {
            let settings = Settings {
                own: &own[..used],
                table,
            };
            let head = word::read_head(text);
            let step = match step::step(settings, line, x, text, head, dialect) {
                Ok(step) => step,
                Err(fault) => return Err(fault.in_line(line)),
            };
            marks[i] = step.mark;
            x = step.next;
            mark = step::plain_mark(x);
        }
        n = line;
        at = cut.after;
    }
    finish(x, n)
}
