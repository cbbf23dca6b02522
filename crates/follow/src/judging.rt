// A line that the limits of a file allow, in a running selection.
ghost use Rattle.std.specs.Prelude.{◌≡◌, true, ℕ, ◌^◌, ◌≤◌, ◌<◌};
ghost use Rattle.settings.specs.Table.{ordered};
ghost use Rattle.groups.specs.Stack.{denote_selection};
ghost use Rattle.select.specs.Step.{step as step_of};
ghost use Rattle.progress.specs.Reading.{own_in};
ghost use Rattle.follow.specs.Outcomes.{Defining, Judges};

use crate::Judged;
use define::settle;
use groups::{Selection, rules};
use line::word;
use lookup::Settings;
use select::step;
use units::{Dialect, Fault, LineNumber};

// A line that sets a macro.
fn define(
    x: Selection,
    used: usize,
    own: &mut [u8; 8192],
    table: &[u8],
    line: &[u8],
    dialect: Dialect,
) -> Result<Judged, Fault>
    requires { Defining x table.now line.now }
    ensures { (n : ℕ) → Judges own.old result own.new (step_of table.now n (denote_selection x (own_in used own.old)) line.now dialect) }
{
    let held = progress::used_of(own, used);
    let defined = settle::define(own, held, table, line, dialect)?;
    Ok(Judged {
        next: step::counted(x, defined.count),
        used: defined.used,
        mark: rules::DEFINED,
    })
}

// Line n of a file. The settings are looked at only if the line's outcome may depend on them.
pub fn judge(
    x: Selection,
    used: usize,
    own: &mut [u8; 8192],
    table: &[u8],
    n: LineNumber,
    line: &[u8],
    dialect: Dialect,
) -> Result<Judged, Fault>
    requires { (ordered table.now ≡ true) × (n.0 < 65536) × (x.depth ≤ 16) × (x.count < 2 ^ 63) }
    ensures { Judges own.old result own.new (step_of table.now n.0 (denote_selection x (own_in used own.old)) line.now dialect) }
{
    let mark = step::plain_mark(x);
    if step::is_passed(line) {
        return Ok(Judged {
            next: x,
            used,
            mark,
        });
    }
    if step::is_defining(mark, line) {
        return define(x, used, own, table, line, dialect);
    }
    let held = progress::used_of(own, used);
    let settings = Settings {
        own: &own[..held],
        table,
    };
    let step = step::step(settings, n, x, line, word::read_head(line), dialect)?;
    Ok(Judged {
        next: step.next,
        used,
        mark: step.mark,
    })
}
