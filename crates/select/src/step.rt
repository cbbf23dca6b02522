// One line of a selection.
ghost use Rattle.std.specs.Prelude.{◌≡◌, true, false, ◌&&◌, List, ◌+◌, ◌^◌, ◌≤◌, ◌<◌, length, eqb, leb};
ghost use Rattle.line.specs.Cutting.{ReadsHead};
ghost use Rattle.line.specs.Directives.{is_define, directive_of};
ghost use Rattle.line.specs.declared.Directive.TheVariants.{Plain};
ghost use Rattle.own.specs.Own.{Own, records_of};
ghost use Rattle.groups.specs.Rules.{KEPT};
ghost use Rattle.condition.specs.Conditions.{count_of};
ghost use Rattle.groups.specs.Groups.{innermost};
ghost use Rattle.groups.specs.Stack.{groups_of, denote_selection, Meets};
ghost use Rattle.select.specs.Step.{step as step_of};
ghost use Rattle.select.specs.Running.{MarksPlain, counted_more};

use condition::places;
use groups::{Plan, Selection, Step, rules, stack};
use line::{Condition, Head, word};
use lookup::Settings;
use units::{Dialect, Fault, LineNumber, Reason};

// The largest number of bytes in a line, without its end.
const MAX_LINE: usize = 1024;

// The number of operators that a condition applied.
fn count_of(c: Result<Condition, Fault>) -> usize
    ensures { result ≡ count_of c }
{
    match c {
        Ok(Condition::Holds(n) | Condition::Fails(n)) => n,
        Err(_) => 0,
    }
}

// Whether a line is plain, sets no macro and is not too long, by its length and its first byte that is no blank: then it does not change the
// selection and needs only its mark.
pub fn is_passed(line: &[u8]) -> bool
    ensures { result ≡ true → (length line.now ≤ 1024) × (directive_of line.now ≡ Plain) × (is_define line.now ≡ false) }
{
    line.len() <= MAX_LINE && word::is_other(line)
}

// The mark of a plain line in a selection.
pub fn plain_mark(x: Selection) -> u8
    ensures { MarksPlain x result }
{
    rules::plain_mark(stack::innermost(x))
}

// Whether a line that is not too long sets a macro, by its first word and by the mark of plain lines.
pub fn is_defining(mark: u8, line: &[u8]) -> bool
    ensures { result ≡ ((is_define line.now && eqb mark KEPT) && leb (length line.now) 1024) }
{
    mark == rules::KEPT && line.len() <= MAX_LINE && word::is_define(line)
}

// A selection after this many more operators.
pub fn counted(x: Selection, count: usize) -> Selection
    requires { x.count + count < 2 ^ 64 }
    ensures { result ≡ counted_more x count }
{
    let mut y = x;
    y.count = x.count + count;
    y
}

// Line n of a file with its head, in a selection, if it sets no macro.
pub fn step(
    settings: Settings,
    n: LineNumber,
    x: Selection,
    line: &[u8],
    head: Head,
    dialect: Dialect,
) -> Result<Step, Fault>
    requires { (n.0 < 65536) × (x.depth ≤ 16) × (x.count < 2 ^ 63) × ReadsHead line.now head × (length line.now ≤ 1024 → (is_define line.now && (innermost (groups_of x)).flags.taken) ≡ false) }
    ensures { (o : List Own) → settings.entry.own.now ≡ records_of o → Meets result (step_of settings.entry.table.now n.0 (denote_selection x o) line.now dialect) }
{
    if MAX_LINE < line.len() {
        return Err(Reason::LineLong.into());
    }
    let directive = head.directive;
    let s = stack::innermost(x);
    match rules::plan(directive, s)? {
        Plan::Unread(transition) => stack::apply(Ok(transition), n, 0, x),
        Plan::Read => {
            let text = word::text(line, head.text);
            let condition = condition::evaluate(settings, directive, text, dialect);
            let condition = places::in_line(condition, head.text);
            let transition = rules::conclude(directive, s, condition);
            stack::apply(transition, n, count_of(condition), x)
        }
    }
}
