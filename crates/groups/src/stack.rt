// The open groups of a selection, in its numbers.
ghost use Rattle.std.specs.Prelude.{◌≡◌, List, ◌+◌, ◌^◌, ◌≤◌, ◌<◌, Ok};
ghost use Rattle.own.specs.Own.{Own};
ghost use Rattle.groups.specs.Groups.{innermost as innermost_of, applied};
ghost use Rattle.groups.specs.Stack.{digit as digit_of, groups_of, denote_selection, Suits, SuitsIf, Meets};

use crate::{Flags, Innermost, Selection, Step, Transition, rules};
use units::{Fault, LineNumber};

// Flags as the four lowest bits of a number.
#[tactic(auto, unfolding(crate::specs::Stack::digit))]
fn digit(f: Flags) -> u64
    ensures value { result ≡ digit_of f }
    ensures upper_bound { result < 16 }
{
    u64::from(f.around) + u64::from(f.earlier) * 2 + u64::from(f.taken) * 4 + u64::from(f.last) * 8
}

// What the rules know of the open groups.
#[tactic(auto, using(crate::proofs::Stacks::some_open), unfolding(crate::specs::Stack::flags_in))]
pub fn innermost(x: Selection) -> Innermost
    ensures { result ≡ innermost_of (groups_of x) }
{
    let depth = x.depth;
    if depth == 0 {
        return Innermost {
            depth,
            flags: rules::first_branch(true, true),
        };
    }
    let states = x.states;
    let flags = Flags {
        around: states % 2 == 1,
        earlier: states / 2 % 2 == 1,
        taken: states / 4 % 2 == 1,
        last: states / 8 % 2 == 1,
    };
    Innermost { depth, flags }
}

// 16^15: the flags of 15 open groups are a number below it.
const BELOW_TOP: u64 = 1 << 60;

// A transition at line n, whose condition applied this many operators; a refusal is handed on.
pub fn apply(
    r: Result<Transition, Fault>,
    n: LineNumber,
    count: usize,
    x: Selection,
) -> Result<Step, Fault>
    requires { (x.depth ≤ 16) × SuitsIf r x.depth × (n.0 < 65536) × (x.count + count < 2 ^ 64) }
    ensures { (o : List Own) → Meets result (applied r n.0 count (denote_selection x o)) }
{
    Ok(moved(r?, n, count, x))
}

// A selection after a transition.
fn moved(r: Transition, n: LineNumber, count: usize, x: Selection) -> Step
    requires { (x.depth ≤ 16) × Suits r x.depth × (n.0 < 65536) × (x.count + count < 2 ^ 64) }
    ensures { (o : List Own) → Meets (Ok result) (applied (Ok r) n.0 count (denote_selection x o)) }
{
    let depth = x.depth;
    let mut next = x;
    next.count = x.count + count;
    let mark = match r {
        Transition::Stay(mark) => mark,
        Transition::Push(mark, f) => {
            next.states = x.states % BELOW_TOP * 16 + digit(f);
            next.lines[depth] = n.0 as u16;
            next.depth = depth + 1;
            mark
        }
        Transition::Replace(mark, f) => {
            next.states = x.states / 16 * 16 + digit(f);
            mark
        }
        Transition::Pop(mark) => {
            next.depth = depth - 1;
            next.states = x.states / 16;
            mark
        }
    };
    Step { next, mark }
}
