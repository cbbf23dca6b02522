// The rules of groups: what each directive does by the flags of the innermost group, and by its condition if it is read.
ghost use Rattle.std.specs.Prelude.{◌≡◌};
ghost use Rattle.groups.specs.Rules.{first_branch, next_branch, plain_mark, opening as opening_of, plan as plan_of};
ghost use Rattle.groups.specs.Rules.{branch_mark, settled, conclude as conclude_of};

use crate::{Flags, Innermost, Plan, Transition};
use line::{Condition, Directive};
use units::{Fault, Reason};

// The marks of lines, as in the specification.
// Stays: marks are bytes and no enum, since C lends the array of bytes that they go into, and include/korzhinay.h gives their numbers.
pub const DROPPED: u8 = 0;

pub const KEPT: u8 = 1;

pub const UNREAD: u8 = 2;

pub const NOT_TAKEN: u8 = 3;

pub const TAKEN: u8 = 4;

pub const ENDED: u8 = 5;

pub const DEFINED: u8 = 6;

// The largest number of open groups, those in branches that are not taken included.
const MAX_GROUPS: usize = 16;

// The flags of a new group.
pub fn first_branch(around: bool, taken: bool) -> Flags
    ensures { result ≡ first_branch «around» «taken» }
{
    Flags {
        around,
        earlier: false,
        taken,
        last: false,
    }
}

// The flags of a group in its next branch.
fn next_branch(f: Flags, taken: bool, last: bool) -> Flags
    ensures { result ≡ next_branch f «taken» «last» }
{
    Flags {
        around: f.around,
        earlier: f.earlier || f.taken,
        taken,
        last,
    }
}

// The mark of a plain line.
pub fn plain_mark(s: Innermost) -> u8
    ensures { result ≡ plain_mark s }
{
    if s.flags.taken { KEPT } else { DROPPED }
}

// `!if`, `!ifdef` and `!ifndef`: the current branch is the one around the new group.
fn opening(s: Innermost) -> Result<Plan, Fault>
    ensures { result ≡ opening_of s }
{
    if MAX_GROUPS <= s.depth {
        return Err(Reason::NestingDeep.into());
    }
    if s.flags.taken {
        Ok(Plan::Read)
    } else {
        Ok(Plan::Unread(Transition::Push(UNREAD, first_branch(false, false))))
    }
}

// A line with its directive, before its text is looked at. `!elseif` and `!else` are stray outside a group and after its `!else`, `!endif`
// outside.
#[tactic(auto, unfolding(crate::specs::Rules::plan))]
pub fn plan(d: Directive, s: Innermost) -> Result<Plan, Fault>
    ensures { result ≡ plan_of d s }
{
    let f = s.flags;
    match d {
        Directive::Plain => Ok(Plan::Unread(Transition::Stay(plain_mark(s)))),
        Directive::If | Directive::Ifdef | Directive::Ifndef => opening(s),
        Directive::Elseif => {
            if s.depth == 0 || f.last {
                return Err(Reason::DirectiveStray.into());
            }
            if f.around && !(f.earlier || f.taken) {
                Ok(Plan::Read)
            } else {
                Ok(Plan::Unread(Transition::Replace(UNREAD, next_branch(f, false, false))))
            }
        }
        Directive::Else => {
            if s.depth == 0 || f.last {
                return Err(Reason::DirectiveStray.into());
            }
            if f.around {
                Ok(Plan::Read)
            } else {
                Ok(Plan::Unread(Transition::Replace(UNREAD, next_branch(f, false, true))))
            }
        }
        Directive::Endif => {
            if s.depth == 0 {
                return Err(Reason::DirectiveStray.into());
            }
            if f.around {
                Ok(Plan::Read)
            } else {
                Ok(Plan::Unread(Transition::Pop(UNREAD)))
            }
        }
        Directive::Unknown => Err(Reason::WordUnknown.into()),
    }
}

// The mark of a read directive that begins a branch.
fn branch_mark(taken: bool) -> u8
    ensures { result ≡ branch_mark «taken» }
{
    if taken { TAKEN } else { NOT_TAKEN }
}

// A directive that is read, if its condition holds or fails. An `!else` takes its branch exactly if none before it was taken.
#[tactic(auto, unfolding(crate::specs::Rules::settled))]
fn settle(d: Directive, f: Flags, holds: bool) -> Transition
    ensures { result ≡ settled d f «holds» }
{
    match d {
        Directive::If | Directive::Ifdef | Directive::Ifndef => {
            Transition::Push(branch_mark(holds), first_branch(true, holds))
        }
        Directive::Elseif => Transition::Replace(branch_mark(holds), next_branch(f, holds, false)),
        Directive::Else => {
            let taken = !(f.earlier || f.taken);
            Transition::Replace(branch_mark(taken), next_branch(f, taken, true))
        }
        Directive::Endif => Transition::Pop(ENDED),
        Directive::Plain | Directive::Unknown => Transition::Stay(UNREAD),
    }
}

// A directive that is read, by its condition.
pub fn conclude(
    d: Directive,
    s: Innermost,
    condition: Result<Condition, Fault>,
) -> Result<Transition, Fault>
    ensures { result ≡ conclude_of d s condition }
{
    let holds = match condition? {
        Condition::Holds(_) => true,
        Condition::Fails(_) => false,
    };
    Ok(settle(d, s.flags, holds))
}
