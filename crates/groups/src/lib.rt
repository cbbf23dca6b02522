// The open groups of a selection: their rules, and the numbers that hold them.
#![tactic(auto)]

pub mod rules;
pub mod stack;

// What the rules know of a group.
#[derive(Clone, Copy)]
pub struct Flags {
    // the branch around the whole group is taken, or there is none around it
    pub around: bool,
    // a branch before the current one was taken
    pub earlier: bool,
    // the current branch is taken
    pub taken: bool,
    // the current branch is that of its `!else`
    pub last: bool,
}

// The number of open groups and the flags of the innermost one. Outside all groups, the branch around counts as taken, and so does the
// current one.
#[derive(Clone, Copy)]
pub struct Innermost {
    pub depth: usize,
    pub flags: Flags,
}

// What a line does to the open groups, with its mark.
#[derive(Clone, Copy)]
pub enum Transition {
    Stay(u8),
    Push(u8, Flags),
    Replace(u8, Flags),
    Pop(u8),
}

// Whether a directive is read, and what it does if not.
// Stays: an `Option` is no plainer, since its `None` would have to mean that the text is read.
#[derive(Clone, Copy)]
pub enum Plan {
    Read,
    Unread(Transition),
}

// A running selection: the number of open groups, the number of operators applied so far, and for each open group its flags and the line
// of its `!if`. The flags are the digits of one number in base 16, with the innermost group as the lowest digit: a selection is copied at
// each step, and a number stays in a register, while an array goes through memory. The first line is that of the outermost group; digits
// and lines from `depth` on have no meaning.
// Stays: the flags are digits and no array of `Flags`, since `Running` of the crate progress, which is repr(C), holds this struct and its
// caller may lend any bytes for it: each number means flags, while a byte above 1 is no `bool`.
#[repr(C)]
#[derive(Clone, Copy)]
pub struct Selection {
    pub depth: usize,
    pub count: usize,
    pub states: u64,
    pub lines: [u16; 16],
}

// The outcome of a line that is not refused: its mark, and the selection after it.
#[derive(Clone, Copy)]
pub struct Step {
    // first, so that it is copied as a whole
    pub next: Selection,
    pub mark: u8,
}
