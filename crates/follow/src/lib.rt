// A line that is fed to a running selection.
#![tactic(auto)]

pub mod feeding;
mod judging;

use groups::Selection;
use progress::Running;

// A line that was fed: its mark and the running selection after it.
#[derive(Clone, Copy)]
pub struct Fed {
    // first, so that it is copied as a whole
    pub next: Running,
    pub mark: u8,
}

// A line that is not refused: its mark, and the selection and the number of bytes of the settings after it.
#[derive(Clone, Copy)]
pub struct Judged {
    pub next: Selection,
    pub used: usize,
    pub mark: u8,
}
