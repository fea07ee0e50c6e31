//! What the owner of a frame notes of it and of its slots.

ghost use Rattle.std.specs.Prelude.{◌≡◌, ◌≤◌, length};
ghost use Rattle.ap_frames.specs.Rows.{row, with_mark, mark_at};

use crate::frame::Frame;

impl<S: Drop, T: Drop> Frame<S, T> {
    /// Notes a mark of slot i, or of the frame itself at 0. No verdict reads it, and no other call changes it.
    #[tactic(auto, using(crate::proofs::Places::place_rules))]
    pub fn set_mark(&mut self, i: usize, mark: Option<(u64, u64)>)
        requires place { i ≤ length (row self.old).slots }
        ensures { row self.new ≡ with_mark i mark (row self.old) }
    {
        if i == 0 {
            self.mark = mark;
        } else {
            self.slots[i - 1].mark = mark;
        }
    }

    /// The mark of slot i, or of the frame itself at 0.
    pub fn mark_of(&self, i: usize) -> Option<(u64, u64)>
        requires place { i ≤ length (row self.now).slots }
        ensures { result ≡ mark_at i (row self.now) }
    {
        if i == 0 {
            return self.mark;
        }
        self.slots[i - 1].mark
    }
}
