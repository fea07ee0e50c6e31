//! When walks over terms and pairs of terms keep in mind where they were. They begin without, so that small terms and long
//! lists cost nothing; after that they do it for a part of their steps, until they come to where they were.

/// How many times a walk leaves places for later before it marks some.
pub const UNMARKED: u32 = 256;

/// How many places the first part of a walk that marks goes into; each later one goes into twice as many.
pub const MARKED: u32 = 16;

/// How many times as long the part after it lasts, in which nothing is marked.
pub const UNMARKED_PER_MARKED: u32 = 16;

/// Whether a walk marks, how many steps it goes on so, and how many steps it marks the next time.
#[derive(Clone, Copy)]
pub struct Pace {
    pub marking: bool,
    pub steps: u32,
    pub marked: u32,
}

/// The pace of a walk that begins.
pub const FIRST_PACE: Pace = Pace {
    marking: false,
    steps: UNMARKED,
    marked: MARKED,
};

impl Pace {
    /// The pace behind a step.
    pub fn next(self) -> Pace {
        if self.steps > 0 {
            return Pace {
                steps: self.steps - 1,
                ..self
            };
        }
        if self.marking {
            return Pace {
                marking: false,
                steps: self.marked.saturating_mul(UNMARKED_PER_MARKED),
                marked: self.marked.saturating_mul(2),
            };
        }
        Pace {
            marking: true,
            steps: self.marked,
            ..self
        }
    }
}

/// Takes one step of those that are left; false where none is.
#[inline(always)]
pub fn has_step(steps: &mut u32) -> bool {
    if *steps == 0 {
        return false;
    }
    *steps -= 1;
    true
}
