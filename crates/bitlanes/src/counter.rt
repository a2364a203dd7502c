//! A counter that takes no bytes when the program runs.
ghost use Rattle.std.specs.Prelude.{◌≡◌, ◌+◌};
ghost use Rattle.bitlanes.specs.Words.{lane_steps};

use crate::lanes::LANE;
use std::marker::Model;
use std::mem;
use std::snapshot::Snapshot;

// A number, which only proofs read: a `Snapshot` has no bytes.
#[derive(Drop)]
enum Tally {
    Zero,
    Next(Snapshot<Tally>),
}

/// How many steps were taken: a whole number with no greatest. It takes no bytes.
///
/// A step is one lane of four words that a kernel of `lanes` goes over, or one word
/// that another loop does.
#[derive(Drop)]
pub struct Steps {
    tally: Snapshot<Tally>,
}

impl Model for Steps {
    ghost use Rattle.std.specs.Prelude.{ℕ};

    ghost Value = { ℕ };

    ghost use Rattle.bitlanes.specs.Depth.{depth};

    ghost view = { λ steps. depth steps.tally.value };
}

impl Steps {
    /// No step yet.
    ///
    /// ```
    /// let mut steps = Steps::new();
    /// lanes::zero(&mut [1; 9], &mut steps);
    /// assert_eq!(rt; size_of::<Steps>(), 0);
    /// ```
    #[inline(always)]
    pub fn new() -> Steps
        ensures { result ≡ 0 }
    {
        Steps {
            tally: Snapshot::of(&Tally::Zero),
        }
    }

    /// Counts one step more. It does nothing when the program runs.
    ///
    /// ```
    /// let mut steps = Steps::new();
    /// steps.tick();
    /// lanes::zero(&mut [1; 9], &mut steps);
    /// assert_eq!(rt; size_of_val(&steps), 0);
    /// ```
    #[inline(always)]
    pub fn tick(&mut self)
        ensures { self.new ≡ self.old + 1 }
    {
        let before = mem::replace(&mut self.tally, Snapshot::of(&Tally::Zero));
        self.tally = Snapshot::of(&Tally::Next(before));
    }

    /// Counts `words / 4` steps more, rounded up: for a call of std that goes over so many words,
    /// and that no kernel is. It does nothing when the program runs.
    ///
    /// ```
    /// let mut steps = Steps::new();
    /// steps.tick_lanes(9);
    /// assert_eq!(rt; size_of_val(&steps), 0);
    /// ```
    #[inline(always)]
    pub fn tick_lanes(&mut self, words: usize)
        ensures { self.new ≡ self.old + lane_steps words }
    {
        for _ in 0..words.div_ceil(LANE) {
            self.tick();
        }
    }
}
