//! Iterators of the caller's own, which show what was asked of them.

ghost use Rattle.std.specs.Prelude.{length};
ghost use Rattle.std.specs.Iterator.{at_most};
/// Gives its items from the first on, and counts how often it is asked.
#[derive(Drop)]
pub struct Counted<'a> {
    pub items: &'a [usize],
    pub asked: usize,
}

impl Iterator for Counted<'_> {
    type Item = usize;

    ghost remaining = { λ counted. at_most (length counted.items.now) };

    fn next(&mut self) -> Option<usize> {
        self.asked = self.asked.wrapping_add(1);
        let (first, rest) = self.items.split_first()?;
        self.items = rest;
        Some(*first)
    }
}

/// Gives its steps from the first on, and goes on after a `None`.
#[derive(Drop)]
pub struct Pausing<'a> {
    pub steps: &'a [Option<usize>],
}

impl Iterator for Pausing<'_> {
    type Item = usize;

    ghost remaining = { λ pausing. at_most (length pausing.steps.now) };

    fn next(&mut self) -> Option<usize> {
        let (first, rest) = self.steps.split_first()?;
        self.steps = rest;
        *first
    }
}
