//! Range types of the caller's own.

ghost use Rattle.std.specs.Prelude.{◌+◌, ◌^◌, ◌<◌, None, Some};

use fixedbitset::IndexRange;

/// A range type of the caller's own: the `size` positions from `from` on.
#[derive(Clone, Copy, Debug)]
pub struct Window {
    pub from: usize,
    pub size: usize,
    ghost fits: { from + size < 2 ^ 64 },
}

impl IndexRange<usize> for Window {
    ghost start_of = { λ window. Some window.from };

    ghost end_of = { λ window. Some (window.from + window.size) };

    fn start(&self) -> Option<usize> {
        Some(self.from)
    }

    fn end(&self) -> Option<usize> {
        Some(self.from + self.size)
    }
}

/// A range type of the caller's own that has no ends: all positions.
#[derive(Clone, Copy)]
pub struct Endless;

impl IndexRange<usize> for Endless {
    ghost start_of = { λ _. None };

    ghost end_of = { λ _. None };

    fn start(&self) -> Option<usize> {
        None
    }

    fn end(&self) -> Option<usize> {
        None
    }
}

/// A range type of the caller's own: the positions from 3 on.
#[derive(Clone, Copy)]
pub struct FromThree;

impl IndexRange<usize> for FromThree {
    ghost start_of = { λ _. Some 3 };

    ghost end_of = { λ _. None };

    fn start(&self) -> Option<usize> {
        Some(3)
    }

    fn end(&self) -> Option<usize> {
        None
    }
}
