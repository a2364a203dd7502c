//! Slots, each of them taken or free.
//!
//! Contracts see the slots as a length, how many there are, and the set of those that are taken
//! (`specs/Slots.antt`).

ghost use Rattle.std.specs.Prelude.{◌≡◌, ◌+◌, ◌≤◌, ◌↔◌, ℕ, List, [], ◌∷◌, ◌++◌};
ghost use Rattle.std.specs.Prelude.{Contains, IsTrue, IfOk, IfSome, MatchOption};
ghost use Rattle.fixedbitset.specs.Bits as model;
ghost use Rattle.fixedbitset.specs.Bits.{Bits};
ghost use Rattle.fixedbitset.specs.Views.{value};
ghost use Rattle.fixedbitset.specs.Ranges as ranges;
ghost use Rattle.bitslots.specs.Slots.{IsTaken, IsLeastFree, IsAnswer, IsLeft};
ghost use Rattle.bitslots.specs.Slots.{IsTakenStretch, IsStretchAnswer, IsAlignedAnswer};
ghost use Rattle.bitslots.specs.Slots.{IsStretchLeft, free_count, taken_count};
ghost use Rattle.bitslots.specs.Calls.{Call, Runs, Takes, GivesBack};

use fixedbitset::FixedBitSet;
use std::alloc::{AllocError, Global};
use std::marker::Model;

/// So many slots, numbered from 0, each taken or free. In every run of calls a slot that was taken
/// twice, alone or in a stretch, was given back in between ([`never_twice`]).
///
/// ```
/// let mut slots = Slots::new(alloc, 3)?;
/// assert_eq!(rt; (slots.take(), slots.take(), slots.take()), (Some(0), Some(1), Some(2)));
/// slots.give_back(1);
/// assert_eq!(rt; (slots.take(), slots.take()), (Some(1), None));
/// ```
///
/// It keeps a bit for each slot, and a number below which all slots are taken. There
/// [`take`](Self::take) begins to look.
#[derive(Drop)]
pub struct Slots {
    taken: FixedBitSet,
    low: usize,
}

impl Model for Slots {
    ghost use Rattle.fixedbitset.specs.Bits.{Bits};
    ghost use Rattle.fixedbitset.specs.BitsCode.{code};
    ghost use Rattle.bitslots.specs.Low.{AreTakenBelow};

    ghost Value = { Bits };

    ghost coded = { code };

    ghost view = { λ s. s.taken };

    ghost invariant = { λ s. AreTakenBelow s.taken s.low };
}

impl Slots {
    /// So many slots, all free. `Err` is returned only on allocation failure.
    ///
    /// ```
    /// assert_eq!(rt; Slots::new(alloc, 100)?.free(), 100);
    /// ```
    pub fn new(alloc: Global, many: usize) -> Result<Slots, AllocError>
        ensures { IfOk result (λ slots. slots ≡ model.empty many) }
    {
        let taken = FixedBitSet::with_capacity(alloc, many)?;
        Ok(Slots { taken, low: 0 })
    }

    /// Takes the least free slot. `None` is returned exactly where all are taken.
    ///
    /// It looks at the words from the least slot that was given back since the last call on, or
    /// from behind the slot that this call returned, to that of the slot.
    ///
    /// ```
    /// let mut slots = Slots::new(alloc, 1)?;
    /// assert_eq!(rt; (slots.take(), slots.take()), (Some(0), None));
    /// ```
    #[inline]
    pub fn take(&mut self) -> Option<usize>
        ensures slot { IsAnswer self.old result }
        ensures after { IsLeft self.old result self.new }
        ensures left { MatchOption result (free_count self.old ≡ 0)
            (λ _. free_count self.new + 1 ≡ free_count self.old) }
    {
        let _many = self.taken.len();
        let slot = self.taken.next_zero(self.low)?;
        self.taken.insert(slot);
        self.low = slot + 1;
        Some(slot)
    }

    /// Makes a slot free that is taken.
    ///
    /// ```
    /// let mut slots = Slots::new(alloc, 2)?;
    /// if let Some(slot) = slots.take() {
    ///     slots.give_back(slot);
    /// }
    /// assert_eq!(rt; slots.free(), 2);
    /// ```
    #[inline]
    pub fn give_back(&mut self, slot: usize)
        requires { IsTaken self.old slot }
        ensures after { self.new ≡ model.remove self.old slot }
        ensures left { free_count self.new ≡ free_count self.old + 1 }
    {
        self.taken.remove(slot);
        self.low = self.low.min(slot);
    }

    /// Takes `count` slots one after the other, from the least start at or past `from` where all of
    /// them are free, and returns that start. `None` is returned exactly where there is no such
    /// start, and then nothing changes.
    ///
    /// ```
    /// let mut slots = Slots::new(alloc, 8)?;
    /// assert_eq!(rt; slots.take_stretch(3, 2), Some(2));
    /// assert_eq!(rt; (slots.take_stretch(3, 0), slots.take_stretch(4, 0)), (Some(5), None));
    /// ```
    pub fn take_stretch(&mut self, count: usize, from: usize) -> Option<usize>
        ensures stretch { IsStretchAnswer self.old count from result }
        ensures after { IsStretchLeft self.old count result self.new }
        ensures taken { IfSome result (λ start. IsTakenStretch self.new count start) }
    {
        let _many = self.taken.len();
        let start = self.taken.first_gap(count, from)?;
        self.taken.insert_range(start..start + count);
        Some(start)
    }

    /// Takes `count` slots one after the other, from the least multiple of `align` on where all of
    /// them are free, and returns that start. `None` is returned exactly where there is no such
    /// start, and then nothing changes. The only multiple of 0 is 0.
    ///
    /// ```
    /// let mut slots = Slots::new(alloc, 16)?;
    /// assert_eq!(rt; slots.take(), Some(0));
    /// assert_eq!(rt; slots.take_aligned_stretch(4, 4), Some(4));
    /// ```
    pub fn take_aligned_stretch(&mut self, count: usize, align: usize) -> Option<usize>
        ensures stretch { IsAlignedAnswer self.old count align result }
        ensures after { IsStretchLeft self.old count result self.new }
        ensures taken { IfSome result (λ start. IsTakenStretch self.new count start) }
    {
        let many = self.taken.len();
        let start = self.taken.first_aligned_gap(count, align, 0..many)?;
        self.taken.insert_range(start..start + count);
        Some(start)
    }

    /// Makes the `count` slots from `start` on free, each of which is taken.
    ///
    /// ```
    /// let mut slots = Slots::new(alloc, 8)?;
    /// if let Some(start) = slots.take_stretch(8, 0) {
    ///     slots.give_back_stretch(start, 8);
    /// }
    /// assert_eq!(rt; slots.free(), 8);
    /// ```
    pub fn give_back_stretch(&mut self, start: usize, count: usize)
        requires { IsTakenStretch self.old count start }
        ensures { self.new ≡ ranges.remove_range self.old start (start + count) }
    {
        let _many = self.taken.len();
        self.taken.remove_range(start..start + count);
        self.low = self.low.min(start);
    }

    /// Whether the slot is taken. A slot past the end is not.
    ///
    /// ```
    /// let mut slots = Slots::new(alloc, 2)?;
    /// assert_eq!(rt; slots.take_stretch(1, 1), Some(1));
    /// assert!(rt; slots.is_taken(1) && !slots.is_taken(0));
    /// ```
    #[inline]
    pub fn is_taken(&self, slot: usize) -> bool
        ensures { IsTrue result ↔ IsTaken self.now slot }
    {
        self.taken.contains(slot)
    }

    /// Whether there are the `count` slots from `start` on, and each of them is taken.
    ///
    /// ```
    /// let mut slots = Slots::new(alloc, 4)?;
    /// assert_eq!(rt; slots.take_stretch(2, 1), Some(1));
    /// assert!(rt; slots.is_taken_stretch(1, 2) && !slots.is_taken_stretch(0, 2));
    /// ```
    #[tactic(auto, using(fixedbitset::specs::RangesFacts::facts))]
    pub fn is_taken_stretch(&self, start: usize, count: usize) -> bool
        ensures { IsTrue result ↔ IsTakenStretch self.now count start }
    {
        let many = self.taken.len();
        start <= many
            && count <= many - start
            && self.taken.contains_all_in_range(start..start + count)
    }

    /// How many slots there are.
    ///
    /// ```
    /// assert_eq!(rt; Slots::new(alloc, 100)?.len(), 100);
    /// ```
    #[inline]
    pub fn len(&self) -> usize
        ensures { result ≡ self.now.length }
    {
        self.taken.len()
    }

    /// The slots that are taken.
    ///
    /// ```
    /// let mut slots = Slots::new(alloc, 100)?;
    /// assert_eq!(rt; slots.take_stretch(2, 60), Some(60));
    /// assert!(rt; slots.taken().ones().eq([60, 61]));
    /// ```
    #[inline]
    pub fn taken(&self) -> fixedbitset::Bits<'_>
        ensures { value result ≡ self.now }
    {
        self.taken.as_bits()
    }

    /// How many slots are free. They and those that are taken are all slots.
    ///
    /// ```
    /// let mut slots = Slots::new(alloc, 5)?;
    /// let _first = slots.take();
    /// assert_eq!(rt; slots.free(), 4);
    /// ```
    pub fn free(&self) -> usize
        ensures count { result ≡ free_count self.now }
        ensures all { result + taken_count self.now ≡ self.now.length }
    {
        self.taken.count_zeroes(..)
    }

    /// Moves what is in a slot to the front: gives the slot back and takes the least free
    /// one, which is not past it.
    ///
    /// ```
    /// let mut slots = Slots::new(alloc, 9)?;
    /// assert_eq!(rt; slots.take_stretch(1, 7), Some(7));
    /// assert_eq!(rt; slots.lower(7), 0);
    /// ```
    pub fn lower(&mut self, slot: usize) -> usize
        requires { IsTaken self.old slot }
        ensures least { IsLeastFree (model.remove self.old slot) result }
        ensures after { self.new ≡ model.insert (model.remove self.old slot) result }
        ensures within { result ≤ slot }
    {
        self.give_back(slot);
        self.take().unwrap_or(slot)
    }
}

/// In every run of calls a slot that two of them take, alone or in a stretch, was
/// given back in between. It does nothing: its contract is a law of what the calls
/// that take and give back ensure.
///
/// ```
/// let mut slots = Slots::new(alloc, 1)?;
/// let first = slots.take();
/// bitslots::never_twice();
/// assert!(rt; first == Some(0) && slots.take().is_none());
/// ```
pub fn never_twice()
    ensures { (old new : Bits) (slot : ℕ) (first second : Call) (between : List Call)
        → Takes first slot → Takes second slot
        → Runs old (first ∷ (between ++ second ∷ [])) new
        → (call : Call) × Contains between call × GivesBack call slot }
{}
