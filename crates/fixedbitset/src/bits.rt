//! Single positions. No call looks at more than one word, and none allocates.
//!
//! A position that is changed has to be below the length: test it by `len()`. Upstream panics past
//! it. The calls whose names end in `_unchecked` have the same precondition; they are `unsafe`
//! upstream, where nobody tests it. Here the prover demands a proof from the caller, so that they
//! are safe, and do what the calls without the ending do.

ghost use Rattle.std.specs.Prelude.{◌≡◌, ◌<◌, map, length};
ghost use Rattle.std.specs.List.{All};
ghost use Rattle.fixedbitset.specs.Bits as model;

use crate::set::FixedBitSet;
use crate::views::BitsMut;

impl FixedBitSet {
    /// Whether the position is set: `false` at or past the length. Any position is allowed.
    ///
    /// ```
    /// let set = FixedBitSet::from_iter(alloc, [3, 64])?;
    /// assert!(rt; set.contains(64));
    /// assert!(rt; !set.contains(63));
    /// assert!(rt; !set.contains(usize::MAX));
    /// ```
    #[inline]
    #[tactic(auto, using(crate::proofs::Changes::none_past))]
    pub fn contains(&self, bit: usize) -> bool
        ensures { result ≡ model.contains self.now bit }
    {
        if bit < self.len() {
            self.contains_unchecked(bit)
        } else {
            false
        }
    }

    /// Whether the position, which has to be below the length, is set. The length is not looked at.
    ///
    /// ```
    /// let mut set = FixedBitSet::with_capacity(alloc, 70)?;
    /// set.insert(69);
    /// assert!(rt; set.contains_unchecked(69));
    /// assert!(rt; !set.contains_unchecked(68));
    /// ```
    #[inline]
    #[tactic(auto, using(crate::proofs::Words::given_back, crate::proofs::Words::viewed_length))]
    pub fn contains_unchecked(&self, bit: usize) -> bool
        requires { bit < self.now.length }
        ensures { result ≡ model.contains self.now bit }
    {
        self.as_bits().contains_unchecked(bit)
    }

    // made by front/calls, but for docs and #[inline]
    /// Writes for each position of the list whether it is set: `false` at or past the length. There
    /// have to be as many results as positions. It looks at one word at most for each item.
    ///
    /// Upstream has no such call.
    ///
    /// ```
    /// let set = FixedBitSet::from_iter(alloc, [3, 64])?;
    /// let mut answers = [false; 3];
    /// set.contains_each(&[64, 63, 500], &mut answers);
    /// assert_eq!(rt; answers, [true, false, false]);
    /// ```
    #[inline]
    pub fn contains_each(&self, positions: &[usize], answers: &mut [bool])
        requires { length positions.now ≡ length answers.old }
        ensures { answers.new ≡ map (model.contains self.now) positions.now }
    {
        self.as_bits().contains_each(positions, answers);
    }

    /// Sets the position, which has to be below the length.
    ///
    /// ```
    /// let mut set = FixedBitSet::with_capacity(alloc, 70)?;
    /// set.insert(64);
    /// assert!(rt; set.contains(64));
    /// assert_eq!(rt; set.as_slice(), [0, 1].as_slice());
    /// ```
    #[inline]
    pub fn insert(&mut self, bit: usize)
        requires { bit < self.old.length }
        ensures { self.new ≡ model.insert self.old bit }
    {
        self.insert_unchecked(bit);
    }

    /// The same as [`insert`](Self::insert).
    ///
    /// ```
    /// let mut set = FixedBitSet::with_capacity(alloc, 70)?;
    /// set.insert_unchecked(69);
    /// assert_eq!(rt; set.maximum(), Some(69));
    /// ```
    #[inline]
    #[tactic(auto, using(crate::proofs::Words::given_back, crate::proofs::Words::viewed_length))]
    pub fn insert_unchecked(&mut self, bit: usize)
        requires { bit < self.old.length }
        ensures { self.new ≡ model.insert self.old bit }
    {
        let (words, length) = (&mut *self.words.as_mut_slice(), self.length);
        BitsMut { words, length }.insert(bit);
    }

    /// Clears the position, which has to be below the length.
    ///
    /// ```
    /// let mut set = FixedBitSet::with_capacity(alloc, 70)?;
    /// set.insert_range(..);
    /// set.remove(64);
    /// assert!(rt; !set.contains(64));
    /// assert_eq!(rt; set.count_ones(..), 69);
    /// ```
    #[inline]
    pub fn remove(&mut self, bit: usize)
        requires { bit < self.old.length }
        ensures { self.new ≡ model.remove self.old bit }
    {
        self.remove_unchecked(bit);
    }

    /// The same as [`remove`](Self::remove).
    ///
    /// ```
    /// let mut set = FixedBitSet::with_capacity(alloc, 3)?;
    /// set.insert_range(..);
    /// set.remove_unchecked(1);
    /// assert_eq!(rt; set.as_slice(), [5].as_slice());
    /// ```
    #[inline]
    #[tactic(auto, using(crate::proofs::Words::given_back, crate::proofs::Words::viewed_length))]
    pub fn remove_unchecked(&mut self, bit: usize)
        requires { bit < self.old.length }
        ensures { self.new ≡ model.remove self.old bit }
    {
        let (words, length) = (&mut *self.words.as_mut_slice(), self.length);
        BitsMut { words, length }.remove(bit);
    }

    /// Sets the position, which has to be below the length, and returns whether it was set before.
    ///
    /// ```
    /// let mut set = FixedBitSet::with_capacity(alloc, 70)?;
    /// assert!(rt; !set.put(64));
    /// assert!(rt; set.put(64));
    /// assert_eq!(rt; set.count_ones(..), 1);
    /// ```
    #[inline]
    pub fn put(&mut self, bit: usize) -> bool
        requires { bit < self.old.length }
        ensures before { result ≡ model.contains self.old bit }
        ensures after { self.new ≡ model.insert self.old bit }
    {
        self.put_unchecked(bit)
    }

    /// The same as [`put`](Self::put).
    ///
    /// ```
    /// let mut set = FixedBitSet::with_capacity(alloc, 70)?;
    /// set.insert(3);
    /// assert!(rt; set.put_unchecked(3));
    /// assert!(rt; !set.put_unchecked(69));
    /// assert_eq!(rt; set.count_ones(..), 2);
    /// ```
    #[inline]
    #[tactic(auto, using(crate::proofs::Words::given_back, crate::proofs::Words::viewed_length))]
    pub fn put_unchecked(&mut self, bit: usize) -> bool
        requires { bit < self.old.length }
        ensures before { result ≡ model.contains self.old bit }
        ensures after { self.new ≡ model.insert self.old bit }
    {
        let (words, length) = (&mut *self.words.as_mut_slice(), self.length);
        BitsMut { words, length }.put(bit)
    }
    // end of what front/calls makes

    /// Clears the position, which has to be below the length, and returns whether it was set
    /// before.
    ///
    /// Upstream has no such call; it is the counterpart of [`put`](Self::put).
    ///
    /// ```
    /// let mut set = FixedBitSet::from_iter(alloc, [3, 64])?;
    /// assert_eq!(rt; set.len(), 65);
    /// assert!(rt; set.take(64) && set.count_ones(..) == 1);
    /// assert!(rt; !set.take(64));
    /// ```
    #[inline]
    #[tactic(auto, using(crate::proofs::Words::given_back, crate::proofs::Words::viewed_length))]
    pub fn take(&mut self, bit: usize) -> bool
        requires { bit < self.old.length }
        ensures before { result ≡ model.contains self.old bit }
        ensures after { self.new ≡ model.remove self.old bit }
    {
        let (words, length) = (&mut *self.words.as_mut_slice(), self.length);
        BitsMut { words, length }.take(bit)
    }

    /// Sets each position of the list. All of them have to be below the length. It writes one word
    /// for each item.
    ///
    /// Upstream has no such call. `extend` does so for any iterator, and grows.
    ///
    /// ```
    /// let mut set = FixedBitSet::with_capacity(alloc, 70)?;
    /// set.insert_all(&[64, 3, 64]);
    /// assert_eq!(rt; set.as_slice(), [8, 1].as_slice());
    /// ```
    #[tactic(auto, using(crate::proofs::Words::given_back, crate::proofs::Words::viewed_length))]
    pub fn insert_all(&mut self, positions: &[usize])
        requires { All (λ p. p < self.old.length) positions.now }
        ensures value { self.new ≡ model.add_all self.old positions.now }
        ensures length { self.new.length ≡ self.old.length }
    {
        let (words, length) = (&mut *self.words.as_mut_slice(), self.length);
        BitsMut { words, length }.insert_all(positions);
    }

    // made by front/calls, but for docs and #[inline]
    /// Clears each position of the list. All of them have to be below the length. It writes one
    /// word for each item.
    ///
    /// Upstream has no such call.
    ///
    /// ```
    /// let mut set = FixedBitSet::from_iter(alloc, [3, 64, 69])?;
    /// assert_eq!(rt; set.len(), 70);
    /// set.remove_all(&[69, 3, 69]);
    /// assert_eq!(rt; set.as_slice(), [0, 1].as_slice());
    /// ```
    #[tactic(auto, using(crate::proofs::Words::given_back, crate::proofs::Words::viewed_length))]
    pub fn remove_all(&mut self, positions: &[usize])
        requires { All (λ p. p < self.old.length) positions.now }
        ensures { self.new ≡ model.remove_all self.old positions.now }
    {
        let (words, length) = (&mut *self.words.as_mut_slice(), self.length);
        BitsMut { words, length }.remove_all(positions);
    }

    /// Sets the position if it is clear and clears it if it is set. It has to be below the length.
    ///
    /// ```
    /// let mut set = FixedBitSet::with_capacity(alloc, 70)?;
    /// set.insert(1);
    /// set.toggle(1);
    /// set.toggle(64);
    /// assert_eq!(rt; set.as_slice(), [0, 1].as_slice());
    /// ```
    #[inline]
    pub fn toggle(&mut self, bit: usize)
        requires { bit < self.old.length }
        ensures { self.new ≡ model.toggle self.old bit }
    {
        self.toggle_unchecked(bit);
    }

    /// The same as [`toggle`](Self::toggle).
    ///
    /// ```
    /// let mut set = FixedBitSet::with_capacity(alloc, 70)?;
    /// set.toggle_unchecked(69);
    /// assert!(rt; set.contains(69));
    /// set.toggle_unchecked(69);
    /// assert!(rt; set.is_clear());
    /// ```
    #[inline]
    #[tactic(auto, using(crate::proofs::Words::given_back, crate::proofs::Words::viewed_length))]
    pub fn toggle_unchecked(&mut self, bit: usize)
        requires { bit < self.old.length }
        ensures { self.new ≡ model.toggle self.old bit }
    {
        let (words, length) = (&mut *self.words.as_mut_slice(), self.length);
        BitsMut { words, length }.toggle(bit);
    }
    // end of what front/calls makes

    /// Sets the position, or clears it where `enabled` is false. It has to be below the length.
    ///
    /// ```
    /// let mut set = FixedBitSet::with_capacity(alloc, 70)?;
    /// set.set(63, true);
    /// set.set(64, true);
    /// set.set(63, false);
    /// assert_eq!(rt; set.as_slice(), [0, 1].as_slice());
    /// ```
    #[inline]
    pub fn set(&mut self, bit: usize, enabled: bool)
        requires { bit < self.old.length }
        ensures { self.new ≡ model.set_bit self.old bit enabled }
    {
        self.set_unchecked(bit, enabled);
    }

    /// The same as [`set`](Self::set).
    ///
    /// ```
    /// let mut set = FixedBitSet::with_capacity(alloc, 70)?;
    /// set.insert_range(..);
    /// set.set_unchecked(69, false);
    /// assert_eq!(rt; set.maximum(), Some(68));
    /// ```
    #[inline]
    #[tactic(auto, unfolding(crate::specs::Bits::set_bit))]
    pub fn set_unchecked(&mut self, bit: usize, enabled: bool)
        requires { bit < self.old.length }
        ensures { self.new ≡ model.set_bit self.old bit enabled }
    {
        if enabled {
            self.insert(bit);
        } else {
            self.remove(bit);
        }
    }

    /// Makes position `to` what position `from` is. `to` has to be below the length; `from` need
    /// not be, and past the length it is clear, so that `to` is cleared.
    ///
    /// ```
    /// let mut set = FixedBitSet::with_capacity(alloc, 70)?;
    /// set.insert(1);
    /// set.copy_bit(1, 64);
    /// set.copy_bit(usize::MAX, 1);
    /// assert_eq!(rt; set.as_slice(), [0, 1].as_slice());
    /// ```
    #[inline]
    #[tactic(auto, unfolding(crate::specs::Bits::copy_bit))]
    pub fn copy_bit(&mut self, from: usize, to: usize)
        requires { to < self.old.length }
        ensures { self.new ≡ model.copy_bit self.old from to }
    {
        self.set(to, self.contains(from));
    }

    /// The same as [`copy_bit`](Self::copy_bit), for two positions below the length.
    ///
    /// ```
    /// let mut set = FixedBitSet::with_capacity(alloc, 70)?;
    /// set.insert(1);
    /// set.copy_bit_unchecked(1, 69);
    /// assert_eq!(rt; set.as_slice(), [2, 32].as_slice());
    /// ```
    #[inline]
    #[tactic(auto, unfolding(crate::specs::Bits::copy_bit))]
    pub fn copy_bit_unchecked(&mut self, from: usize, to: usize)
        requires from { from < self.old.length }
        requires to { to < self.old.length }
        ensures { self.new ≡ model.copy_bit self.old from to }
    {
        self.set(to, self.contains_unchecked(from));
    }
}
