//! Equality, the order and the hash of sets, so that sets are keys of maps and are sorted.
//!
//! All of them look at the length and then at the words. Sets with the same positions and different
//! lengths are not equal.

ghost use Rattle.std.specs.Prelude.{◌≡◌, ◌↔◌, IsTrue, Some, refl};
ghost use Rattle.std.specs.Ordering.{MatchOrdering};
ghost use Rattle.std.specs.Cmp.{partial_equiv_from_equiv};
ghost use Rattle.fixedbitset.specs.Order.{equal, compare, fed_by, IsBelow};
ghost use Rattle.fixedbitset.specs.OrderFacts.{equal_laws, compare_partial};
ghost use Rattle.fixedbitset.specs.OrderFacts.{compare_total, compare_ties, fed_alike};

use crate::set::FixedBitSet;
use bitlanes::Steps;
use std::cmp::Ordering;
use std::hash::{Hash, Hasher};

impl PartialEq for FixedBitSet {
    ghost eq = { equal };

    ghost laws = { partial_equiv_from_equiv equal_laws };

    /// Whether the two are the same value: the same length and the same positions.
    ///
    /// It compares the lengths, and at equal lengths the words, four at a time, up to the first
    /// that differ: at most `len() / 64` pairs, rounded up.
    ///
    /// ```
    /// let set = FixedBitSet::from_iter(alloc, [3])?;
    /// let mut other = set.clone()?;
    /// assert!(rt; set == other);
    /// other.grow(70)?;
    /// assert!(rt; set != other);
    /// ```
    #[inline]
    #[tactic(auto, using(crate::specs::OrderFacts::facts))]
    fn eq(&self, other: &Self) -> bool
        ensures value { result ≡ equal self.now other.now }
        ensures same { IsTrue result ↔ (self.now ≡ other.now) }
    {
        self.as_bits().is_equal(other.as_bits(), &mut Steps::new())
    }
}

impl Eq for FixedBitSet {
    ghost laws = { equal_laws };
}

impl PartialOrd for FixedBitSet {
    ghost partial_cmp = { λ v w. Some (compare v w) };

    ghost laws = { compare_partial };

    /// The result of `cmp`, which there always is.
    ///
    /// ```
    /// let short = FixedBitSet::from_iter(alloc, [3])?;
    /// let long = FixedBitSet::with_capacity(alloc, 70)?;
    /// assert!(rt; short < long);
    /// assert_eq!(rt; long.partial_cmp(&short), Some(Ordering::Greater));
    /// ```
    #[inline]
    fn partial_cmp(&self, other: &Self) -> Option<Ordering> {
        Some(self.cmp(other))
    }
}

impl Ord for FixedBitSet {
    ghost cmp = { compare };

    ghost total = { compare_total };

    ghost matches_partial_cmp = { λ v w. refl };

    ghost matches_eq = { compare_ties };

    /// The order: the shorter set is less. Of two sets of one length, look at the first 64
    /// positions, the next 64, and so on. In the first such group in which they differ, the
    /// greatest position that one has and the other lacks decides: the set that has it is greater.
    ///
    /// It compares the lengths, and at equal lengths the words as numbers, up to the first pair
    /// that differs: at most `len() / 64` pairs, rounded up. Upstream orders by the length and then
    /// by its words as numbers, which is the same.
    ///
    /// ```
    /// let set = FixedBitSet::from_iter(alloc, [4, 69])?;
    /// let lower = FixedBitSet::from_iter(alloc, [0, 3, 69])?;
    /// let later = FixedBitSet::from_iter(alloc, [68, 69])?;
    /// assert_eq!(rt; set.cmp(&lower), Ordering::Greater);
    /// assert_eq!(rt; set.cmp(&later), Ordering::Greater);
    /// ```
    #[inline]
    #[tactic(auto, using(crate::specs::OrderFacts::ordered))]
    fn cmp(&self, other: &Self) -> Ordering
        ensures value { result ≡ compare self.now other.now }
        ensures order { MatchOrdering result (IsBelow self.now other.now) (self.now ≡ other.now)
            (IsBelow other.now self.now) }
    {
        self.as_bits().compare(other.as_bits(), &mut Steps::new())
    }
}

impl Hash for FixedBitSet {
    ghost hash_input = { fed_by };

    ghost respects_eq = { fed_alike };

    /// Feeds the hasher the length and then the words, of which there are `len() / 64`, rounded up.
    /// So equal sets feed it the same.
    ///
    /// ```
    /// let mut seen = HashSet::new(alloc);
    /// seen.insert(FixedBitSet::from_iter(alloc, [64, 3])?)?;
    /// assert!(rt; seen.contains(&FixedBitSet::from_iter(alloc, [3, 64])?));
    /// assert!(rt; !seen.contains(&FixedBitSet::from_iter(alloc, [3, 64, 65])?));
    /// ```
    #[tactic(auto, unfolding(crate::specs::Order::fed_by))]
    fn hash<H: Hasher>(&self, state: &mut H) {
        self.len().hash(state);
        self.as_slice().hash(state);
    }
}
