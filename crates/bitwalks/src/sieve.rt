//! The iterator over one row of words, sieved by another one. Each iterator over two rows stands on
//! it.

ghost use Rattle.std.specs.Prelude.{◌≡◌, ◌+◌, ◌*◌, ◌^◌, ◌<◌, ◌≤◌, ℕ, Bool};
ghost use Rattle.std.specs.Prelude.{not, filter, length, Some, IfSome};
ghost use Rattle.std.specs.Iterator.{item_count, UpTo};
ghost use Rattle.std.specs.Iterator.SizeHint.{IsWithinCount};
ghost use Rattle.bitwords.specs.Rows.{has_bit};
ghost use Rattle.bitwalks.specs.Pairs.{sieve_over, SievesFirst, SievesLast, AsksFront, AsksBack};
ghost use Rattle.bitwalks.specs.PairsFacts.{sieve_stays, sieve_stays_back};

use crate::in_turn::Part;
use crate::walks::Ones;
use bitlanes::counter::Steps;
use bitlanes::word::{BITS, Block};
use std::iter::FusedIterator;
use std::marker::{Model, PhantomData};

/// Which positions a sieve lets through.
///
/// ```
/// assert!(rt; <Shared as Choice>::passes(true));
/// assert!(rt; <Lacked as Choice>::passes(false));
/// ```
pub trait Choice {
    /// Whether a position passes, by whether the other row has it.
    ghost passes: { Bool → Bool };

    fn passes(is_set: bool) -> bool
        ensures { result ≡ passes is_set };
}

/// The positions that the other row has.
pub struct Shared;

impl Choice for Shared {
    ghost passes = { λ b. b };

    #[inline(always)]
    fn passes(is_set: bool) -> bool {
        is_set
    }
}

/// The positions that the other row lacks.
pub struct Lacked;

impl Choice for Lacked {
    ghost passes = { not };

    #[inline(always)]
    fn passes(is_set: bool) -> bool {
        !is_set
    }
}

// Whether the position is set: `false` past the words. One test covers the places within them and
// past them, so that the compiler keeps no mark of whether a position was given.
#[inline(always)]
fn is_set(words: &[Block], position: usize) -> bool
    ensures { result ≡ has_bit words.now position }
{
    let word = words.get(position / BITS).copied().unwrap_or(0);
    word & (1 << (position % BITS)) != 0
}

/// The positions of one row that pass, in ascending order.
///
/// ```
/// let (words, other) = ([11, 1], [8]);
/// let mut walk = Difference::over(&words, &other);
/// assert_eq!(rt; (walk.next_back(), walk.next()), (Some(64), Some(0)));
/// ```
pub struct Sieve<'a, C: Choice> {
    source: Ones<'a>,
    other: &'a [Block],
    asked: Steps,
    choice: PhantomData<C>,
}

impl<'a, C: Choice> Model for Sieve<'a, C> {
    ghost use Rattle.std.specs.Prelude.{filter};
    ghost use Rattle.bitwords.specs.Rows.{has_bit};
    ghost use Rattle.bitwalks.specs.Pairs.{Sieved};

    ghost Value = { Sieved };

    ghost view = { λ s. record {
      items = filter (λ p. C.passes (has_bit s.other.now p)) s.source.items;
      asked = s.asked;
      source = s.source;
    } };
}

impl<'a, C: Choice> Drop for Sieve<'a, C> {
    #[inline]
    fn drop(self) {
        let Sieve {
            source: _,
            other: _,
            asked: _,
            choice: _,
        } = self;
    }
}

impl<'a, C: Choice> Sieve<'a, C> {
    /// The iterator over the positions of `words`, sieved by `other`.
    ///
    /// ```
    /// let (words, other) = ([11, 1], [8]);
    /// assert!(rt; Intersection::over(&words, &other).eq([3]));
    /// assert!(rt; Difference::over(&words, &other).eq([0, 1, 64]));
    /// ```
    #[inline]
    pub fn over(words: &'a [Block], other: &'a [Block]) -> Sieve<'a, C>
        requires { 64 * length words.now ≤ 2 ^ 64 }
        ensures { result ≡ sieve_over C.passes words.now other.now }
    {
        Sieve {
            source: Ones::over(words),
            other,
            asked: Steps::new(),
            choice: PhantomData,
        }
    }
}

impl<'a, C: Choice> Iterator for Sieve<'a, C> {
    type Item = usize;

    ghost next_gives = { SievesFirst };

    ghost remaining = { item_count (λ sieved. sieved.items) };

    /// The first position left, or `None` where none is, and then for good. Each item that the
    /// source gives is looked up once; the source is called once for each, and once more at most.
    #[inline]
    fn next(&mut self) -> Option<usize> {
        while let Some(position) = self.source.next() {
            self.asked.tick();
            if C::passes(is_set(self.other, position)) {
                return Some(position);
            }
        }
        None
    }

    /// At least 0, and at most 64 for each word that the source holds or has not yet taken. The
    /// latter is `None` where it is no `usize`.
    #[tactic(auto, using(crate::specs::SieveFacts::hint_sieved))]
    #[inline]
    fn size_hint(&self) -> (usize, Option<usize>)
        ensures zero { result.0 ≡ 0 }
        ensures lower { IsWithinCount result.0 (item_count (λ sieved. sieved.items) self.now) }
        ensures upper { IfSome result.1 (UpTo (item_count (λ sieved. sieved.items) self.now)) }
        ensures some_if_fits { 64 * (length self.now.source.words + 2) < 2 ^ 64
            → result.1 ≡ Some (64 * (length self.now.source.words + 2)) }
    {
        (0, self.source.size_hint().1)
    }
}

impl<'a, C: Choice> DoubleEndedIterator for Sieve<'a, C> {
    ghost next_back_gives = { SievesLast };

    /// The last position left, or `None` where none is, and then for good.
    #[inline]
    fn next_back(&mut self) -> Option<usize> {
        while let Some(position) = self.source.next_back() {
            self.asked.tick();
            if C::passes(is_set(self.other, position)) {
                return Some(position);
            }
        }
        None
    }
}

impl<'a, C: Choice> FusedIterator for Sieve<'a, C> {}

impl<'a, C: Choice> Part for Sieve<'a, C> {
    ghost items = { λ sieved. sieved.items };

    ghost front = { AsksFront };

    ghost back = { AsksBack };

    ghost room = { λ sieved. 64 * (length sieved.source.words + 2) };

    #[inline]
    fn take_first(&mut self) -> Option<usize> {
        self.next()
    }

    #[inline]
    fn take_last(&mut self) -> Option<usize> {
        self.next_back()
    }

    #[inline]
    fn most(&self) -> Option<usize> {
        self.size_hint().1
    }

    ghost front_stays = { sieve_stays };

    ghost back_stays = { sieve_stays_back };
}
