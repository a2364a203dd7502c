//! Two iterators in turn: from the front the first and then the second, from the back the second
//! and then the first.

ghost use Rattle.std.specs.Prelude.{◌≡◌, ℕ, ◌+◌, ◌*◌, ◌^◌, ◌<◌, ◌≤◌, ◌++◌, List};
ghost use Rattle.std.specs.Prelude.{[], true, false, length, Some, IfSome};
ghost use Rattle.std.specs.Iterator.{YieldsFirst, YieldsLast, UpTo, at_most};
ghost use Rattle.bitlanes.specs.Words.{lane_steps};
ghost use Rattle.bitwords.specs.Steps.{CountsLeft};
ghost use Rattle.bitwalks.specs.Pairs.{WalksFront, WalksBack};
ghost use Rattle.bitwalks.specs.PairsFacts.{walk_stays, walk_stays_back};

use bitlanes::counter::Steps;
use bitwords::cursors::{Cursor, Middle};
use std::marker::Model;

/// An iterator that may be one of two in turn.
///
/// ```
/// let mut walk = Cursor::over(Plain { words: [9, 1].iter() });
/// assert_eq!(rt; Part::take_first(&mut walk), Some(0));
/// assert_eq!(rt; Part::take_last(&mut walk), Some(64));
/// ```
pub trait Part {
    /// The items left.
    ghost items: { Self → List ℕ };

    /// What calls from the front, or none, do to the iterator.
    ghost front: { Self → Self → Type 0 };

    /// What calls from the back, or none, do to the iterator.
    ghost back: { Self → Self → Type 0 };

    /// The first item left.
    fn take_first(&mut self) -> Option<usize>
        ensures gives { YieldsFirst items self.old result self.new }
        ensures moves { front self.old self.new };

    /// The last item left.
    fn take_last(&mut self) -> Option<usize>
        ensures gives { YieldsLast items self.old result self.new }
        ensures moves { back self.old self.new };

    /// 64 for each word that the iterator holds or has not yet taken.
    ghost room: { Self → ℕ };

    /// That number, which is not below the number of items left, where it is a `usize`.
    fn most(&self) -> Option<usize>
        ensures upper { IfSome result (UpTo (at_most (length (items self.now)))) }
        ensures some_if_fits { room self.now < 2 ^ 64 → result ≡ Some (room self.now) };

    /// Where no call is made, `front` holds of the iterator and itself.
    ghost front_stays: { (walk : Self) → front walk walk };

    /// Where no call is made, `back` holds of the iterator and itself.
    ghost back_stays: { (walk : Self) → back walk walk };
}

impl<M: Middle + Drop> Part for Cursor<M> {
    ghost items = { λ walk. walk.items };

    ghost front = { WalksFront };

    ghost back = { WalksBack };

    ghost room = { λ walk. 64 * (length walk.words + 2) };

    #[inline]
    fn take_first(&mut self) -> Option<usize> {
        self.next()
    }

    #[inline]
    fn take_last(&mut self) -> Option<usize> {
        self.next_back()
    }

    #[inline]
    fn most(&self) -> Option<usize> {
        self.size_hint().1
    }

    ghost front_stays = { walk_stays };

    ghost back_stays = { walk_stays_back };
}

/// An iterator whose items left can be counted at once.
///
/// ```
/// let walk = Cursor::over(Plain { words: [9, 1].iter() });
/// assert_eq!(rt; Counted::count_items(walk, &mut Steps::new()), 3);
/// ```
pub trait Counted: Part {
    /// How many steps a count takes at most.
    ghost most_steps: { Self → ℕ };

    /// Whether a count may take the counter from the one number to the other.
    ghost counts: { Self → ℕ → ℕ → Type 0 };

    /// How many items are left. Precondition: this number fits `usize`.
    fn count_items(self, steps: &mut Steps) -> usize
        requires { length (Self.items self) < 2 ^ 64 }
        ensures value { result ≡ length (Self.items self) }
        ensures cost { steps.new ≤ steps.old + most_steps self }
        ensures exact { counts self steps.old steps.new };
}

impl<M: Middle + Drop> Counted for Cursor<M> {
    ghost most_steps = { λ walk. lane_steps (length walk.words) + 2 };

    ghost counts = { λ walk. CountsLeft M.words M.count_steps walk.words };

    #[inline]
    fn count_items(self, steps: &mut Steps) -> usize {
        self.count_left(steps)
    }
}

/// The items of the first iterator, and then those of the second.
///
/// ```
/// let first = Cursor::over(Plain { words: [9, 1].iter() });
/// let second = Cursor::over(Plain { words: [6].iter() });
/// let mut walks = InTurn::of(first, second);
/// assert_eq!(rt; (walks.take_first(), walks.take_last()), (Some(0), Some(2)));
/// ```
#[derive(Drop)]
pub struct InTurn<A: Part + Drop, B: Part + Drop> {
    first: A,
    second: B,
    // Whether the first iterator may still have items: once it gave none, no call from the front
    // asks it again.
    first_left: bool,
}

impl<A: Part + Drop, B: Part + Drop> Model for InTurn<A, B> {
    ghost use Rattle.std.specs.Prelude.{◌≡◌, [], false};
    ghost use Rattle.bitwalks.specs.Pairs.{Two};

    ghost Value = { Two A B };

    ghost view = { λ s. record {
      first = s.first;
      second = s.second;
      first_left = s.first_left;
    } };

    ghost invariant = { λ s. s.first_left ≡ false → A.items s.first ≡ [] };
}

impl<A: Part + Drop, B: Part + Drop> InTurn<A, B> {
    /// These two iterators, the first before the second.
    ///
    /// ```
    /// let first = Cursor::over(Plain { words: [9, 1].iter() });
    /// let second = Cursor::over(Plain { words: [6].iter() });
    /// assert_eq!(rt; InTurn::of(first, second).take_first(), Some(0));
    /// ```
    #[inline]
    pub fn of(first: A, second: B) -> InTurn<A, B>
        ensures first { result.first ≡ first }
        ensures second { result.second ≡ second }
        ensures left { result.first_left ≡ true }
    {
        InTurn {
            first,
            second,
            first_left: true,
        }
    }

    /// The first item that the first iterator has left, and once it has none, the first of the
    /// second. A first iterator that gave none is not asked again.
    ///
    /// ```
    /// let first = Cursor::over(Plain { words: [8].iter() });
    /// let second = Cursor::over(Plain { words: [6].iter() });
    /// let mut walks = InTurn::of(first, second);
    /// assert_eq!(rt; (walks.take_first(), walks.take_first()), (Some(3), Some(1)));
    /// ```
    #[inline]
    pub fn take_first(&mut self) -> Option<usize>
        ensures gives { YieldsFirst
            (λ walk. A.items walk.first ++ B.items walk.second) self.old result self.new }
        ensures first { A.front self.old.first self.new.first }
        ensures second { B.front self.old.second self.new.second }
        ensures ended { A.items self.old.first ≡ [] → self.new.first_left ≡ false }
        ensures once { self.old.first_left ≡ false → self.new.first ≡ self.old.first }
    {
        // A loop of one turn at most, so that the compiler keeps the caller's numbers in registers.
        while self.first_left {
            if let Some(position) = self.first.take_first() {
                return Some(position);
            }
            self.first_left = false;
        }
        self.second.take_first()
    }

    /// The last item that the second iterator has left, and where it has none, the last of the
    /// first. A first iterator that gave none from the front is not asked again.
    ///
    /// ```
    /// let first = Cursor::over(Plain { words: [8].iter() });
    /// let second = Cursor::over(Plain { words: [2].iter() });
    /// let mut walks = InTurn::of(first, second);
    /// assert_eq!(rt; (walks.take_last(), walks.take_last()), (Some(1), Some(3)));
    /// ```
    #[inline]
    pub fn take_last(&mut self) -> Option<usize>
        ensures gives { YieldsLast
            (λ walk. A.items walk.first ++ B.items walk.second) self.old result self.new }
        ensures first { A.back self.old.first self.new.first }
        ensures second { B.back self.old.second self.new.second }
        ensures left { self.new.first_left ≡ self.old.first_left }
        ensures once { self.old.first_left ≡ false → self.new.first ≡ self.old.first }
    {
        if let Some(position) = self.second.take_last() {
            return Some(position);
        }
        if self.first_left {
            self.first.take_last()
        } else {
            None
        }
    }

    /// The sum of what both have, which is not below the number of items left,
    /// where it is a `usize`.
    ///
    /// ```
    /// let first = Cursor::over(Plain { words: [9, 1].iter() });
    /// let second = Cursor::over(Plain { words: [6].iter() });
    /// assert_eq!(rt; InTurn::of(first, second).most(), Some(256));
    /// ```
    #[inline]
    pub fn most(&self) -> Option<usize>
        ensures upper { IfSome result
            (UpTo (at_most (length (A.items self.now.first ++ B.items self.now.second)))) }
        ensures some_if_fits { A.room self.now.first + B.room self.now.second < 2 ^ 64
            → result ≡ Some (A.room self.now.first + B.room self.now.second) }
    {
        self.first.most()?.checked_add(self.second.most()?)
    }

    /// The two iterators, each with the items that it has left.
    ///
    /// ```
    /// let first = Cursor::over(Plain { words: [9, 1].iter() });
    /// let second = Cursor::over(Plain { words: [6].iter() });
    /// let (first, _) = InTurn::of(first, second).into_walks();
    /// assert!(rt; first.eq([0, 3, 64]));
    /// ```
    #[inline]
    pub fn into_walks(self) -> (A, B)
        ensures first { result.0 ≡ self.first }
        ensures second { result.1 ≡ self.second }
    {
        let InTurn {
            first,
            second,
            first_left: _,
        } = self;
        (first, second)
    }
}

impl<A: Counted + Drop, B: Counted + Drop> InTurn<A, B> {
    /// How many items both iterators have left. Precondition: this number fits `usize`. It takes
    /// exactly the steps of a count of the one and of the other.
    ///
    /// ```
    /// let first = Cursor::over(Plain { words: [9, 1].iter() });
    /// let second = Cursor::over(Plain { words: [7].iter() });
    /// let mut walks = InTurn::of(first, second);
    /// assert_eq!(rt; walks.take_first(), Some(0));
    /// assert_eq!(rt; walks.count_left(&mut Steps::new()), 5);
    /// ```
    #[inline]
    pub fn count_left(self, steps: &mut Steps) -> usize
        requires { length (A.items self.first ++ B.items self.second) < 2 ^ 64 }
        ensures value { result ≡ length (A.items self.first ++ B.items self.second) }
        ensures cost { steps.new ≤ steps.old + A.most_steps self.first + B.most_steps self.second }
        ensures exact { (between : ℕ) × A.counts self.first steps.old between
            × B.counts self.second between steps.new }
    {
        let (first, second) = self.into_walks();
        first.count_items(steps) + second.count_items(steps)
    }
}
