//! A cursor over the positions that are set in a row of words, in ascending order, from both ends.
//!
//! It holds the first and the last word of those left, without the bits that were given. The words
//! between them stand in a `Middle`, which says where they come from: a slice, a slice of inverted
//! words, two slices joined, or a vector that the cursor owns.

ghost use Rattle.std.specs.Prelude.{◌≡◌, ℕ, ◌+◌, ◌*◌, ◌^◌, ◌<◌, ◌≤◌, ◌∷◌, ◌++◌, []};
ghost use Rattle.std.specs.Prelude.{List, length, map, slice_get, Some, IfSome};
ghost use Rattle.std.specs.Int.{bit_not, w64};
ghost use Rattle.std.specs.Iterator.{YieldsFirst, YieldsLast, item_count, UpTo};
ghost use Rattle.std.specs.Iterator.SizeHint.{IsWithinCount};
ghost use Rattle.std.specs.Slice.Iter.{iter_rest};
ghost use Rattle.std.specs.Vec.Iter.{into_iter_items};
ghost use Rattle.bitlanes.specs.Words.{lane_steps};
ghost use Rattle.bitwords.specs.Rows.{has_bit, count_below};
ghost use Rattle.bitwords.specs.Steps.{beside_steps, CountsLeft};
ghost use Rattle.bitwords.specs.Walk.{GivesFirst, GivesLast, between_ends};
ghost use Rattle.bitwords.specs.Walk.{over_row, within_row, range_row};
ghost use Rattle.bitwords.specs.WalkedWords.{beside, held_items, held_walk, IsSpaced};

use crate::joins;
use bitlanes::counter::Steps;
use bitlanes::lanes;
use bitlanes::ops::WordOp;
use bitlanes::word::{BITS, Block, ones_below, stretch, take_highest_bit, take_lowest_bit};
use std::alloc::Global;
use std::marker::{Model, PhantomData};
use std::slice::Iter;
use std::vec;

/// Words that a cursor has still to take, from either end.
///
/// ```
/// let mut middle = Plain { words: [3, 5, 7].iter() };
/// assert_eq!(rt; Middle::take_first(&mut middle), Some(3));
/// assert_eq!(rt; Middle::take_last(&mut middle), Some(7));
/// assert_eq!(rt; Middle::left(&middle), 1);
/// assert_eq!(rt; Middle::count_positions(middle, &mut Steps::new()), 2);
/// ```
pub trait Middle {
    /// The words, in order.
    ghost words: { Self → List ℕ };

    /// Takes the first word, if there is one.
    fn take_first(&mut self) -> Option<Block>
        ensures { YieldsFirst words self.old result self.new };

    /// Takes the last word, if there is one.
    fn take_last(&mut self) -> Option<Block>
        ensures { YieldsLast words self.old result self.new };

    /// How many words are left.
    fn left(&self) -> usize
        ensures { result ≡ length (words self.now) };

    /// How many steps a count takes.
    ghost count_steps: { Self → ℕ };

    /// How many positions the words left have. Precondition: they are below 2 ^ 58.
    ///
    /// It goes over words, and over no positions: it takes at most one step for each lane of four
    /// words, and one more.
    fn count_positions(self, steps: &mut Steps) -> usize
        requires { 64 * length (words self) < 2 ^ 64 }
        ensures count { result ≡ count_below (has_bit (words self)) (64 * length (words self)) }
        ensures cost { steps.new ≤ steps.old + lane_steps (length (words self)) + 1 }
        ensures exact { steps.new ≡ steps.old + count_steps self };
}

/// Words that can be looked at before they are taken.
///
/// ```
/// let middle = Plain { words: [3, 5, 7].iter() };
/// assert_eq!(rt; Seen::peek(&middle, 1), Some(5));
/// assert_eq!(rt; Seen::peek(&middle, 3), None);
/// ```
pub trait Seen: Middle {
    /// The word at this place of those left, or `None` past the last one.
    fn peek(&self, index: usize) -> Option<Block>
        ensures { result ≡ slice_get (Self.words self.now) index };
}

/// Words of a slice.
///
/// ```
/// let mut cursor = Cursor::over(Plain { words: [8, 0, 1].iter() });
/// assert_eq!(rt; cursor.next_back(), Some(128));
/// assert!(rt; cursor.eq([3]));
/// ```
#[derive(Drop)]
pub struct Plain<'a> {
    pub words: Iter<'a, Block>,
}

impl<'a> Middle for Plain<'a> {
    ghost words = { λ middle. iter_rest middle.words };

    ghost count_steps = { λ middle. lane_steps (length (iter_rest middle.words)) };

    #[inline]
    fn take_first(&mut self) -> Option<Block> {
        let word = self.words.next()?;
        Some(*word)
    }

    #[inline]
    fn take_last(&mut self) -> Option<Block> {
        let word = self.words.next_back()?;
        Some(*word)
    }

    #[inline]
    fn left(&self) -> usize {
        self.words.len()
    }

    #[inline]
    fn count_positions(self, steps: &mut Steps) -> usize {
        count_of(self.words.as_slice(), steps)
    }
}

impl<'a> Seen for Plain<'a> {
    #[inline]
    fn peek(&self, index: usize) -> Option<Block> {
        self.words.as_slice().get(index).copied()
    }
}

/// Words of a slice, each bit inverted.
///
/// ```
/// let words = [Block::MAX - 8];
/// let plain = Plain { words: words.iter() };
/// let cursor = Cursor::over(Inverted { plain });
/// assert!(rt; cursor.eq([3]));
/// ```
#[derive(Drop)]
pub struct Inverted<'a> {
    pub plain: Plain<'a>,
}

impl<'a> Middle for Inverted<'a> {
    ghost words = { λ middle. map (bit_not w64) (iter_rest middle.plain.words) };

    ghost count_steps = { λ middle. lane_steps (length (iter_rest middle.plain.words)) };

    #[inline]
    fn take_first(&mut self) -> Option<Block> {
        Some(!self.plain.take_first()?)
    }

    #[inline]
    fn take_last(&mut self) -> Option<Block> {
        Some(!self.plain.take_last()?)
    }

    #[inline]
    fn left(&self) -> usize {
        self.plain.left()
    }

    #[inline]
    fn count_positions(self, steps: &mut Steps) -> usize {
        count_lacking(self.plain.words.as_slice(), steps)
    }
}

impl<'a> Seen for Inverted<'a> {
    #[inline]
    fn peek(&self, index: usize) -> Option<Block> {
        Some(!self.plain.peek(index)?)
    }
}

/// Words of a slice, each joined by `O` with the word at its place of another slice. Past the end
/// of that it is joined with 0.
///
/// So the positions of a word are looked up in the other slice at once, when the word is taken.
///
/// ```
/// let beside = Beside::<AndNot>::of(&[11, 1], &[8]);
/// assert!(rt; Cursor::over(beside).eq([0, 1, 64]));
/// ```
#[derive(Drop)]
pub struct Beside<'a, O> {
    pub plain: Plain<'a>,
    pub other: &'a [Block],
    operation: PhantomData<O>,
}

impl<'a, O: WordOp> Beside<'a, O> {
    /// The words of the first slice, each with the word at its place of the other one.
    ///
    /// ```
    /// let beside = Beside::<And>::of(&[11, 1], &[8]);
    /// assert!(rt; Cursor::over(beside).eq([3]));
    /// ```
    #[inline(always)]
    pub fn of(words: &'a [Block], other: &'a [Block]) -> Beside<'a, O>
        ensures words { iter_rest result.plain.words ≡ words.now }
        ensures other { result.other.now ≡ other.now }
    {
        let words = words.iter();
        Beside {
            plain: Plain { words },
            other,
            operation: PhantomData,
        }
    }
}

impl<'a, O: WordOp> Middle for Beside<'a, O> {
    ghost words = { λ middle. beside O.joined (iter_rest middle.plain.words) middle.other.now };

    ghost count_steps = { λ middle. beside_steps O.KEEP
        (length (iter_rest middle.plain.words)) (length middle.other.now) };

    #[inline]
    fn take_first(&mut self) -> Option<Block> {
        let word = self.plain.take_first()?;
        let Some((other, rest)) = self.other.split_first() else {
            return Some(O::word(word, 0));
        };
        self.other = rest;
        Some(O::word(word, *other))
    }

    #[inline]
    fn take_last(&mut self) -> Option<Block> {
        let word = self.plain.take_last()?;
        let other = self.other.get(self.plain.left());
        Some(O::word(word, other.copied().unwrap_or(0)))
    }

    #[inline]
    fn left(&self) -> usize {
        self.plain.left()
    }

    #[inline]
    fn count_positions(self, steps: &mut Steps) -> usize {
        count_beside::<O>(self.plain.words.as_slice(), self.other, steps)
    }
}

/// Words that the cursor owns.
impl Middle for vec::IntoIter<Block, Global> {
    ghost words = { into_iter_items };

    ghost count_steps = { λ words. lane_steps (length (into_iter_items words)) };

    #[inline]
    fn take_first(&mut self) -> Option<Block> {
        self.next()
    }

    #[inline]
    fn take_last(&mut self) -> Option<Block> {
        self.next_back()
    }

    #[inline]
    fn left(&self) -> usize {
        self.len()
    }

    #[inline]
    fn count_positions(self, steps: &mut Steps) -> usize {
        let mut words = self;
        steps.tick_lanes(words.left());
        let mut total = 0;
        while let Some(word) = words.take_first() {
            total += word.count_ones() as usize;
        }
        total
    }
}

// How many positions a row of words has.
#[inline]
fn count_of(words: &[Block], steps: &mut Steps) -> usize
    requires { 64 * length words.now < 2 ^ 64 }
    ensures count { result ≡ count_below (has_bit words.now) (64 * length words.now) }
    ensures cost { steps.new ≡ steps.old + lane_steps (length words.now) }
{
    lanes::count_one(words, steps)
}

// How many positions it lacks.
#[inline]
fn count_lacking(words: &[Block], steps: &mut Steps) -> usize
    requires { 64 * length words.now < 2 ^ 64 }
    ensures count { result
        ≡ count_below (has_bit (map (bit_not w64) words.now)) (64 * length words.now) }
    ensures cost { steps.new ≡ steps.old + lane_steps (length words.now) }
{
    BITS * words.len() - lanes::count_one(words, steps)
}

// How many it has once each word is joined by `O` with the word at its place of the other row.
#[inline]
fn count_beside<O: WordOp>(words: &[Block], other: &[Block], steps: &mut Steps) -> usize
    requires { 64 * length words.now < 2 ^ 64 }
    ensures count { result
        ≡ count_below (has_bit (beside O.joined words.now other.now)) (64 * length words.now) }
    ensures cost { steps.new ≤ steps.old + lane_steps (length words.now) + 1 }
    ensures exact { steps.new
        ≡ steps.old + beside_steps O.KEEP (length words.now) (length other.now) }
{
    let common = words.len().min(other.len());
    joins::count::<O>(words, &other[..common], steps)
}

// A row of words, cut into its ends and those between. For a word that isn't there, an end has 0.
#[derive(Drop)]
struct Ends<M> {
    front: Block,
    middle: M,
    back: Block,
}

#[inline(always)]
fn ends_of<M: Middle + Drop>(mut words: M) -> Ends<M>
    ensures bits { (p : ℕ) → has_bit (result.front ∷ (M.words result.middle ++ result.back ∷ [])) p
        ≡ has_bit (M.words words) p }
    ensures middle { M.words result.middle ≡ between_ends (M.words words) }
    ensures single { length (M.words words) ≤ 1 → result.back ≡ 0 }
{
    let front = words.take_first().unwrap_or(0);
    let back = words.take_last().unwrap_or(0);
    Ends {
        front,
        middle: words,
        back,
    }
}

/// What a cursor holds, for a caller that keeps its fields and no cursor: the first and the
/// last word of those left without the bits that were given, the positions of their bits 0, and
/// the words between them.
#[derive(Drop)]
pub struct Held<M> {
    pub front: Block,
    pub back: Block,
    pub front_at: usize,
    pub back_at: usize,
    pub middle: M,
}

/// The positions set in a row of words, in ascending order, from both ends.
///
/// A call makes one turn, and one more for each word that it takes. The two counts take no bytes
/// when the program runs.
///
/// ```
/// let words = [8, 0, 1].to_vec(alloc)?;
/// let mut cursor = Cursor::over(words.into_iter());
/// assert_eq!(rt; cursor.next_back(), Some(128));
/// assert!(rt; cursor.eq([3]));
/// ```
#[derive(Drop)]
pub struct Cursor<M: Middle + Drop> {
    // The first and the last word of those left, without the bits that were given.
    front: Block,
    back: Block,
    // The positions of their bits 0.
    front_at: usize,
    back_at: usize,
    // The words between them, which are not yet taken.
    middle: M,
    turns: Steps,
    taken: Steps,
}

impl<M: Middle + Drop> Model for Cursor<M> {
    ghost use Rattle.std.specs.Prelude.{◌∷◌, ◌++◌, [], length};
    ghost use Rattle.bitwords.specs.Walk.{Walk};
    ghost use Rattle.bitwords.specs.WalkedWords.{IsSpaced, ones_from};

    ghost Value = { Walk };

    ghost view = { λ s. record {
      items = ones_from s.front_at (s.front ∷ (M.words s.middle ++ s.back ∷ []));
      words = M.words s.middle;
      turns = s.turns;
      taken = s.taken;
    } };

    ghost invariant = { λ s. IsSpaced s.front_at s.back_at (length (M.words s.middle)) s.back };
}

impl<M: Middle + Drop> Cursor<M> {
    /// The positions set in the words. The first and the last word are read; those
    /// between are not yet taken.
    ///
    /// ```
    /// let cursor = Cursor::over(Plain { words: [9, 0, 1].iter() });
    /// assert!(rt; cursor.eq([0, 3, 128]));
    /// ```
    #[inline(always)]
    pub fn over(words: M) -> Cursor<M>
        requires { 64 * length (M.words words) ≤ 2 ^ 64 }
        ensures { result ≡ over_row (M.words words) (64 * length (M.words words)) }
    {
        let ends = ends_of(words);
        let back_at = BITS * (ends.middle.left() + 1);
        Cursor::placed(ends, 0, back_at)
    }

    /// Those of the positions from `low` up to and without `end`, each moved up by `at`. `low` lies
    /// in the first word, and `end` in the last one or at its end.
    ///
    /// ```
    /// let cursor = Cursor::within(Plain { words: [9, 255].iter() }, 640, 1, 66);
    /// assert!(rt; cursor.eq([643, 704, 705]));
    /// ```
    #[inline(always)]
    pub fn within(words: M, at: usize, low: usize, end: usize) -> Cursor<M>
        requires fits { at + 64 * length (M.words words) ≤ 2 ^ 64 }
        requires room { at + 64 ≤ 2 ^ 64 }
        requires first { low ≤ 64 }
        requires order { low ≤ end }
        requires long { end ≤ 64 * length (M.words words) }
        requires last { 64 * length (M.words words) < end + 64 }
        ensures { result ≡ within_row (M.words words) at low end }
    {
        let back_at = at + BITS * words.left().saturating_sub(1);
        let mut ends = ends_of(words);
        let behind = BITS * (ends.middle.left() + 1);
        ends.front &= stretch(low, end.min(BITS));
        ends.back &= ones_below(end.saturating_sub(behind));
        Cursor::placed(ends, at, back_at)
    }

    /// What the cursor holds. `of_held` makes a cursor of it again, which has the same items left.
    ///
    /// ```
    /// let mut cursor = Cursor::over(Plain { words: [9, 0, 1].iter() });
    /// assert_eq!(rt; cursor.next(), Some(0));
    /// assert_eq!(rt; cursor.into_held().front, 8);
    /// ```
    #[inline(always)]
    pub fn into_held(self) -> Held<M>
        ensures items { held_items result.front_at result.front (M.words result.middle) result.back
            ≡ self.items }
        ensures words { M.words result.middle ≡ self.words }
        ensures spaced { IsSpaced result.front_at result.back_at
            (length (M.words result.middle)) result.back }
    {
        let Cursor {
            front,
            back,
            front_at,
            back_at,
            middle,
            turns: _,
            taken: _,
        } = self;
        Held {
            front,
            back,
            front_at,
            back_at,
            middle,
        }
    }

    /// The cursor that holds this. Its counts begin at 0.
    ///
    /// ```
    /// let cursor = Cursor::over(Plain { words: [9, 0, 1].iter() });
    /// let held = cursor.into_held();
    /// assert!(rt; Cursor::of_held(held).eq([0, 3, 128]));
    /// ```
    #[inline(always)]
    pub fn of_held(held: Held<M>) -> Cursor<M>
        requires { IsSpaced held.front_at held.back_at (length (M.words held.middle)) held.back }
        ensures { result
            ≡ held_walk held.front_at held.front (M.words held.middle) held.back }
    {
        let Held {
            front,
            back,
            front_at,
            back_at,
            middle,
        } = held;
        Cursor {
            front,
            back,
            front_at,
            back_at,
            middle,
            turns: Steps::new(),
            taken: Steps::new(),
        }
    }

    /// How many positions are left. Precondition: this number fits `usize`.
    ///
    /// It goes over the words and over no positions: with `m` words between the two that the cursor
    /// holds it takes at most `m / 4` steps, rounded up, and two more: those of a count of these
    /// words ([`Middle::count_positions`]), and exactly one more.
    ///
    /// ```
    /// let mut cursor = Cursor::over(Plain { words: [9, 7, 1].iter() });
    /// assert_eq!(rt; cursor.next(), Some(0));
    /// assert_eq!(rt; cursor.count_left(&mut Steps::new()), 5);
    /// ```
    #[inline]
    pub fn count_left(self, steps: &mut Steps) -> usize
        requires { length self.items < 2 ^ 64 }
        ensures value { result ≡ length self.items }
        ensures cost { steps.new ≤ steps.old + lane_steps (length self.words) + 2 }
        ensures exact { CountsLeft M.words M.count_steps self.words steps.old steps.new }
    {
        let held = self.into_held();
        let ends = [held.front, held.back];
        held.middle.count_positions(steps) + lanes::count_one(&ends, steps)
    }

    // The words stand at these positions, the ones between the first and the last one after the
    // other.
    #[inline(always)]
    fn placed(ends: Ends<M>, front_at: usize, back_at: usize) -> Cursor<M>
        requires { IsSpaced front_at back_at (length (M.words ends.middle)) ends.back }
        ensures { result ≡ held_walk front_at ends.front (M.words ends.middle) ends.back }
    {
        Cursor {
            front: ends.front,
            back: ends.back,
            front_at,
            back_at,
            middle: ends.middle,
            turns: Steps::new(),
            taken: Steps::new(),
        }
    }
}

impl<M: Middle + Drop> Iterator for Cursor<M> {
    type Item = usize;

    ghost next_gives = { GivesFirst };

    ghost remaining = { item_count (λ walk. walk.items) };

    /// The least position left, or `None` where none is, and then for good.
    #[inline]
    fn next(&mut self) -> Option<usize> {
        loop {
            self.turns.tick();
            if self.front != 0 {
                return Some(self.front_at + take_lowest_bit(&mut self.front));
            }
            match self.middle.take_first() {
                Some(word) => {
                    self.taken.tick();
                    self.front = word;
                    self.front_at += BITS;
                }
                None => {
                    if self.back == 0 {
                        return None;
                    }
                    let position = self.back_at + take_lowest_bit(&mut self.back);
                    // The last word comes to the front: its other bits are then given
                    // as those of every word.
                    self.front = self.back;
                    self.front_at = self.back_at;
                    self.back = 0;
                    return Some(position);
                }
            }
        }
    }

    /// At least 0, and at most 64 for each word not yet taken and for each of the two that the
    /// cursor holds. The latter is `None` where it is no `usize`.
    #[inline]
    fn size_hint(&self) -> (usize, Option<usize>)
        ensures zero { result.0 ≡ 0 }
        ensures lower { IsWithinCount result.0 (item_count (λ walk. walk.items) self.now) }
        ensures upper { IfSome result.1 (UpTo (item_count (λ walk. walk.items) self.now)) }
        ensures some_if_fits { 64 * (length self.now.words + 2) < 2 ^ 64
            → result.1 ≡ Some (64 * (length self.now.words + 2)) }
    {
        (0, (self.middle.left() + 2).checked_mul(BITS))
    }
}

impl<M: Middle + Drop> DoubleEndedIterator for Cursor<M> {
    ghost next_back_gives = { GivesLast };

    /// The greatest position left, or `None` where none is, and then for good.
    #[inline]
    fn next_back(&mut self) -> Option<usize> {
        loop {
            self.turns.tick();
            if self.back != 0 {
                return Some(self.back_at + take_highest_bit(&mut self.back));
            }
            match self.middle.take_last() {
                Some(word) => {
                    self.taken.tick();
                    self.back = word;
                    self.back_at -= BITS;
                }
                None => {
                    if self.front == 0 {
                        return None;
                    }
                    return Some(self.front_at + take_highest_bit(&mut self.front));
                }
            }
        }
    }
}

/// The positions of the row that are set, from `start` up to and without `end`. No other word than
/// those that hold a position of the range is looked at.
///
/// ```
/// let cursor = cursors::ones_within(&[9, 0, 7], 3, 130);
/// assert!(rt; cursor.eq([3, 128, 129]));
/// ```
#[inline(always)]
pub fn ones_within<'a>(words: &'a [Block], start: usize, end: usize) -> Cursor<Plain<'a>>
    requires fits { 64 * length words.now ≤ 2 ^ 64 }
    requires order { start ≤ end }
    requires within { end ≤ 64 * length words.now }
    ensures { result ≡ range_row words.now start end }
{
    let first = start / BITS;
    let words = words[first..end.div_ceil(BITS)].iter();
    let at = BITS * first;
    Cursor::within(Plain { words }, at, start - at, end - at)
}

/// The positions of the row that are not set, from `start` up to and without `end`. No other word
/// than those that hold a position of the range is looked at.
///
/// ```
/// let cursor = cursors::zeroes_within(&[Block::MAX, 5], 60, 68);
/// assert!(rt; cursor.eq([65, 67]));
/// ```
#[inline(always)]
pub fn zeroes_within<'a>(words: &'a [Block], start: usize, end: usize) -> Cursor<Inverted<'a>>
    requires fits { 64 * length words.now ≤ 2 ^ 64 }
    requires order { start ≤ end }
    requires within { end ≤ 64 * length words.now }
    ensures { result ≡ range_row (map (bit_not w64) words.now) start end }
{
    let first = start / BITS;
    let plain = Plain {
        words: words[first..end.div_ceil(BITS)].iter(),
    };
    let at = BITS * first;
    Cursor::within(Inverted { plain }, at, start - at, end - at)
}
