//! Block 3 of CALLING.md. tools/docs/make_examples writes this file.

ghost use Rattle.std.specs.Prelude.{◌≡◌, IfSome};
ghost use Rattle.fixedbitset.specs.Bits.{of_words};
ghost use Rattle.fixedbitset.specs.TwoSets.{intersection_count};

use fixedbitset::{Bits, Block, Steps};

/// How many positions two rows of words share, or `None` where one of them is not the words of a
/// set.
pub fn shared(words: &[Block], other: &[Block], length: usize) -> Option<usize>
    ensures { IfSome result (λ count. count
        ≡ intersection_count (of_words length words.now) (of_words length other.now)) }
{
    let set = Bits::over(words, length)?;
    let other = Bits::over(other, length)?;
    Some(set.intersection_count(other, &mut Steps::new()))
}
