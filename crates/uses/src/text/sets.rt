//! Sets of the numbers of a row, and their lines.

ghost use Rattle.std.specs.Prelude.{◌≡◌, MatchOption, IfOk, string_bytes};
ghost use Rattle.fixedbitset.specs.Bits.{asc};
ghost use Rattle.uses.specs.Sets.{AreBelow, IsSetOf};
ghost use Rattle.uses.specs.Texts.{one_a_line};

use fixedbitset::FixedBitSet;
use std::alloc::{AllocError, Global};
use std::fmt::Write;

/// The set of this length that has these positions and no other. `None` is returned exactly where
/// some is not below the length.
#[tactic(auto, using(crate::proofs::Members::no_members))]
pub fn set_of(
    alloc: Global,
    length: usize,
    positions: &[usize],
) -> Result<Option<FixedBitSet>, AllocError>
    ensures { IfOk result (λ made. MatchOption made (¬ (AreBelow length positions.now))
        (λ set. AreBelow length positions.now × IsSetOf length positions.now set)) }
{
    let mut set = FixedBitSet::with_capacity(alloc, length)?;
    for position in positions {
        if *position >= length {
            return Ok(None);
        }
        set.insert(*position);
    }
    Ok(Some(set))
}

/// The positions of a set, one a line.
pub(crate) fn as_lines(alloc: Global, set: &FixedBitSet) -> Result<String, AllocError>
    ensures { IfOk result (λ text. string_bytes text ≡ one_a_line (asc set.now)) }
{
    let mut lines = String::new(alloc);
    for position in set.ones() {
        writeln!(lines, "{position}")?;
    }
    Ok(lines)
}
