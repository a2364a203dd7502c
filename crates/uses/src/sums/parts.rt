//! Which totals the parts of a list of numbers have: the subset-sum problem.
//!
//! A part takes some of the numbers, each at most once, and its total is their sum
//! (`specs/Sums.antt`). The empty part has the total 0.

ghost use Rattle.std.specs.Prelude.{◌≡◌, ◌+◌, ◌-◌, ◌^◌, ◌<◌, ◌≤◌, ◌↔◌, ℕ, IsTrue, IfOk};
ghost use Rattle.fixedbitset.specs.Bits.{contains};
ghost use Rattle.uses.specs.Sums.{HasTotal};

use fixedbitset::FixedBitSet;
use std::alloc::{AllocError, Global};

/// The totals up to `limit` that some part of the numbers has, as a set of one more position.
///
/// A number may be any, and may come more than once. It reads and writes each word of the set at
/// most once for each number. `Err` is returned only where the allocation of the set failed.
#[tactic(auto, using(fixedbitset::specs::BitsFacts::facts))]
pub fn totals(alloc: Global, numbers: &[usize], limit: usize) -> Result<FixedBitSet, AllocError>
    requires { limit < 2 ^ 64 - 1 }
    ensures length { IfOk result (λ set. set.length ≡ limit + 1) }
    ensures totals { IfOk result (λ set. (total : ℕ) →
        IsTrue (contains set total) ↔ ((total ≤ limit) × HasTotal numbers.now total)) }
{
    let mut set = FixedBitSet::with_capacity(alloc, limit + 1)?;
    set.insert(0);
    for number in numbers {
        set.union_with_own_shift(*number);
    }
    Ok(set)
}
