//! How many positions stand below a given one, and which is the k-th: by a directory of the set's
//! words, which the caller keeps next to them.
//!
//! One call writes the directory, and the struct that the others take. While that is used, neither
//! the words nor the directory may change.

ghost use Rattle.std.specs.Prelude.{◌≡◌, ◌==◌, true, false, unwrap_or, if◌then◌else◌, length};
ghost use Rattle.bitranks.specs.Ranks as model;
ghost use Rattle.bitranks.specs.Ranks.{IsDirectory};
ghost use Rattle.bits_c.specs.Sets.{ranked};
ghost use Rattle.fixedbitset.specs.Bits.{empty, storage_words};
ghost use Rattle.fixedbitset.specs.Views.{value};

use crate::structs::Ranks;
use crate::{NONE, bits_words};
use bitlanes::Steps;
use bitranks::directory;
use fixedbitset::views::Bits;

/// Returns how many entries the directory of a set of this length has: one for each eight words,
/// rounded up.
#[unsafe(no_mangle)]
pub extern "C" fn bits_ranks_entries(length: usize) -> usize
    ensures { result ≡ model.entries (storage_words length) }
{
    directory::entries(bits_words(length))
}

// Writes the directory of the set's words where it has as many entries as they need, and returns
// whether it has. It stands apart since its `&mut` ends with it: of one that goes into the ranks no
// clause says how a call leaves it.
#[tactic(auto, using(crate::proofs::Ranked::all_fit))]
#[inline(always)]
fn write_directory(set: &Bits<'_>, directory: &mut [usize]) -> bool
    ensures answer { result
        ≡ (length directory.old == model.entries (storage_words set.now.length)) }
    ensures kept { result ≡ true → IsDirectory set.now.words.now directory.new }
    ensures stays { result ≡ false → directory.new ≡ directory.old }
{
    if directory.len() == bits_ranks_entries(set.length) {
        directory::fill(set.words, directory, &mut Steps::new());
        true
    } else {
        false
    }
}

/// Writes the directory of the words of the set to `directory`, initializes the whole of `ranks`,
/// and returns `true`. If `entries` is not `bits_ranks_entries` of the length of the set, returns
/// `false`: the ranks are then the ranks of no set, and the directory is unchanged.
#[tactic(auto, using(crate::proofs::Ranked::all_fit, crate::proofs::Ranked::nothing_clean, crate::proofs::Ranked::nothing_kept, crate::proofs::Ranked::nothing_ranked))]
#[unsafe(no_mangle)]
pub extern "C" fn bits_ranks_fill<'a>(
    ranks: &mut Ranks<'a>,
    set: &Bits<'a>,
    directory: &'a mut [usize],
) -> bool
    ensures answer { result
        ≡ (length directory.old == model.entries (storage_words set.now.length)) }
    ensures value { ranked ranks.new ≡ (if result then value set.now else empty 0) }
{
    if write_directory(set, directory) {
        *ranks = Ranks {
            words: set.words,
            length: set.length,
            directory,
        };
        true
    } else {
        *ranks = Ranks {
            words: &[],
            length: 0,
            directory: &[],
        };
        false
    }
}

/// Returns the rank: how many positions below this position are set. For a position past the length
/// these are all positions of the set.
#[tactic(auto, using(crate::proofs::Ranked::lent_rank))]
#[unsafe(no_mangle)]
pub extern "C" fn bits_rank(ranks: &Ranks<'_>, position: usize) -> usize
    ensures { result ≡ model.rank (ranked ranks.now) position }
{
    directory::rank(ranks.words, ranks.directory, position, &mut Steps::new())
}

/// Returns the position that is set and has exactly `index` positions that are set below it, or
/// `NONE`. The first position has index 0.
#[tactic(auto, using(crate::proofs::Ranked::all_fit, crate::proofs::Ranked::lent_select))]
#[unsafe(no_mangle)]
pub extern "C" fn bits_select(ranks: &Ranks<'_>, index: usize) -> usize
    ensures { result ≡ unwrap_or (model.select (ranked ranks.now) index) NONE }
{
    directory::select(ranks.words, ranks.directory, index, &mut Steps::new()).unwrap_or(NONE)
}
