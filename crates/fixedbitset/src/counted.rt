//! Changes, ranges, and counts and tests of two sets, with a counter of steps: each is the call of
//! that name of the set, with one argument more. The other questions are counted by a view of the
//! set ([`as_bits`](crate::FixedBitSet::as_bits)).

mod changes;
mod copies;
mod ranges;
mod shifts;
mod whole;

pub use changes::{
    difference_with_change, intersect_with_change, symmetric_difference_with_change,
    union_with_change, union_with_difference,
};
pub use copies::{bitand, bitor, bitxor, clone_from};
pub use ranges::{
    contains_all_in_range, contains_any_in_range, count_ones, count_zeroes, insert_range,
    remove_range, toggle_range,
};
pub use shifts::{
    append, copy_range, resize, shift_down, shift_up, slice, union_with_own_shift,
    union_with_shifted,
};
pub use whole::{
    clear, difference_count, difference_with, intersect_with, intersection_count, is_disjoint,
    is_subset, pop_first, pop_last, symmetric_difference_count, symmetric_difference_with,
    union_count, union_with,
};
