//! The calls on words, which do not allocate.

use bitlanes::ops::{And, AndNot, Or, Xor};
use bitlanes::word::{
    clear_bit, clear_lowest_bit, highest_bit, lowest_bit, ones_below, stretch, take_highest_bit,
    take_lowest_bit,
};
use bitlanes::{Block, IndexRange, Steps, lanes, search};

const LEFT: [Block; 5] = [1, 3, 0, 9, 5];

const RIGHT: [Block; 5] = [2, 1, 0, 8, 4];

/// Whether all of them do what they do with ample memory.
pub fn hold() -> bool {
    kernels_join() && kernels_ask() && bits_of_a_word() && ranges()
}

fn kernels_join() -> bool {
    let steps = &mut Steps::new();
    let mut words = LEFT;
    lanes::apply::<Or>(&mut words, &RIGHT, steps);
    let is_or = words == [3, 3, 0, 9, 5];
    lanes::apply::<AndNot>(&mut words, &RIGHT, steps);
    let is_without = words == [1, 2, 0, 1, 1];
    lanes::apply::<Xor>(&mut words, &LEFT, steps);
    let is_xor = words == [0, 1, 0, 8, 4];
    lanes::apply::<And>(&mut words, &RIGHT, steps);
    let is_and = words == [0, 1, 0, 8, 4];
    lanes::zero(&mut words, steps);
    is_or && is_without && is_xor && is_and && words == [0; 5]
}

fn kernels_ask() -> bool {
    let steps = &mut Steps::new();
    steps.tick();
    lanes::count::<And>(&LEFT, &RIGHT, steps) == 3
        && lanes::count_one(&LEFT, steps) == 7
        && !lanes::none::<And>(&LEFT, &RIGHT, steps)
        && !lanes::none_one(&LEFT, steps)
        && lanes::none_masked::<And>(16, &LEFT, steps)
        && search::first_one(&RIGHT, steps) == Some(0)
        && search::last_one(&RIGHT, steps) == Some(4)
}

fn bits_of_a_word() -> bool {
    let (mut low, mut high) = (12, 12);
    lowest_bit(12) == 2
        && highest_bit(12) == 3
        && clear_bit(12, 3) == 4
        && clear_lowest_bit(12) == 8
        && take_lowest_bit(&mut low) == 2
        && take_highest_bit(&mut high) == 3
        && low == 8
        && high == 4
        && ones_below(3) == 7
        && stretch(1, 4) == 14
}

fn ranges() -> bool {
    (1..3).start() == Some(1)
        && (1..3).end() == Some(3)
        && (2..).start() == Some(2)
        && (..4).end() == Some(4)
        && IndexRange::<usize>::start(&(..)).is_none()
        && IndexRange::<usize>::end(&(..)).is_none()
}
