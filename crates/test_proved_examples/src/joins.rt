//! The examples in the docs of `bitwords::joins`.
//! tools/docs/make_examples writes this file.

use crate::calls::equal;
use bitlanes::ops::Xor;
use bitwords::joins;
use fixedbitset::Steps;

#[test]
fn count(rt: HostRuntime) {
    let count = joins::count::<Xor>(&[11, 3], &[9], &mut Steps::new());
    equal(&rt, count, 3);
}
