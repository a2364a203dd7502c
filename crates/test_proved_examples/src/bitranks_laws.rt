//! The examples in the docs of `bitranks::laws`.
//! tools/docs/make_examples writes this file.

use crate::calls::{ok, set_of};
use bitranks::Ranks;

#[test]
fn rank_grows(rt: HostRuntime) {
    let alloc = rt.alloc();
    let set = set_of(&rt, alloc, &[3, 64]);
    let ranks = ok(&rt, Ranks::of(alloc, &set));
    bitranks::laws::rank_grows();
    prove!(ranks.rank(9) <= ranks.rank(10));
}
