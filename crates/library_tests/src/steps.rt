//! The counter of steps.

use std::marker::Brand;
use std::mem::size_of;
use tt_base::Steps;

#[test]
fn has_no_bytes(rt: HostRuntime) {
    assert_eq!(rt; size_of::<Steps<Brand>>(), 0);
}
