//! Samples and short lists of bytes, fed to checkers and to copiers in pieces, cut at each place.

use crate::copy::answers::all_ways as copies_all_ways;
use crate::copy::items::to_depths;
use crate::copy::memory::each_damaged;
use crate::feed::answers::all_ways;
use crate::feed::memory::damaged_fronts;
use crate::shared::{MOST, decoded};
use std::alloc::AllocError;
use std::process::Abort;
use test_support::samples;

// Copies elements of each beginning of a sample, and damages the state that is saved after it.
fn fronts(rt: &impl Abort, count: usize, bytes: &[u8]) {
    for end in 0..=bytes.len() {
        copies_all_ways(rt, count, &bytes[..end]);
        each_damaged(rt, &bytes[..end]);
    }
}

// Feeds a sample, and damages the states that are saved within it. It copies elements of each beginning, and items of
// the whole.
fn sample(rt: &impl Abort, count: usize, digits: &str) {
    let mut space = [0; MOST];
    let bytes = decoded(rt, digits, &mut space);
    all_ways(rt, bytes);
    damaged_fronts(rt, bytes);
    fronts(rt, count, bytes);
    to_depths(rt, bytes);
}

fn each(rt: &impl Abort, all: &[(usize, &str)]) {
    for &(count, digits) in all {
        sample(rt, count, digits);
    }
}

// Each sample, whole or broken.
#[test]
fn each_sample(rt: HostRuntime) -> Result<(), AllocError> {
    let all = samples::all(rt.alloc())?;
    each(&rt, all.as_slice());
    Ok(())
}

// Each byte by itself, and each pair of bytes.
#[test]
fn each_list_of_two_bytes(rt: HostRuntime) {
    for first in 0..=255 {
        all_ways(&rt, &[first]);
        for second in 0..=255 {
            all_ways(&rt, &[first, second]);
        }
    }
}

// Two elements, from each byte and each pair of bytes.
#[test]
fn copies_of_each_list_of_two_bytes(rt: HostRuntime) {
    for first in 0..=255 {
        copies_all_ways(&rt, 2, &[first]);
        for second in 0..=255 {
            copies_all_ways(&rt, 2, &[first, second]);
        }
    }
}
