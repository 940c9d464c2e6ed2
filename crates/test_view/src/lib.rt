// SPDX-License-Identifier: Apache-2.0
//! Tests of `cbor_view`, from outside: the rows of RFC 8949, appendix A, and items worked by hand.
#![tactic(auto)]

#[cfg(test)]
mod faults;
#[cfg(test)]
mod keys;
#[cfg(test)]
mod nests;
#[cfg(test)]
mod rows;
#[cfg(test)]
mod shared;
#[cfg(test)]
mod strings;
