// SPDX-License-Identifier: Apache-2.0
//! Tests of `cbor_encode`: the rows of RFC 8949, appendix A, in both directions, exact notation, items within byte
//! strings, the examples of its section 8 and of RFC 8610, appendix G, each literal once, and faults by their places.
#![tactic(auto)]

#[cfg(test)]
mod embedded;
#[cfg(test)]
mod exact;
#[cfg(test)]
mod faults;
#[cfg(test)]
mod literals;
#[cfg(test)]
mod memory;
#[cfg(test)]
mod messages;
#[cfg(test)]
mod rows;
#[cfg(test)]
mod sequences;
#[cfg(test)]
mod shared;
