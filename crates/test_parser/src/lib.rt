// SPDX-License-Identifier: Apache-2.0
//! Tests of `cbor_parser`, from outside: rows of RFC 8949, appendix A and 3.2, and rows worked by hand, in all cuts.
#![tactic(auto)]

#[cfg(test)]
mod answers;
#[cfg(test)]
mod rows;
#[cfg(test)]
mod shared;
#[cfg(test)]
mod strings;
