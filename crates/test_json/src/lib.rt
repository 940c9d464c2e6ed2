// SPDX-License-Identifier: Apache-2.0
//! Tests of the JSON of items: by the rows of RFC 8949, of RFC 4648, and by hand.
#![tactic(auto)]

#[cfg(test)]
mod answers;
#[cfg(test)]
mod faults;
#[cfg(test)]
mod rows;
