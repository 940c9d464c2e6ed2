// SPDX-License-Identifier: Apache-2.0
//! Tests of the crates above the library, from outside: of skips, of the calls that take bytes in pieces, of the
//! diagnostic notation, and of the rows of a body.
#![tactic(auto)]

#[cfg(test)]
mod bodies;
#[cfg(test)]
mod copy;
#[cfg(test)]
mod cuts;
#[cfg(test)]
mod diag;
#[cfg(test)]
mod feed;
#[cfg(test)]
mod shared;
#[cfg(test)]
mod skip;
