// SPDX-License-Identifier: Apache-2.0
//! Tests of `cbor_deterministic` and `cbor_canonical`, from outside: rows of RFC 8949 and of other standards, floats
//! worked by hand, a plain reading of every list of one and of two bytes, the view, and items of any spelling.
#![tactic(auto)]

#[cfg(test)]
mod canonical;
#[cfg(test)]
mod examples;
#[cfg(test)]
mod floats;
#[cfg(test)]
mod messages;
#[cfg(test)]
mod nests;
#[cfg(test)]
mod orders;
#[cfg(test)]
mod plain;
#[cfg(test)]
mod rows;
#[cfg(test)]
mod shared;
#[cfg(test)]
mod views;
