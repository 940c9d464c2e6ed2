// SPDX-License-Identifier: Apache-2.0
//! Tests of titles and headers against vectors, of strings, and of each public call.
#![tactic(auto)]

#[cfg(test)]
mod bodies;
#[cfg(test)]
mod buffered;
#[cfg(test)]
mod calls;
#[cfg(test)]
mod checks;
#[cfg(test)]
mod copies;
#[cfg(test)]
mod drains;
#[cfg(test)]
mod elements;
#[cfg(test)]
mod exactly;
#[cfg(test)]
mod first_bytes;
#[cfg(test)]
mod keeping;
#[cfg(test)]
mod messages;
#[cfg(test)]
mod pieces;
#[cfg(test)]
mod short_texts;
#[cfg(test)]
mod steps;
#[cfg(test)]
mod streams;
#[cfg(test)]
mod strict;
#[cfg(test)]
mod strings;
#[cfg(test)]
mod values;
#[cfg(test)]
mod vectors;
#[cfg(test)]
mod wholes;
