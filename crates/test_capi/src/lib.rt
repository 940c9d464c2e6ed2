// SPDX-License-Identifier: Apache-2.0
//! Tests of the calls for C, from outside: each call once for each of its answers.
#![tactic(auto)]

#[cfg(test)]
mod calls;
#[cfg(test)]
mod canonical;
#[cfg(test)]
mod copiers;
#[cfg(test)]
mod counts;
#[cfg(test)]
mod deterministic;
#[cfg(test)]
mod item_copiers;
#[cfg(test)]
mod parsers;
#[cfg(test)]
mod runs;
#[cfg(test)]
mod titles;
#[cfg(test)]
mod told;
#[cfg(test)]
mod views;
