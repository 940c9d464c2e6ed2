// SPDX-License-Identifier: Apache-2.0
//! Tests of the lines that the program answers, of the arguments that it takes, and of the copies of raw bytes that it
//! makes.
#![tactic(auto)]

#[cfg(test)]
mod answers;
#[cfg(test)]
mod cuts;
#[cfg(test)]
mod every;
#[cfg(test)]
mod lines;
#[cfg(test)]
mod raw;
#[cfg(test)]
mod requests;
#[cfg(test)]
mod runs;
