// SPDX-License-Identifier: Apache-2.0
//! Tests of the program that looks at files: its answers to the words `check`, `dump`, `diag`, `json`, `encode`, `canon`
//! and `recode`, and its arguments.
#![tactic(auto)]

#[cfg(test)]
mod canons;
#[cfg(test)]
mod checks;
#[cfg(test)]
mod deterministic;
#[cfg(test)]
mod diags;
#[cfg(test)]
mod dumps;
#[cfg(test)]
mod embeds;
#[cfg(test)]
mod encodes;
#[cfg(test)]
mod ends;
#[cfg(test)]
mod indexes;
#[cfg(test)]
mod jsons;
#[cfg(test)]
mod long;
#[cfg(test)]
mod pictures;
#[cfg(test)]
mod recodes;
#[cfg(test)]
mod rows;
