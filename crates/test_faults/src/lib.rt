// SPDX-License-Identifier: Apache-2.0
//! Tests of readers and writers that fail at each call in turn, and of broken, endless and malicious input.
#![tactic(auto)]

#[cfg(test)]
mod broken;
#[cfg(test)]
mod calls;
#[cfg(test)]
mod copies;
#[cfg(test)]
mod damages;
#[cfg(test)]
mod limits;
#[cfg(test)]
mod segments;
#[cfg(test)]
mod streams;
#[cfg(test)]
mod strict;
#[cfg(test)]
mod strings;
#[cfg(test)]
mod titles;
#[cfg(test)]
mod values;
