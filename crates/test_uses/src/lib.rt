// SPDX-License-Identifier: Apache-2.0
//! Tests of the callers, and short callers that the documents show.
#![tactic(auto)]

#[cfg(test)]
mod calls;
#[cfg(test)]
mod checks;
#[cfg(test)]
mod claims;
#[cfg(test)]
mod cose;
#[cfg(test)]
mod cose_view;
#[cfg(test)]
mod settings;
#[cfg(test)]
mod webauthn;
