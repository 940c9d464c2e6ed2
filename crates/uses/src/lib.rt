// SPDX-License-Identifier: Apache-2.0
//! Callers of the library, as a user writes them.
#![tactic(auto)]

mod claims;
mod cose;
mod cose_view;
mod maps;
mod settings;
mod shortest;
mod streams;
mod sums;
mod texts;
mod webauthn;

pub use self::claims::{Claims, write_claims};
pub use self::cose::{CoseError, MAP_DEPTH, Sign1, Span, read_sign1};
pub use self::cose_view::{MESSAGE_DEPTH, Message, MessageError, view_sign1};
pub use self::maps::{Entry, write_strings};
pub use self::settings::{
    LONGEST_HOST, SETTINGS_DEPTH, Settings, SettingsError, read_settings, write_settings,
};
pub use self::shortest::{DEPTH, shortest_item_len};
pub use self::streams::normalise;
pub use self::sums::{SumError, sum_numbers};
pub use self::texts::{TextError, read_string};
pub use self::webauthn::{ATTESTATION_DEPTH, Attestation, AttestationError, read_attestation};
