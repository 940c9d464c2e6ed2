// SPDX-License-Identifier: Apache-2.0
//! The contract of each function is a law about the definitions alone.
//!
//! `ciborium_ll` exports the laws.
#![tactic(auto)]

mod cuts;
mod elements;
mod faults;
mod items;
mod strings;
mod text;
mod titles;
mod values;

pub use self::cuts::full_cuts;
pub use self::elements::{one_element, one_run, spelled_run};
pub use self::faults::{no_fault, one_fault, run_or_fault};
pub use self::items::one_item;
pub use self::strings::one_string;
pub use self::text::{
    damage_by_state, joined_texts, no_rest_of_text, no_text_begins, one_front, rest_of_text,
    same_text, text_by_state, text_or_front,
};
pub use self::titles::{
    cut_titles, one_title, refused_first_bytes, shortest_titles, title_header, title_length,
};
pub use self::values::{fewest_segments, written_values};
