//! Functions whose contracts tie the library's calls together, and laws of its definitions, each the contract of an
//! empty function.
//!
//! The clauses `front` and `told` of `recode` tie it to elements, runs and faults. `Encoder::bytes` and `Encoder::text`
//! are tied to elements, and `skip_item` of `cbor_skip` to items.

mod copy;
mod drains;
mod headers;
mod pieces;
mod shortening;
mod strict;

pub use self::copy::copy_headers;
pub use self::drains::{Drained, End, drain_bytes, drain_text, drained_in_all, enough_sizes};
pub use self::headers::{copied_float, copied_header, pull_again, same_float, same_header};
pub use self::pieces::{Piece, copy_spelled, write_pieces};
pub use self::shortening::shortened_run;
pub use self::strict::strict_run;
pub use ciborium_ll_laws::{
    cut_titles, damage_by_state, fewest_segments, full_cuts, joined_texts, no_fault,
    no_rest_of_text, no_text_begins, one_element, one_fault, one_front, one_item, one_run,
    one_string, one_title, refused_first_bytes, rest_of_text, run_or_fault, same_text,
    shortest_titles, spelled_run, text_by_state, text_or_front, title_header, title_length,
    written_values,
};
