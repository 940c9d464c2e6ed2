//! Tests of the diagnostic notation of items: by the rows of RFC 8949, and by hand.

mod rows;
