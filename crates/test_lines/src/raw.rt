//! Tests of the copies of raw bytes that the program makes.

mod copies;
mod faults;
mod streams;
