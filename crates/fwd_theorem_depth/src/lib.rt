//! Nesting stays bounded: no event of a line or of a message is nested deeper than an event may be, nor is
//! any that filters leave of these. So the length of their encodings alone decides whether they may be
//! stored as one batch.
//!
//! A value may be nested 64 deep, so metadata 62 and a record 63. The theorems are
//! `parsed_events_are_shallow`, `messages_are_shallow` and `filtered_events_stay_shallow`, for any parser,
//! clock and filters, and `lemma_encoded_length_decides`: such events can each be encoded if their encodings
//! have at most 16,777,216 bytes.
//!
//! Numbers stay in range too: `parsed_numbers_fit`, `message_numbers_fit` and `filtered_numbers_fit` say that
//! the numbers of such events are in the ranges that events in files have.
#![tactic(auto)]

mod ranges;
mod theorems;

pub use ranges::{filtered_numbers_fit, message_numbers_fit, parsed_numbers_fit};
pub use theorems::{
    filtered_events_stay_shallow, lemma_encoded_length_decides, messages_are_shallow,
    parsed_events_are_shallow,
};
