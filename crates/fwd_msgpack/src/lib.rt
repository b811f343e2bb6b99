//! MessagePack: an encoder and a decoder for values, and an incremental scanner. Bytes come from peers and
//! from files that may be cut anywhere, so the decoder tells a whole value from a proper prefix of one and
//! from bytes that begin no encoding.
//!
//! `decode` returns a value and a length exactly if the first bytes encode it, by the table of the
//! MessagePack specification, and each error exactly at its offset. No encoding is a proper prefix of
//! another. The encoder writes the one shortest encoding. `Scan` gives the same answer as `decode` for a
//! value that comes in several reads. It inspects each byte once, and feeding it allocates nothing.
//!
//! Other crates read and write encodings without a value: they split headers and lengths off bytes, and append
//! canonical headers and numbers.
#![tactic(auto)]

mod decoding;
mod encoding;
mod errors;
mod fault;
mod form;
mod header;
mod lengths;
mod levels;
mod numbers;
mod part;
mod reading;
mod scan;
mod theorems;

pub use decoding::decode;
pub use encoding::{
    encode, encode_map, put_bin_head, put_byte, put_bytes, put_ext_head, put_float32, put_float64,
    put_list_head, put_map_head, put_number, put_text, put_text_head, put_truth, put_whole,
};
pub use errors::DecodeErr;
pub use form::{ByteWidth, Count, Form, form_of};
pub use fwd_value::{Below, Pairs, Value, Values};
pub use header::{list_head, map_head, split_bytes, split_text};
pub use lengths::can_encode_map;
pub use numbers::{length_at, number_at, sign_extended};
pub use scan::{Scan, Scanned};
pub use theorems::{
    canonical_decodes, canonical_is_encoding, canonical_is_shortest, encodings_are_prefix_free,
};
