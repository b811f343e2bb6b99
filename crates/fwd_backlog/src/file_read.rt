use crate::listed_file::Listed;
use fwd_base::Bytes;

/// A listed file with the bytes that were read from it.
#[derive(Debug, Drop)]
pub struct FileRead {
    pub file: Listed,
    pub bytes: Bytes,
}
