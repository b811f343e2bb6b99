use thiserror::Error;

/// Why bytes can't be decoded. `at` is an offset from their start, in bytes.
#[derive(Clone, Copy, Debug, PartialEq, Eq, Error)]
pub enum DecodeErr {
    /// The bytes are a proper prefix of an encoding.
    #[error("the bytes end within a value")]
    Short,
    /// The byte c1, which begins no value, is at the beginning of a value.
    #[error("the byte at {at} begins no value")]
    Unused { at: u64 },
    /// A list or map is nested in 64 others.
    #[error("the value at {at} is nested too deep")]
    TooDeep { at: u64 },
    #[error("out of memory")]
    Memory,
}
