//! The limits of the program. `specs/Limits.antt` defines the same numbers for contracts.

ghost use Rattle.std.specs.Prelude.{◌≡◌};
ghost use Rattle.fwd_base.specs.Limits as limit;

/// The most bytes of a line. A longer line is cut to its first bytes.
pub const LONGEST_LINE: usize = 32_768;

/// The most bytes of one read of an input, and of one read of stored content.
pub const LONGEST_PIECE: usize = 65_536;

/// The most bytes of the events of a batch, as they are stored.
pub const LARGEST_BATCH: u64 = 16_777_216;

/// The most bytes of a forward message.
pub const LONGEST_MESSAGE: usize = 16_777_216;

/// A chunk is closed once its content has this many bytes.
pub const FULL_CHUNK: u64 = 2_048_000;

/// The upper bound, exclusive, of the numbers of chunks and files.
pub const NUMBERS_END: u64 = 9_223_372_036_854_775_808;

/// The most bytes of a chunk's file. A longer file isn't loaded.
pub const LONGEST_FILE: usize = 67_108_864;

/// The most bytes of the reply of a peer to a payload.
pub const LONGEST_REPLY: usize = 1_024;

/// The most bytes of the response of an HTTP server, up to the end of its final head.
pub const LONGEST_HEAD: usize = 8_192;

/// The most bytes that one read of a followed file requests.
pub const LONGEST_READ: u64 = 1_048_576;

/// The most bytes of the name of an output in a chunk's file.
pub const LONGEST_NAME: usize = 255;

/// Recovered files are checked in groups. A group is full with this many files.
pub const GROUP_FILES: usize = 4_096;

/// A group of recovered files is also full with this many bytes.
pub const GROUP_BYTES: u64 = 268_435_456;

/// The latest time of the clock, in milliseconds since 1970. A later time counts as this one.
pub const LATEST_TIME: u64 = 4_294_967_295_999;

/// The most inputs of a configuration.
pub const MOST_INPUTS: usize = 64;

/// The most outputs of a configuration.
pub const MOST_OUTPUTS: usize = 64;

/// The deepest nesting of a value.
pub const DEEPEST: u32 = 64;

/// The most bytes of a tag.
pub const LONGEST_TAG: usize = 1_024;

/// The longest wait of the engine for an event, in milliseconds.
pub const LONGEST_WAIT: u64 = 250;

/// The most flushes that are under way at a time to an output with peers.
pub const MOST_PEER_FLUSHES: u64 = 4;

/// The most clock readings of all `ticks` lines of a schedule.
pub const MOST_TICKS: u64 = 10_000_000;

/// The bytes of the header of a chunk's file.
pub const CHUNK_HEADER: usize = 24;

/// Each constant equals its definition.
pub fn limits_are_defined()
    ensures line { LONGEST_LINE ≡ limit.longest_line }
    ensures piece { LONGEST_PIECE ≡ limit.longest_piece }
    ensures batch { LARGEST_BATCH ≡ limit.largest_batch }
    ensures message { LONGEST_MESSAGE ≡ limit.longest_message }
    ensures chunk { FULL_CHUNK ≡ limit.full_chunk }
    ensures numbers { NUMBERS_END ≡ limit.numbers_end }
    ensures file { LONGEST_FILE ≡ limit.longest_file }
    ensures reply { LONGEST_REPLY ≡ limit.longest_reply }
    ensures head { LONGEST_HEAD ≡ limit.longest_head }
    ensures read { LONGEST_READ ≡ limit.longest_read }
    ensures name { LONGEST_NAME ≡ limit.longest_name }
    ensures group_files { GROUP_FILES ≡ limit.group_files }
    ensures group_bytes { GROUP_BYTES ≡ limit.group_bytes }
    ensures reading { LATEST_TIME ≡ limit.latest_time }
    ensures inputs { MOST_INPUTS ≡ limit.most_inputs }
    ensures outputs { MOST_OUTPUTS ≡ limit.most_outputs }
    ensures depth { DEEPEST ≡ limit.deepest }
    ensures tag { LONGEST_TAG ≡ limit.longest_tag }
    ensures wait { LONGEST_WAIT ≡ limit.longest_wait }
    ensures flushes { MOST_PEER_FLUSHES ≡ limit.most_peer_flushes }
    ensures ticks { MOST_TICKS ≡ limit.most_ticks }
    ensures header { CHUNK_HEADER ≡ limit.chunk_header }
{}
