/// The most bytes of a head, empty lines before it included.
pub const HEAD_LIMIT: usize = 16_384;

/// The most fields of a head.
pub const FIELD_LIMIT: usize = 64;

/// The most bytes of a body.
pub const BODY_LIMIT: usize = 1_048_576;

/// The most bytes of a chunk line, with the line end (RFC 9112, section 7.1).
pub const CHUNK_LINE_LIMIT: usize = 1_024;

/// The most bytes of a trailer section, with the line that ends it (RFC 9112, section 7.1.2).
pub const TRAILER_LIMIT: usize = 16_384;

/// The most messages of a connection: the reply to the last one closes it.
pub const MESSAGE_LIMIT: u64 = 1_000_000;

/// The most bytes of a reply that leaves a connection in one call of the sink.
pub const REPLY_ROOM: usize = 16_384;
