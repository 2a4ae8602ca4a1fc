//! How a call of C ended: its status.

/// It is done.
pub const DONE: u32 = 0;

/// There is nothing to return: no frame, no outcome, no acknowledgement, no command, or the run has ended.
pub const NOTHING: u32 = 1;

/// The handle is closed, or of another kind.
pub const NOT_OPEN: u32 = 2;

/// The handle is open, but the call would open it.
pub const ALREADY_OPEN: u32 = 3;

/// A UID is 2^48 or more.
pub const BAD_UID: u32 = 4;

/// A UID is broadcast, but must be a device's or a controller's own.
pub const BROADCAST_UID: u32 = 5;

/// The greatest sum of the queue depths is more than 4,080.
pub const TOO_MANY_PLACES: u32 = 6;

/// The budget is 0.
pub const NO_BUDGET: u32 = 7;

/// There is no such search.
pub const BAD_SEARCH: u32 = 8;

/// There is no such kind of discovery.
pub const BAD_KIND: u32 = 9;

/// There is no such command class.
pub const BAD_CLASS: u32 = 10;

/// The parameter data have more than 231 bytes.
pub const DATA_TOO_LONG: u32 = 11;

/// The reply has more than 257 bytes.
pub const REPLY_TOO_LONG: u32 = 12;

/// The log would have more than 1,000,000 entries.
pub const TOO_MANY_ENTRIES: u32 = 13;

/// The buffer is too small for the result.
pub const BUFFER_TOO_SMALL: u32 = 14;

/// There is no memory.
pub const OUT_OF_MEMORY: u32 = 15;

/// The queue is closed.
pub const CLOSED: u32 = 16;

/// No such client has joined.
pub const UNKNOWN_CLIENT: u32 = 17;

/// Sixteen clients have joined.
pub const TOO_MANY_CLIENTS: u32 = 18;

/// The sum of the queue depths would be too great.
pub const NO_PLACES: u32 = 19;

/// The client's queue is full, or it has four discoveries outstanding, or the numbers have run out.
pub const FULL: u32 = 20;

/// The log has fewer than three free entries.
pub const LOG_FULL: u32 = 21;

/// No reply is awaited.
pub const NOT_ASKED: u32 = 22;

/// The client's oldest outcome is of the other kind.
pub const OTHER_OUTCOME: u32 = 23;

/// The session isn't idle.
pub const NOT_IDLE: u32 = 24;

/// The log has no entry with this index.
pub const NO_ENTRY: u32 = 25;

/// The lower bound of a range is above the upper one.
pub const BAD_RANGE: u32 = 26;

/// There are more than 1,024 devices.
pub const TOO_MANY_DEVICES: u32 = 27;

/// The preamble has more than 7 bytes.
pub const BAD_PREAMBLE: u32 = 28;

/// There is no such response type.
pub const BAD_RESPONSE_TYPE: u32 = 29;

/// The run hasn't ended.
pub const NOT_ENDED: u32 = 30;

/// The run has ended.
pub const HAS_ENDED: u32 = 31;

/// A UID's text doesn't have 13 bytes.
pub const UID_LENGTH: u32 = 32;

/// The fifth byte of a UID's text isn't a colon.
pub const UID_SEPARATOR: u32 = 33;

/// Another byte of a UID's text isn't a hexadecimal digit.
pub const UID_DIGIT: u32 = 34;

/// A packet has fewer than 26 bytes.
pub const TOO_SHORT: u32 = 35;

/// A packet's first byte isn't the start code.
pub const WRONG_START: u32 = 36;

/// A packet's second byte isn't the sub start code.
pub const WRONG_SUB_START: u32 = 37;

/// A packet's message length doesn't fit its bytes.
pub const LENGTH_MISMATCH: u32 = 38;

/// A packet's parameter data length doesn't fit its message length.
pub const PARAM_LENGTH_MISMATCH: u32 = 39;

/// A packet's checksum isn't the sum of its bytes.
pub const WRONG_CHECKSUM: u32 = 40;

/// A packet's command class isn't a response's.
pub const INVALID_CLASS: u32 = 41;

/// A packet's response type doesn't exist.
pub const INVALID_RESPONSE_TYPE: u32 = 42;

/// The bytes aren't a text in UTF-8.
pub const NOT_TEXT: u32 = 43;

// Programs in C are compiled with these numbers, so no other is ever right.
const _: () = prove!(
    DONE == 0
        && NOTHING == 1
        && NOT_OPEN == 2
        && ALREADY_OPEN == 3
        && BAD_UID == 4
        && BROADCAST_UID == 5
        && TOO_MANY_PLACES == 6
        && NO_BUDGET == 7
        && BAD_SEARCH == 8
        && BAD_KIND == 9
        && BAD_CLASS == 10
        && DATA_TOO_LONG == 11
        && REPLY_TOO_LONG == 12
        && TOO_MANY_ENTRIES == 13
        && BUFFER_TOO_SMALL == 14
        && OUT_OF_MEMORY == 15
        && CLOSED == 16
        && UNKNOWN_CLIENT == 17
        && TOO_MANY_CLIENTS == 18
        && NO_PLACES == 19
        && FULL == 20
        && LOG_FULL == 21
        && NOT_ASKED == 22
        && OTHER_OUTCOME == 23
        && NOT_IDLE == 24
        && NO_ENTRY == 25
        && BAD_RANGE == 26
        && TOO_MANY_DEVICES == 27
        && BAD_PREAMBLE == 28
        && BAD_RESPONSE_TYPE == 29
        && NOT_ENDED == 30
        && HAS_ENDED == 31
        && UID_LENGTH == 32
        && UID_SEPARATOR == 33
        && UID_DIGIT == 34
        && TOO_SHORT == 35
        && WRONG_START == 36
        && WRONG_SUB_START == 37
        && LENGTH_MISMATCH == 38
        && PARAM_LENGTH_MISMATCH == 39
        && WRONG_CHECKSUM == 40
        && INVALID_CLASS == 41
        && INVALID_RESPONSE_TYPE == 42
        && NOT_TEXT == 43
);
