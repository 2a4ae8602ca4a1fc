//! How often a run asks.
use rdm_wire::MOST_DEVICES;

/// How many unmutes begin a run: the first ones may be lost.
pub const UNMUTES: u8 = 3;

/// How often in a row a range is branched before its silence counts, and how often a UID is muted before it counts as
/// absent.
pub const TRIES: u8 = 5;

/// A quick run ends as corrupt after this many bad answers in a row of one UID that it asked alone: bytes came, but no
/// device was found. A steady run ends at the first one.
pub const BAD_ANSWERS: u8 = 8;

/// How many garbled replies to a series of mutes a quick run needn't count as tries.
pub(crate) const GARBLED_MUTES: u8 = 8;

/// A sweep sets a UID apart that it asked alone after this many bad answers in a row.
pub(crate) const BADS_ASIDE: u8 = 4;

/// So many UIDs are set apart at most.
pub const MOST_APART: usize = 16;

/// The steady search of a quick run asks a range again after a bad answer, and mutes what it spelt, only while it had
/// at most this many branches.
pub(crate) const BRANCHES_BELIEVED: u8 = 5;

/// It splits the range after this many bad answers in a row.
pub(crate) const BADS_BELIEVED: u8 = 3;

/// More branches of a range than these aren't counted.
pub(crate) const MOST_SPENT: u8 = 10;

/// How many ranges are open at most: one at each of the 48 depths, and one more at the deepest. They are the
/// ranges of E1.20's discovery unique branch.
pub const MOST_RANGES: usize = 49;

/// A sweep's limit has this many exchanges for each device found, and twice as many more.
pub(crate) const SWEEP_FRAMES: usize = 100;

/// It has this many more for each UID that is set apart, but for at most two UIDs more than devices found.
pub(crate) const APART_FRAMES: usize = 60;

// What a device adds to the bound: 24 splits of ten exchanges, 24 last ranges of five, and ten of its own.
const FRAMES_PER_DEVICE: u64 = 370;

/// The exchanges that suffice for [`MOST_DEVICES`] devices and as many known UIDs: 384,008.
/// The line may lose up to four replies in a row. A steady run on an honest line makes no more, and ends without
/// a fault; a quick one may need up to 205 more.
///
/// For `n` devices and `k` known UIDs these are `8 + 370 n + 5 k`:
///
/// - A range that is split holds two devices that aren't found, and there are 48 depths. So there are at most `24 n`
///   splits, of at most 5 branches and 5 mutes each.
/// - Each of at most `24 n + 1` last ranges has 5 silences.
/// - Each device has 5 branches and 5 mutes, and each known UID 5 mutes.
/// - 3 unmutes come first.
pub const DEFAULT_BUDGET: u64 = UNMUTES as u64
    + TRIES as u64
    + (FRAMES_PER_DEVICE + TRIES as u64) * MOST_DEVICES as u64;
