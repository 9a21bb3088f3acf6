// How large things may be: each limit that a user can meet, once (this project's profile).

ghost use Rattle.fv_base.specs.headline.Limits.{LimitsAre};

/// How many bytes the text of a program may have, and a script of changes.
pub const LONGEST_TEXT: usize = 1_048_576;

/// The greatest integer literal of a program.
pub const GREATEST_LITERAL: u64 = 2_147_483_647;

/// How many brackets may be open at once.
pub const DEEPEST_NESTING: u32 = 128;

/// How many nodes a diagram may have.
pub const SIZE_LIMIT: u32 = 16_384;

/// How many visits an evaluation may make.
pub const VISIT_LIMIT: u32 = 1_000_000;

/// How many diagrams an evaluation may keep. A form makes at most five at a visit. Two forms may make more: an abstraction of many
/// parameters as a diagram, and a diagram of many inputs on few arguments. These would take all memory before the visits end.
pub const MOST_DIAGRAMS: u64 = 8_388_608;

/// How many scopes it may keep, and how many arguments of rules. A visit makes one at most, but for a pattern of many names.
pub const MOST_SCOPES: u64 = 2_097_152;

/// How much the tables of a program may cost together: a waveform costs its numbers, and a table as many times its head's size
/// as it has numbers.
pub const TABLE_LIMIT: u64 = 16_777_216;

/// How many samples a delay may be long.
pub const DELAY_LIMIT: u32 = 1_048_575;

/// How many samples all delays of a diagram may be long together.
pub const DELAY_BUDGET: u64 = 16_777_216;

/// How many channels a file may have, and how many inputs and outputs a program that is run.
pub const MOST_CHANNELS: u32 = 256;

/// How many frames a block may have.
pub const MOST_BLOCK: u32 = 4096;

/// How many vectors a block may have.
pub const MOST_VECTORS: u32 = 64;

/// How many workers a run may ask for.
pub const MOST_WORKERS: u32 = 16;

/// How many jobs a file of jobs may have.
pub const MOST_JOBS: u64 = 16;

/// How many voices may be made.
pub const MOST_VOICES: u32 = 64;

/// How many frames may be made.
pub const MOST_MADE: u32 = 262_144;

/// How many bytes of samples the head of a file can state.
pub const DATA_LIMIT: u32 = 4_294_967_258;

/// How many chunks a file may have in front of its samples.
pub const MOST_CHUNKS: u32 = 4096;

/// A law: each limit is the number that the documents give, so that no definition that names one hides how large it is.
pub fn limits_are()
    ensures { LimitsAre }
{}
