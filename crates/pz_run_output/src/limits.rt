/// The most bytes that a model may have.
pub const MODEL_LIMIT: usize = 8_388_608;

/// The most bytes that a trace may have.
pub const TRACE_LIMIT: usize = 67_108_864;

/// The most bytes that a file of watches may have.
pub const WATCH_LIMIT: usize = 65_536;

/// The most bytes that a script may have.
pub const SCRIPT_LIMIT: usize = 1_048_576;
