//! How long a text may be.

/// The most bytes that a text may have: 64 MiB (this project's choice).
pub const MAX_LENGTH: usize = 67_108_864;

// Contracts speak of the constant and not of its value, so they would hold of another one.
const _: () = prove!(MAX_LENGTH == 64 * 1024 * 1024);
