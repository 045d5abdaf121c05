/// The greatest number of tests in a tree.
///
/// Source: this project's choice.
pub const MOST_TESTS: u32 = 400_000;

/// The greatest number of bytes of one value: 1 MiB.
///
/// Source: this project's choice.
pub const MOST_BYTES: u32 = 1_048_576;

/// How long the values of a command may be.
#[derive(Clone, Copy, Debug)]
pub struct ValueLimits {
    /// The bytes of one value.
    pub value_bytes: u32,
    /// The bytes of all values.
    pub all_value_bytes: u32,
}
