//! What a relay answers to a lane that comes too early. It stands outside the tests, since definitions speak of it.

/// Why a relay refuses a lane's number.
#[derive(Debug, Drop)]
pub enum Early {
    /// The last entry is the lane's own. Here is its number again.
    NotYet(u32),
    /// There are 2^32 - 1 entries.
    Full,
    NoMemory,
}
