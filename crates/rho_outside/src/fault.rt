/// Why a fetch gave no bytes.
#[derive(Clone, Copy, Debug, PartialEq, Eq)]
pub enum FetchFault {
    /// There is no file of that name.
    Missing,
    /// The bytes could not be read.
    Failed,
    /// The file is longer than was allowed.
    TooLarge {
        /// A number of bytes that the file has at least, above the limit.
        seen: u64,
    },
    /// There was no memory for the bytes.
    NoMemory,
}

/// Why a keep or a put did not write all of its bytes.
#[derive(Clone, Copy, Debug, PartialEq, Eq)]
pub enum KeepFault {
    /// The bytes could not be written.
    Failed,
    /// There was no memory for the bytes, and none was written.
    NoMemory,
}
