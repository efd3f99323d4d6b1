//! What is kept of one open file.

/// An open file, but for its descriptor: the number of the credential that it was opened by, and
/// its place among the script's files.
#[derive(Drop, Debug)]
pub struct FileDescription {
    pub opener: u64,
    pub file: u32,
}
