//! Why bytes are no record.

/// Why bytes are no record. capset(2) answers EINVAL to another version.
#[derive(Clone, Copy, PartialEq, Eq, Debug)]
pub enum DataRefusal {
    /// So many bytes are no record: they are fewer than a header's 8, or not as many as their
    /// version has.
    BadLength(usize),
    /// This word is no version.
    BadVersion(u32),
}
