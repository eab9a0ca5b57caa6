//! A line as a service is given it.

/// A line without its line feed.
#[derive(Clone, Copy, Debug)]
pub enum Line<'a> {
    /// The bytes of a line of at most 100,000.
    Whole(&'a [u8]),
    /// A line of more than 100,000 bytes.
    TooLong,
}
