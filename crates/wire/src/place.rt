//! Where the bytes of a head stand, line by line. How a byte changes it stands in `head_end`.

/// Where the bytes of a head stand, while more of it is to come.
#[derive(Clone, Copy, Debug, PartialEq, Eq)]
pub enum ScanState {
    /// Before the first line.
    Leading,
    /// In a line.
    Inside,
    /// After a line feed.
    Fed,
    /// After a line feed and CR.
    FedCr,
}
