/// Where a chunk is stored.
#[derive(Clone, Copy, Debug, PartialEq, Eq)]
pub enum Home {
    /// In a file on the disk.
    Disk,
    /// In memory only.
    Ram,
}
