/// Where something stands in the texts: the number of its file, of the line in that file and of the
/// byte in that line, each from 1. A line ends at each byte 10, and the byte after it is byte 1 of
/// the next line.
#[derive(Clone, Copy, Debug, PartialEq, Eq)]
pub struct Place {
    pub file: u32,
    pub line: u32,
    pub at: u32,
}
