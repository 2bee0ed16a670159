/// Where a column of a row goes: to a place of the binding that has no value yet, or to one whose value
/// it is compared with.
#[derive(Clone, Copy, PartialEq, Eq)]
pub enum Column {
    New(u32),
    Old(u32),
}
