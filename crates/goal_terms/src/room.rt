// How much a broker may give and take.

/// How much more of a quantity a broker may give than it gets, and how much more it may get than it
/// gives, and lie no farther outside its bounds than it does. `u64::MAX` is no limit.
#[derive(Clone, Copy, Debug, PartialEq, Eq)]
pub struct Room {
    pub give: u64,
    pub take: u64,
}
