// What an action does to its two brokers.

/// What an action does to a quantity of brokers: broker `from` gives `out` to broker `to`, which
/// gives `back` for it.
#[derive(Clone, Copy, Debug, PartialEq, Eq)]
pub struct Trade {
    /// The id of the broker that a replica or the lead leaves.
    pub from: u32,
    /// The id of the broker that takes it.
    pub to: u32,
    pub out: u64,
    pub back: u64,
}

/// How far the two brokers of an action lie outside their bounds, before and after it.
#[derive(Clone, Copy, Debug, PartialEq, Eq)]
pub struct Sides {
    pub giver: u128,
    pub giver_after: u128,
    pub taker: u128,
    pub taker_after: u128,
}
