// Where a broker's quantity lies.

/// Where a broker's quantity lies, and so which actions of the broker may help a goal.
#[derive(Clone, Copy, Debug, PartialEq, Eq)]
pub enum Heat {
    /// Nothing of the broker's exceeds the goal.
    Cold,
    /// The quantity is greater than its upper bound.
    Above,
    /// The quantity is less than its lower bound.
    Below,
    /// The goal isn't one over brokers, and an action of the broker may help it.
    Other,
}
