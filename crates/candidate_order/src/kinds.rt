// The kinds of action.

/// The kinds of action, in the order in which they are tried.
#[derive(Clone, Copy)]
pub enum Kind {
    Moves,
    Leads,
    Swaps,
}
