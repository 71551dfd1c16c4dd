// The samples of one partition in one window.
ghost use Rattle.std.specs.Prelude.{◌≡◌};
ghost use Rattle.metric_windows.specs.Tables.{empty_cell, IsCell};

use crate::tally::Tally;

/// The tally of a partition in one window. A cell serves many windows in turn, and says which one
/// it has now.
#[derive(Clone, Copy)]
pub struct Cell {
    pub window: u64,
    pub tally: Tally,
}

impl Cell {
    /// The cell to which no sample has come.
    pub fn empty() -> Self
        ensures value { result ≡ empty_cell }
        ensures cell { IsCell result }
    {
        Cell {
            window: 0,
            tally: Tally::none(),
        }
    }
}
