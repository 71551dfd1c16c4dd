// Lists that are held in place.
ghost use Rattle.std.specs.Prelude.{◌≡◌, ◌≤◌, [], length};

use std::marker::Model;

/// A list of at most 16 brokers. Writing it takes no memory.
#[derive(Drop)]
pub struct HeldList {
    ids: [u32; 16],
    len: usize,
}

impl Model for HeldList {
    ghost use Rattle.std.specs.Prelude.{◌≤◌, List, ℕ, take};

    ghost Value = { List ℕ };

    ghost view = { λ h. take h.len h.ids };

    ghost invariant = { λ h. h.len ≤ 16 };
}

impl HeldList {
    /// A list of these brokers.
    pub fn of(list: &[u32]) -> Self
        requires { length list.now ≤ 16 }
        ensures { result ≡ list.now }
    {
        let mut held = HeldList {
            ids: [0; 16],
            len: 0,
        };
        held.set(list);
        held
    }

    /// Writes these brokers.
    pub fn set(&mut self, list: &[u32])
        requires { length list.now ≤ 16 }
        ensures { self.new ≡ list.now }
    {
        self.ids[..list.len()].copy_from_slice(list);
        self.len = list.len();
    }

    /// The brokers, in order.
    pub fn as_slice(&self) -> &[u32]
        ensures { result.now ≡ self.now }
    {
        &self.ids[..self.len]
    }
}
