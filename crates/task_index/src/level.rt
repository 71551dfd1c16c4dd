// One level of a tree of flags.
ghost use Rattle.std.specs.Prelude.{◌≡◌, ◌<◌, ◌^◌, ◌+◌, ◌*◌, ◌||◌, IfOk, false, length, slice_set, replicate, get_or, if◌then◌else◌};

use plan_terms::Memory;
use std::alloc::Global;
use std::marker::Model;

/// Flags by their places.
#[derive(Drop)]
pub struct Level {
    flags: Vec<bool>,
}

impl Model for Level {
    ghost use Rattle.std.specs.Prelude.{List, Bool};

    ghost Value = { List Bool };

    ghost view = { λ l. l.flags.items };
}

impl Level {
    /// So many flags, none of them up.
    pub fn new(alloc: Global, flags: usize) -> Result<Level, Memory>
        ensures { IfOk result (λ l. l ≡ replicate flags false) }
    {
        Ok(Level {
            flags: vec![in alloc; false; flags]?,
        })
    }

    /// Whether the flag at the place is up. None is up past the end.
    pub fn flag(&self, place: usize) -> bool
        ensures { result ≡ get_or self.now place false }
    {
        match self.flags.as_slice().get(place) {
            None => false,
            Some(flag) => *flag,
        }
    }

    /// Puts a flag up or down.
    pub fn put(&mut self, place: usize, flag: bool)
        requires { place < length self.old }
        ensures { self.new ≡ slice_set self.old place flag }
    {
        self.flags[place] = flag;
    }

    /// Whether one of the two flags is up that the place in the next level stands for.
    pub fn pair(&self, place: usize) -> bool
        requires { place < 2 ^ 32 }
        ensures { result
            ≡ (get_or self.now (2 * place) false || get_or self.now (2 * place + 1) false) }
    {
        self.flag(2 * place) || self.flag(2 * place + 1)
    }

    /// The first of the two, or the second where the first is down.
    pub fn first_of_pair(&self, place: usize) -> usize
        requires { place < 2 ^ 32 }
        ensures { result
            ≡ (if get_or self.now (2 * place) false then 2 * place else 2 * place + 1) }
    {
        if self.flag(2 * place) {
            2 * place
        } else {
            2 * place + 1
        }
    }
}
