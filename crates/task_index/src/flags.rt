// A tree of flags.
ghost use Rattle.std.specs.Prelude.{◌≡◌, ◌<◌, ◌^◌, IfOk, Option, ℕ, false, length, slice_set, replicate};
ghost use Rattle.std.specs.List.{position};
ghost use Rattle.task_index.specs.Trees.{AreLevels, level_at};

use crate::level::Level;
use plan_terms::Memory;
use std::alloc::Global;
use std::marker::Model;

/// Flags by their places. The first that is up is found, and one is put up or down, in a number of
/// steps that is the logarithm of how many there are. Only `new` takes memory.
#[derive(Drop)]
pub struct FlagTree {
    // the flags, and above them level by level whether one of two below is up, to a single one
    levels: Vec<Level>,
}

impl Model for FlagTree {
    ghost use Rattle.std.specs.Prelude.{List, Bool};
    ghost use Rattle.task_index.specs.Trees.{AreLevels, level_at};

    ghost Value = { List Bool };

    ghost view = { λ t. level_at t.levels.items 0 };

    ghost invariant = { λ t. AreLevels t.levels.items };
}

impl FlagTree {
    /// So many flags, none of them up.
    pub fn new(alloc: Global, flags: usize) -> Result<FlagTree, Memory>
        requires { flags < 2 ^ 32 }
        ensures { IfOk result (λ t. t ≡ replicate flags false) }
    {
        Ok(FlagTree {
            levels: empty_levels(alloc, flags)?,
        })
    }

    /// The place of the first flag that is up.
    pub fn first(&self) -> Option<usize>
        ensures { result ≡ position (λ up. up) self.now }
    {
        let top = self.levels.len() - 1;
        if !self.levels[top].flag(0) {
            return None;
        }
        let mut place = 0;
        for step in 0..top {
            place = self.levels[top - 1 - step].first_of_pair(place);
        }
        Some(place)
    }

    /// Puts a flag up or down.
    pub fn put(&mut self, place: usize, flag: bool)
        requires { place < length self.old }
        ensures { self.new ≡ slice_set self.old place flag }
    {
        put_flag(&mut self.levels, place, flag);
    }
}

// The levels of a tree with no flag up.
fn empty_levels(alloc: Global, flags: usize) -> Result<Vec<Level>, Memory>
    requires { flags < 2 ^ 32 }
    ensures levels { IfOk result (λ levels. AreLevels levels.items) }
    ensures flags { IfOk result (λ levels. level_at levels.items 0 ≡ replicate flags false) }
{
    let mut levels = Vec::new(alloc);
    let mut width = flags;
    levels.push(Level::new(alloc, width)?)?;
    while width > 1 {
        width = width.div_ceil(2);
        levels.push(Level::new(alloc, width)?)?;
    }
    Ok(levels)
}

// Puts a flag up or down, and then one in each level above.
fn put_flag(levels: &mut Vec<Level>, place: usize, flag: bool)
    requires levels { AreLevels levels.old.items }
    requires known { place < length (level_at levels.old.items 0) }
    ensures levels { AreLevels levels.new.items }
    ensures flags { level_at levels.new.items 0
        ≡ slice_set (level_at levels.old.items 0) place flag }
{
    levels[0].put(place, flag);
    let mut at = place;
    for height in 1..levels.len() {
        at /= 2;
        let pair = levels[height - 1].pair(at);
        levels[height].put(at, pair);
    }
}
