// The windows of all partitions.
ghost use Rattle.std.specs.Prelude.{◌≡◌, ◌<◌, ◌≤◌, ◌+◌, ◌++◌, ◌∷◌, [], List, Some, IfOk, IfErr, IfSome, OnOk, OnErr, length, is_some};
ghost use Rattle.std.specs.Bool.{OnTrue};
ghost use Rattle.plan_terms.specs.Loads.{IsLoads};
ghost use Rattle.metric_windows.specs.Samples.{AreInRange, is_past, oldest_kept, has_neighbours, half, enough_mean, load_of, coverage, refusal};
ghost use Rattle.plan_terms.specs.declared.settings.Sample.{Sample};
ghost use Rattle.metric_windows.specs.StandsFor.{StandsFor};
ghost use Rattle.metric_windows.specs.Tables.{place, tally_in, stored, with_some, value_in, values_in, tally_of, IsTally};

use crate::SampleFault;
use crate::cell::Cell;
use crate::tally::Tally;
use plan_terms::{Loads, Memory};
use std::alloc::Global;
use std::marker::Model;

/// The greatest number of samples of a partition in one window.
pub const MAX_SAMPLES: u32 = 65_536;

/// Samples of the loads of partitions, averaged over windows of time.
///
/// A window is a span of `width` milliseconds, and the one of a time is `time / width`, rounded
/// down. The last `keep` windows up to the greatest one that has a sample are kept. Only the number
/// and the sums of the samples are stored, so memory and time don't grow with their number. The
/// idea is that of Cruise Control's metric windows (the Cruise Control wiki); the rules in detail
/// are this project's own.
#[derive(Drop)]
pub struct Windows {
    width: u64,
    keep: u64,
    least: u32,
    need: u64,
    parts: u32,
    newest: Option<u64>,
    cells: Vec<Cell>,
}

impl Model for Windows {
    ghost use Rattle.metric_windows.specs.Tables.{Tables, AreTables};

    ghost Value = { Tables };

    ghost view = { λ w. record {
      rules = record { width = w.width; keep = w.keep; least = w.least; need = w.need };
      parts = w.parts;
      newest = w.newest;
      cells = w.cells.items;
    } };

    ghost invariant = { λ w. AreTables
        (record {
          rules = record { width = w.width; keep = w.keep; least = w.least; need = w.need };
          parts = w.parts;
          newest = w.newest;
          cells = w.cells.items;
        }) };
}

impl Windows {
    /// Windows without a sample.
    ///
    /// There are `parts` partitions, at most 10,000. A window has `width` milliseconds, 1 to
    /// 86,400,000, and `keep` of them are kept, 1 to 100. `least` samples, 1 to 65,536, make a
    /// window's value, and `need` windows with a value, 1 to 100, make a partition's load.
    pub fn new(
        alloc: Global,
        parts: u32,
        width: u64,
        keep: u64,
        least: u32,
        need: u64,
    ) -> Result<Windows, Memory>
        requires ranges { AreInRange
            (record { width = width; keep = keep; least = least; need = need }) parts }
        ensures rules { IfOk result
            (λ w. w.rules ≡ record { width = width; keep = keep; least = least; need = need }) }
        ensures parts { IfOk result (λ w. w.parts ≡ parts) }
        ensures empty { IfOk result (λ w. StandsFor w []) }
    {
        let size = parts as usize * keep as usize;
        let cells = vec![in alloc; Cell::empty(); size]?;
        Ok(Windows {
            width,
            keep,
            least,
            need,
            parts,
            newest: None,
            cells,
        })
    }

    // Whether a window is older than those that are kept.
    fn is_past(&self, window: u64) -> bool
        ensures { result ≡ is_past self.now.rules self.now.newest window }
    {
        match self.newest {
            None => false,
            Some(newest) => window <= newest && newest - window >= self.keep,
        }
    }

    // The oldest kept window.
    fn oldest_kept(&self) -> u64
        ensures { result ≡ oldest_kept self.now.rules self.now.newest }
    {
        match self.newest {
            None => 0,
            Some(newest) => newest.saturating_sub(self.keep - 1),
        }
    }

    // Whether the windows before and after are kept.
    fn has_neighbours(&self, window: u64) -> bool
        ensures value { result ≡ has_neighbours self.now.rules self.now.newest window }
        ensures within { OnTrue result ((0 < window) × (window < 18446744073709551615)) }
    {
        match self.newest {
            None => false,
            Some(newest) => window > 0 && window < newest && newest - (window - 1) < self.keep,
        }
    }

    // The place of a partition's cell for a window.
    fn place(&self, part: u32, window: u64) -> usize
        requires { part < self.now.parts }
        ensures value { result ≡ place self.now.rules.keep part window }
        ensures within { result < length self.now.cells }
    {
        part as usize * self.keep as usize + (window % self.keep) as usize
    }

    // The tally of a partition in a window that isn't past.
    #[tactic(auto, unfolding(crate::specs::Tables::tally_in))]
    fn tally(&self, part: u32, window: u64) -> Tally
        requires { part < self.now.parts }
        ensures value { result ≡ tally_in self.now part window }
        ensures few { result.count ≤ 65536 }
        ensures tally { IsTally result }
    {
        let place = self.place(part, window);
        let cell = self.cells[place];
        if cell.window == window {
            cell.tally
        } else {
            Tally::none()
        }
    }

    // Makes the cell of a partition that window's, with this tally.
    #[tactic(auto, unfolding(crate::specs::Tables::stored))]
    fn put(&mut self, part: u32, window: u64, tally: Tally)
        requires part { part < self.old.parts }
        requires few { tally.count ≤ 65536 }
        requires tally { IsTally tally }
        ensures value { self.new ≡ stored self.old part window tally }
        ensures rules { self.new.rules ≡ self.old.rules }
        ensures parts { self.new.parts ≡ self.old.parts }
    {
        let place = self.place(part, window);
        self.cells[place] = Cell { window, tally };
        self.newest = match self.newest {
            None => Some(window),
            Some(newest) => Some(newest.max(window)),
        };
    }

    /// Adds a sample of a partition, taken at a time in milliseconds. Each load is below 2^32. It
    /// takes no memory.
    ///
    /// A sample is refused where its window is no longer kept, or else where the partition has
    /// 65,536 samples in the window. A refusal changes nothing.
    pub fn add(&mut self, part: u32, time: u64, sample: Loads) -> Result<(), SampleFault>
        // The sample is of a partition, and in its range.
        requires part { part < self.old.parts }
        requires loads { IsLoads sample }
        // A sample that is accepted is one more.
        ensures accepts { OnOk result
            ((samples : List Sample) → StandsFor self.old samples
            → refusal self.old.rules samples
            (record { part = part; time = time; loads = sample }) ≡ None) }
        ensures accepted { OnOk result
            ((samples : List Sample) → StandsFor self.old samples
            → StandsFor self.new
            (samples ++ record { part = part; time = time; loads = sample } ∷ [])) }
        // Why a sample is refused, which changes nothing.
        ensures refused { IfErr result
            (λ e. (samples : List Sample) → StandsFor self.old samples
            → refusal self.old.rules samples
            (record { part = part; time = time; loads = sample }) ≡ Some e) }
        ensures unchanged { OnErr result (self.new ≡ self.old) }
        // Rules and partitions stay.
        ensures rules { self.new.rules ≡ self.old.rules }
        ensures parts { self.new.parts ≡ self.old.parts }
    {
        let window = time / self.width;
        if self.is_past(window) {
            return Err(SampleFault::TooOld(self.oldest_kept()));
        }
        let tally = self.tally(part, window);
        if tally.count >= MAX_SAMPLES {
            return Err(SampleFault::WindowFull);
        }
        self.put(part, window, tally.with(sample));
        Ok(())
    }

    // The value of a window that has few samples itself.
    #[tactic(auto, unfolding(crate::specs::Tables::value_by))]
    fn adjacent(&self, part: u32, window: u64, here: Tally) -> Option<Loads>
        // The window of the partition has too few samples.
        requires part { part < self.now.parts }
        requires here { here ≡ tally_in self.now part window }
        requires few { here.count ≤ 65536 }
        requires tally { IsTally here }
        requires too_few { here.count < half self.now.rules }
        // What its neighbors give for it.
        ensures value { result ≡ value_in self.now part window }
        ensures loads { IfSome result IsLoads }
    {
        if !self.has_neighbours(window) {
            return None;
        }
        let before = self.tally(part, window - 1);
        let after = self.tally(part, window + 1);
        if before.count < self.least || after.count < self.least {
            return None;
        }
        Some(before.and(here).and(after).mean())
    }

    // The value of a kept window.
    #[tactic(auto, unfolding(crate::specs::Tables::value_by))]
    fn value(&self, part: u32, window: u64) -> Option<Loads>
        requires { part < self.now.parts }
        ensures value { result ≡ value_in self.now part window }
        ensures loads { IfSome result IsLoads }
    {
        let here = self.tally(part, window);
        if here.count >= (self.least + 1) / 2 {
            Some(here.mean())
        } else {
            self.adjacent(part, window, here)
        }
    }

    // One value more, where the window has one.
    fn with_value(&self, part: u32, window: u64, tally: Tally) -> Tally
        requires part { part < self.now.parts }
        requires few { tally.count < 1000000 }
        requires tally { IsTally tally }
        ensures value { result ≡ with_some tally (value_in self.now part window) }
        ensures few { result.count ≤ tally.count + 1 }
        ensures tally { IsTally result }
    {
        match self.value(part, window) {
            None => tally,
            Some(value) => tally.with(value),
        }
    }

    // The tally of the values of the kept windows that have one, from the oldest to the newest.
    fn values_up_to(&self, part: u32, newest: u64) -> Tally
        requires part { part < self.now.parts }
        requires newest { self.now.newest ≡ Some newest }
        ensures value { result ≡ tally_of (values_in self.now part) }
        ensures few { result.count ≤ 100 }
        ensures tally { IsTally result }
    {
        let _ranges = &self.keep;
        let mut tally = Tally::none();
        let oldest = self.oldest_kept();
        for age in 0..newest - oldest + 1 {
            tally = self.with_value(part, oldest + age, tally);
        }
        tally
    }

    // The tally of the values of the kept windows that have one.
    fn values(&self, part: u32) -> Tally
        requires { part < self.now.parts }
        ensures value { result ≡ tally_of (values_in self.now part) }
        ensures few { result.count ≤ 100 }
        ensures tally { IsTally result }
    {
        match self.newest {
            None => Tally::none(),
            Some(newest) => self.values_up_to(part, newest),
        }
    }

    // The average of the values, where there are enough.
    fn load(&self, part: u32) -> Option<Loads>
        requires { part < self.now.parts }
        ensures value { result ≡ enough_mean self.now.rules.need (values_in self.now part) }
        ensures loads { IfSome result IsLoads }
    {
        let values = self.values(part);
        if u64::from(values.count) < self.need {
            None
        } else {
            Some(values.mean())
        }
    }

    // Whether there are enough.
    fn has_load(&self, part: u32) -> bool
        requires { part < self.now.parts }
        ensures { result ≡ is_some (enough_mean self.now.rules.need (values_in self.now part)) }
    {
        self.load(part).is_some()
    }

    /// The load of a partition: the average of the values of the kept windows that have one, number
    /// by number and rounded down. `None` exactly where fewer than `need` of them have one.
    ///
    /// A window's value is the average of its samples, where there are `least` of them, or at least
    /// half as many, rounded up (AVG_AVAILABLE). With fewer it is the average of all samples of the
    /// window and those before and after, where both are kept and have `least` samples each
    /// (AVG_ADJACENT). It takes no memory.
    pub fn load_of(&self, part: u32) -> Option<Loads>
        requires { part < self.now.parts }
        ensures value { (samples : List Sample) → StandsFor self.now samples
            → result ≡ load_of self.now.rules samples part }
        ensures loads { IfSome result IsLoads }
    {
        let _ranges = &self.least;
        self.load(part)
    }

    /// How many partitions have a load, and how many there are. It takes no memory.
    pub fn coverage(&self) -> (u32, u32)
        ensures { (samples : List Sample) → StandsFor self.now samples
            → result ≡ coverage self.now.rules self.now.parts samples }
    {
        let mut valid = 0;
        for part in 0..self.parts {
            if self.has_load(part) {
                valid += 1;
            }
        }
        (valid, self.parts)
    }
}
