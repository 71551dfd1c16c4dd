// The loads of a file's cluster: those of the windows, else those that the file gives.
ghost use Rattle.std.specs.Prelude.{◌≡◌, ◌≤◌, ◌<◌, List, IfOk, IfSome, length};
ghost use Rattle.std.specs.List.{All};
ghost use Rattle.plan_terms.specs.Belongs.{Belongs};
ghost use Rattle.plan_terms.specs.Loads.{IsLoads};
ghost use Rattle.plan_terms.specs.declared.settings.Sample.{Sample};
ghost use Rattle.cluster_json.specs.Ranges.{AreRules, IsFile, IsSample};
ghost use Rattle.cluster_json.specs.Views.{file_seen};
ghost use Rattle.metric_windows.specs.Samples.{load_of};
ghost use Rattle.metric_windows.specs.StandsFor.{StandsFor};
ghost use Rattle.core_terms.specs.Input.{and_accepted, accepted, loaded_from, loaded_parts, has_loads, valid_parts};
ghost use Rattle.core_cases.specs.Changes.{loaded_at};

use crate::file::OpenFile;
use cluster_json::ClusterFile;
use load_model::Case;
use metric_windows::Windows;
use plan_terms::{Loads, Memory, Sample, WindowRules};
use std::alloc::Global;

// Adds a sample. One that is refused is left out.
fn note(windows: &mut Windows, sample: &Sample)
    requires { IsSample windows.old.parts sample.now }
    ensures stands { (seen : List Sample) → StandsFor windows.old seen
        → StandsFor windows.new (and_accepted windows.old.rules seen sample.now) }
    ensures rules { windows.new.rules ≡ windows.old.rules }
    ensures parts { windows.new.parts ≡ windows.old.parts }
{
    match windows.add(sample.part, sample.time, sample.loads) {
        Ok(()) => {}
        Err(_) => {}
    }
}

// The windows of samples of so many partitions.
#[tactic(auto, unfolding(core_terms::specs::Input::accepted))]
fn windows_from(
    alloc: Global,
    parts: u32,
    rules: WindowRules,
    samples: &[Sample],
) -> Result<Windows, Memory>
    requires few { parts ≤ 10000 }
    requires ranges { AreRules rules }
    requires samples { All (IsSample parts) samples.now }
    ensures stands { IfOk result (λ w. StandsFor w (accepted rules samples.now)) }
    ensures rules { IfOk result (λ w. w.rules ≡ rules) }
    ensures parts { IfOk result (λ w. w.parts ≡ parts) }
{
    let WindowRules {
        width,
        keep,
        least,
        need,
    } = rules;
    let mut windows = Windows::new(alloc, parts, width, keep, least, need)?;
    for sample in samples {
        note(&mut windows, sample);
    }
    Ok(windows)
}

/// The windows of a file's samples.
pub fn windows_of(alloc: Global, file: &OpenFile) -> Result<Windows, Memory>
    ensures stands { IfOk result (λ w. StandsFor w (accepted file.now.rules file.now.samples)) }
    ensures rules { IfOk result (λ w. w.rules ≡ file.now.rules) }
    ensures parts { IfOk result (λ w. w.parts ≡ length file.now.cluster.parts) }
{
    let parts = file.case().parts().len() as u32;
    windows_from(alloc, parts, file.rules(), file.samples())
}

// Gives a partition other loads, where there are any.
fn give_loads(case: &mut Case, part: usize, loads: Option<Loads>)
    requires part { part < length case.old.parts }
    requires loads { IfSome loads IsLoads }
    ensures { case.new ≡ record case.old { parts = loaded_at case.old.parts part loads } }
{
    match loads {
        Some(loads) => case.set_loads(part, loads),
        None => {}
    }
}

// Gives a partition the loads of its windows, where they have any.
fn load_part(case: &mut Case, windows: &Windows, part: usize)
    requires part { part < length case.old.parts }
    requires few { length case.old.parts ≤ 10000 }
    requires parts { windows.now.parts ≡ length case.old.parts }
    ensures loads { (samples : List Sample) → StandsFor windows.now samples
        → case.new
        ≡ record case.old {
          parts = loaded_at case.old.parts part (load_of windows.now.rules samples part);
        } }
    ensures long { length case.new.parts ≡ length case.old.parts }
{
    let loads = windows.load_of(part as u32);
    give_loads(case, part, loads);
}

// Gives each partition the loads of its windows, where they have any.
fn load_parts(case: &mut Case, windows: &Windows)
    requires { windows.now.parts ≡ length case.old.parts }
    ensures loads { (samples : List Sample) → StandsFor windows.now samples
        → case.new
        ≡ record case.old {
          parts = loaded_from (load_of windows.now.rules samples) 0 case.old.parts;
        } }
    ensures long { length case.new.parts ≡ length case.old.parts }
{
    let end = case.parts().len();
    for part in 0..end {
        load_part(case, windows, part);
    }
}

/// The cluster of a file with the loads of the windows; a partition without keeps what the file
/// gives, or none.
#[tactic(auto, unfolding(core_terms::specs::Input::loaded_parts))]
pub fn loaded(alloc: Global, file: &OpenFile, windows: &Windows) -> Result<Case, Memory>
    requires rules { windows.now.rules ≡ file.now.rules }
    requires parts { windows.now.parts ≡ length file.now.cluster.parts }
    ensures value { (samples : List Sample) → StandsFor windows.now samples
        → IfOk result (λ c. c ≡ record file.now.cluster { parts = loaded_parts file.now samples }) }
    ensures one_each { IfOk result (λ c. length c.parts ≡ length file.now.cluster.parts) }
{
    let mut case = file.case().copy(alloc)?;
    load_parts(&mut case, windows);
    Ok(case)
}

/// The cluster of a file with the loads of its samples' windows, without opening it.
#[tactic(auto, unfolding(core_terms::specs::Input::loaded_parts))]
pub fn loaded_case(alloc: Global, file: &ClusterFile) -> Result<Case, Memory>
    requires { IsFile file.now }
    ensures value { IfOk result
        (λ c. c
        ≡ record file.now.case {
          parts = loaded_parts (file_seen file.now)
              (accepted file.now.rules file.now.samples.items);
        }) }
    ensures belongs { IfOk result (λ c. Belongs c file.now.lists) }
{
    let parts = file.case.parts().len() as u32;
    let windows = windows_from(alloc, parts, file.rules, file.samples.as_slice())?;
    let mut case = file.case.copy(alloc)?;
    load_parts(&mut case, &windows);
    Ok(case)
}

// Whether a partition has loads.
fn has_loads(file: &OpenFile, windows: &Windows, part: u32) -> bool
    requires rules { windows.now.rules ≡ file.now.rules }
    requires parts { windows.now.parts ≡ length file.now.cluster.parts }
    requires part { part < length file.now.cluster.parts }
    ensures { (samples : List Sample) → StandsFor windows.now samples
        → result ≡ has_loads file.now samples part }
{
    let given = file.with_load();
    windows.load_of(part).is_some() || given[part as usize]
}

/// How many partitions have loads.
#[tactic(auto, unfolding(core_terms::specs::Input::valid_parts))]
pub fn valid_parts(file: &OpenFile, windows: &Windows) -> u32
    requires rules { windows.now.rules ≡ file.now.rules }
    requires parts { windows.now.parts ≡ length file.now.cluster.parts }
    ensures value { (samples : List Sample) → StandsFor windows.now samples
        → result ≡ valid_parts file.now samples }
    ensures few { result ≤ 10000 }
{
    let mut valid = 0;
    for part in 0..file.case().parts().len() as u32 {
        if has_loads(file, windows, part) {
            valid += 1;
        }
    }
    valid
}
