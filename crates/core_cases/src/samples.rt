// Samples.
ghost use Rattle.std.specs.Prelude.{◌≡◌, ◌<◌, List, Some, length};
ghost use Rattle.plan_terms.specs.declared.settings.Sample.{Sample};
ghost use Rattle.metric_windows.specs.Samples.{refusal};
ghost use Rattle.metric_windows.specs.StandsFor.{StandsFor};
ghost use Rattle.core_terms.specs.Works.{part_place, sample_told, with_sample, sample_at, reply_sample, sampled};

use crate::file::OpenFile;
use core_terms::Reply;
use metric_windows::{SampleFault, Windows};
use plan_terms::{Measured, Topic};

// What a refused sample is answered.
fn fault_told(fault: SampleFault) -> Reply
    ensures { result ≡ sample_told (Some fault) }
{
    match fault {
        SampleFault::TooOld(window) => Reply::TooOld(window),
        SampleFault::WindowFull => Reply::WindowFull,
    }
}

// Adds a sample of the partition at a place.
fn add_sample(windows: &mut Windows, part: u32, time: u64, measured: &Measured) -> Reply
    requires { part < windows.old.parts }
    ensures reply { (samples : List Sample) → StandsFor windows.old samples
        → result
        ≡ sample_told (refusal windows.old.rules samples (sample_at part time measured.now)) }
    ensures state { (samples : List Sample) → StandsFor windows.old samples
        → StandsFor windows.new
        (with_sample samples (sample_at part time measured.now)
        (refusal windows.old.rules samples (sample_at part time measured.now))) }
    ensures rules { windows.new.rules ≡ windows.old.rules }
    ensures parts { windows.new.parts ≡ windows.old.parts }
{
    match windows.add(part, time, measured.loads()) {
        Ok(()) => Reply::Sampled,
        Err(fault) => fault_told(fault),
    }
}

/// A sample of a partition, by topic and number, at a time in milliseconds.
pub fn sample(
    file: &OpenFile,
    windows: &mut Windows,
    closing: bool,
    topic: &Topic,
    number: u32,
    time: u64,
    measured: &Measured,
) -> Reply
    requires rules { windows.old.rules ≡ file.now.rules }
    requires parts { windows.old.parts ≡ length file.now.cluster.parts }
    ensures reply { (samples : List Sample) → StandsFor windows.old samples
        → result ≡ reply_sample file.now closing samples topic.now number time measured.now }
    ensures state { (samples : List Sample) → StandsFor windows.old samples
        → StandsFor windows.new
        (sampled file.now closing samples topic.now number time measured.now) }
    ensures rules { windows.new.rules ≡ windows.old.rules }
    ensures parts { windows.new.parts ≡ windows.old.parts }
{
    if closing {
        return Reply::Closing;
    }
    match file.part_place(topic.as_str(), number) {
        None => Reply::NoSuchPartition,
        Some(part) => add_sample(windows, part as u32, time, measured),
    }
}
