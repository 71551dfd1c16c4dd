// The cluster file that a book is opened with.
ghost use Rattle.std.specs.Prelude.{◌≡◌, ◌<◌, ◌≤◌, IfOk, IfSome, length};
ghost use Rattle.cluster_json.specs.Ranges.{IsFile};
ghost use Rattle.cluster_json.specs.Views.{file_seen};
ghost use Rattle.core_terms.specs.Input.{IsInput};
ghost use Rattle.core_terms.specs.Works.{part_place};

use crate::index::PartIndex;
use cluster_json::ClusterFile;
use load_model::{Assign, Case};
use plan_terms::{Caps, Memory, Ratio, Sample, WindowRules};
use std::alloc::Global;
use std::marker::Model;

/// A cluster file that was read, with an index of its partitions.
#[derive(Drop)]
pub struct OpenFile {
    file: ClusterFile,
    index: PartIndex,
}

impl Model for OpenFile {
    ghost use Rattle.cluster_json.specs.File.{Meaning};
    ghost use Rattle.cluster_json.specs.Views.{file_seen};
    ghost use Rattle.core_terms.specs.Input.{IsInput};
    ghost use Rattle.core_cases.specs.Index.{IsIndexOf};

    ghost Value = { Meaning };

    ghost view = { λ f. file_seen f.file };

    ghost invariant = { λ f. IsInput (file_seen f.file)
        × IsIndexOf f.file.case.parts f.index.numbers f.index.places };
}

impl OpenFile {
    /// Opens a file that was read.
    pub fn new(alloc: Global, file: ClusterFile) -> Result<OpenFile, Memory>
        requires { IsFile file }
        ensures { IfOk result (λ f. f ≡ file_seen file) }
    {
        let index = PartIndex::new(alloc, file.case.parts())?;
        Ok(OpenFile { file, index })
    }

    /// The brokers and partitions, with the loads that the file gives.
    pub fn case(&self) -> &Case
        ensures value { result.now ≡ self.now.cluster }
        ensures kept { IsInput self.now }
    {
        &self.file.case
    }

    /// The replica lists.
    pub fn lists(&self) -> &Assign
        ensures value { result.now ≡ self.now.lists }
        ensures kept { IsInput self.now }
    {
        &self.file.lists
    }

    /// How many movements there may be at a time.
    pub fn caps(&self) -> Caps
        ensures value { result ≡ self.now.caps }
        ensures kept { IsInput self.now }
    {
        self.file.caps
    }

    /// The rules of the windows.
    pub fn rules(&self) -> WindowRules
        ensures value { result ≡ self.now.rules }
        ensures kept { IsInput self.now }
    {
        self.file.rules
    }

    /// The share of partitions that have to have loads.
    pub fn ratio(&self) -> Ratio
        ensures value { result ≡ self.now.ratio }
        ensures kept { IsInput self.now }
    {
        self.file.ratio
    }

    /// For each partition, whether the file gives its loads.
    pub fn with_load(&self) -> &[bool]
        ensures value { result.now ≡ self.now.with_load }
        ensures kept { IsInput self.now }
    {
        self.file.with_load.as_slice()
    }

    /// The samples.
    pub fn samples(&self) -> &[Sample]
        ensures value { result.now ≡ self.now.samples }
        ensures kept { IsInput self.now }
    {
        self.file.samples.as_slice()
    }

    /// The place of the partition of a topic and number, found without a look at the others.
    pub fn part_place(&self, topic: &str, number: u32) -> Option<usize>
        ensures place { result ≡ part_place self.now.cluster.parts topic.now number }
        ensures within { IfSome result (λ p. p < length self.now.cluster.parts) }
        ensures few { length self.now.cluster.parts ≤ 10000 }
    {
        let _few = self.file.case.parts();
        self.index.place(topic, number)
    }
}
