// A whole cluster file.
ghost use Rattle.std.specs.Prelude.{◌≡◌, ◌≢◌, map, length, slice_index, IfOk};
ghost use Rattle.std.specs.List.{All};
ghost use Rattle.plan_terms.specs.Belongs.{Belongs};
ghost use Rattle.plan_terms.specs.Faults.{cluster_fault, lists_fault};
ghost use Rattle.serde_json.specs.View.{view};
ghost use Rattle.cluster_json.specs.File.{cluster_at, file_at, meaning_of, members_at, options_with, unless, version_at};
ghost use Rattle.cluster_json.specs.Ranges.{AreCaps, AreLoads, AreRules, IsFile, IsSample, IsShare};
ghost use Rattle.cluster_json.specs.Reading.{Gives};
ghost use Rattle.cluster_json.specs.Views.{file_seen, members_seen};
ghost use Rattle.plan_terms.specs.Resources.{NW_OUT};

use crate::FileRefusal;
use crate::brokers::BrokerObject;
use crate::capacities::{all_equipped, entries_in};
use crate::config::{Config, config_in};
use crate::leaders::min_leaders_in;
use crate::partitions::{FilePart, PartObject};
use crate::refusal::wrong_shape;
use crate::samples::{Placed, narrowed, samples_in};
use crate::shape::{Each, Shape, check_object, required};
use load_model::{Assign, Case};
use plan_terms::{
    Broker, Caps, CaseFault, ListOf, Memory, MinLeadersList, Options, Part, Ratio, Sample,
    WindowRules,
};
use serde_json::Value;
use std::alloc::Global;

/// What a cluster file means.
#[derive(Drop)]
pub struct ClusterFile {
    /// The brokers and partitions, with the loads that the file gives, and the goals' thresholds.
    pub case: Case,
    /// The replica list of each partition.
    pub lists: Assign,
    pub caps: Caps,
    pub rules: WindowRules,
    /// The share of partitions that have to have a load, at most 1.
    pub ratio: Ratio,
    /// For each partition, whether the file gives its loads.
    pub with_load: Vec<bool>,
    /// The samples, in the order of the file.
    pub samples: Vec<Sample>,
}

/// The members of a file.
#[derive(Drop)]
pub struct FileMembers {
    pub brokers: Vec<Broker>,
    pub parts: ListOf<FilePart>,
    pub config: Config,
    pub samples: ListOf<Placed>,
    pub min_leaders: MinLeadersList,
}

/// The partitions, their lists, and whether the file gives their loads.
#[derive(Drop)]
pub struct Columns {
    pub parts: Vec<Part>,
    pub lists: Vec<Vec<u32>>,
    pub with_load: Vec<bool>,
}

/// The version of a file, which is 1 or 2.
struct Version;

impl Shape for Version {
    type Out = u64;

    ghost meaning = { λ _. version_at };

    #[tactic(auto, unfolding(crate::specs::File::version_at))]
    fn read(&self, alloc: Global, value: &Value) -> Result<u64, FileRefusal> {
        let Some(number) = value.as_number() else {
            return Err(wrong_shape(alloc));
        };
        match number.as_u64() {
            Some(version) if version == 1 || version == 2 => Ok(version),
            _ => Err(FileRefusal::UnsupportedVersion),
        }
    }
}

#[tactic(auto, unfolding(crate::specs::File::members_at))]
fn read_members(alloc: Global, value: &Value) -> Result<FileMembers, FileRefusal>
    ensures means { Gives members_seen result (members_at (view value.now)) }
    ensures loads { IfOk result (λ m. All (λ p. AreLoads p.part.loads) m.parts) }
    ensures caps { IfOk result (λ m. AreCaps m.config.caps) }
    ensures rules { IfOk result (λ m. AreRules m.config.rules) }
    ensures share { IfOk result (λ m. IsShare m.config.ratio) }
    ensures samples { IfOk result (λ m. All (IsSample (length m.parts)) m.samples) }
{
    check_object(alloc, value)?;
    let version = required(alloc, value, "version", &Version)?;
    let named = required(alloc, value, "brokers", &Each(BrokerObject))?;
    let entries = entries_in(alloc, value)?;
    let brokers = all_equipped(alloc, &entries, named.into_vec())?;
    let parts = required(alloc, value, "partitions", &Each(PartObject))?;
    let config = config_in(alloc, value)?;
    let samples = samples_in(alloc, parts.as_slice(), value)?;
    let min_leaders = min_leaders_in(alloc, version, value)?;
    Ok(FileMembers {
        brokers,
        parts,
        config,
        samples,
        min_leaders,
    })
}

fn split(alloc: Global, file_parts: ListOf<FilePart>) -> Result<Columns, Memory>
    ensures parts { IfOk result (λ c. c.parts.items ≡ map (λ p. p.part) file_parts) }
    ensures lists { IfOk result
        (λ c. map (λ list. list.items) c.lists.items ≡ map (λ p. p.replicas) file_parts) }
    ensures with_load { IfOk result (λ c. c.with_load.items ≡ map (λ p. p.with_load) file_parts) }
    ensures one_each { IfOk result (λ c. length c.lists.items ≡ length c.parts.items) }
{
    let mut parts = Vec::new(alloc);
    let mut lists = Vec::new(alloc);
    let mut with_load = Vec::new(alloc);
    for file_part in file_parts.into_vec() {
        parts.push(file_part.part)?;
        lists.push(file_part.replicas.into_vec())?;
        with_load.push(file_part.with_load)?;
    }
    Ok(Columns {
        parts,
        lists,
        with_load,
    })
}

// The thresholds that the configuration gives, with the least leaders of the file.
fn options_with(mut options: Options, min_leaders: MinLeadersList) -> Options
    ensures { result ≡ options_with options min_leaders }
{
    options.min_leaders = min_leaders;
    options
}

// The refusal of brokers, partitions or lists that make no cluster.
fn of_case(fault: CaseFault) -> FileRefusal
    ensures memory { fault ≡ CaseFault.Memory → result ≡ FileRefusal.Memory }
    ensures told { fault ≢ CaseFault.Memory → result ≡ FileRefusal.Case fault }
{
    match fault {
        CaseFault::Memory => FileRefusal::Memory,
        fault => FileRefusal::Case(fault),
    }
}

// The case of a file's brokers and partitions.
fn case_of(
    alloc: Global,
    brokers: Vec<Broker>,
    parts: Vec<Part>,
    options: Options,
) -> Result<Case, FileRefusal>
    requires { All (λ p. slice_index p.loads.follow NW_OUT ≡ 0) parts.items }
    ensures means { Gives (λ c. tt) result
        (unless (cluster_fault brokers.items parts.items options)) }
    ensures case { IfOk result
        (λ c. c ≡ record { brokers = brokers.items; parts = parts.items; options = options }) }
{
    Case::new(alloc, brokers, parts, options).map_err(|fault| of_case(fault))
}

// The assignment of a file's lists.
fn assignment_of(alloc: Global, case: &Case, lists: Vec<Vec<u32>>) -> Result<Assign, FileRefusal>
    requires { length lists.items ≡ length case.now.parts }
    ensures means { Gives (λ a. tt) result
        (unless (lists_fault case.now (map (λ list. list.items) lists.items))) }
    ensures lists { IfOk result (λ a. a ≡ map (λ list. list.items) lists.items) }
    ensures belongs { IfOk result (Belongs case.now) }
{
    Assign::new(alloc, case, lists).map_err(|fault| of_case(fault))
}

// The file that the members make.
#[tactic(auto, unfolding(crate::specs::File::cluster_at))]
fn load(alloc: Global, members: FileMembers) -> Result<ClusterFile, FileRefusal>
    // Each member is in its range.
    requires loads { All (λ p. AreLoads p.part.loads) members.parts }
    requires caps { AreCaps members.config.caps }
    requires rules { AreRules members.config.rules }
    requires share { IsShare members.config.ratio }
    requires samples { All (IsSample (length members.parts)) members.samples }
    // The cluster of these members, or the first refusal.
    ensures means { Gives file_seen result (cluster_at (members_seen members)) }
    ensures file { IfOk result IsFile }
{
    let FileMembers {
        brokers,
        parts,
        config,
        samples,
        min_leaders,
    } = members;
    let Config {
        options,
        caps,
        rules,
        ratio,
    } = config;
    let columns = split(alloc, parts)?;
    let options = options_with(options, min_leaders);
    let case = case_of(alloc, brokers, columns.parts, options)?;
    let lists = assignment_of(alloc, &case, columns.lists)?;
    let samples = narrowed(alloc, case.parts().len(), &samples)?;
    Ok(ClusterFile {
        case,
        lists,
        caps,
        rules,
        ratio,
        with_load: columns.with_load,
        samples,
    })
}

// The meaning of a JSON value.
#[tactic(auto, unfolding(crate::specs::File::file_at))]
fn read_file(alloc: Global, value: &Value) -> Result<ClusterFile, FileRefusal>
    ensures means { Gives file_seen result (file_at (view value.now)) }
    ensures file { IfOk result IsFile }
{
    let members = read_members(alloc, value)?;
    load(alloc, members)
}

/// Reads a cluster file, or tells its first fault: bytes that are no JSON (RFC 8259); the version;
/// then the members in the order `brokers`, `brokerCapacities`, `partitions`, `config`, `samples`
/// and, in version 2, `minTopicLeaders`, lists by index and objects in the order of the documented
/// table; and last what makes no cluster.
pub fn read_cluster(alloc: Global, bytes: &[u8]) -> Result<ClusterFile, FileRefusal>
    ensures means { Gives file_seen result (meaning_of bytes.now) }
    ensures file { IfOk result IsFile }
{
    match Value::from_slice(alloc, bytes) {
        Ok(value) => read_file(alloc, &value),
        Err(e) if e.is_memory() => Err(FileRefusal::Memory),
        Err(_) => Err(FileRefusal::NotJson),
    }
}
