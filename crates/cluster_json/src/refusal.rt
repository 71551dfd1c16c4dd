// Why a cluster file is refused.
ghost use Rattle.std.specs.Prelude.{◌≡◌, ◌++◌, [], string_bytes, Some, IfOk};
ghost use Rattle.cluster_json.specs.Faults.{member_step, index_step, wrong_shape, bad_number};
ghost use Rattle.cluster_json.specs.Reading.{fault_of, IsDeeper};

use plan_terms::{CaseFault, Memory};
use std::alloc::{AllocError, AllocFailed, Global};
use std::error::Error;
use std::fmt;

/// Why bytes were not read as a cluster file: its first fault. A path is a JSON pointer (RFC 6901).
#[derive(Debug, Drop)]
pub enum FileRefusal {
    /// Want of memory.
    Memory,
    /// The bytes are no JSON text.
    NotJson,
    /// A member is absent that has to be there, or of another kind than it has to be.
    WrongShape(String),
    /// A number isn't whole or is out of range, or a capacity has another form.
    BadNumber(String),
    /// A text can't name a topic.
    BadTopic(String),
    /// The broker of this id has no capacities, and there are none for all.
    MissingCapacity(u32),
    /// There is no setting of this name, or its value has another form or is out of range.
    BadConfig(String),
    /// The version isn't 1.
    UnsupportedVersion,
    /// A form that this program leaves out.
    Unsupported(String),
    /// The brokers, partitions and lists make no cluster.
    Case(CaseFault),
}

/// The name of the fault and, behind a blank, its path, name or number.
impl fmt::Display for FileRefusal {
    ghost use Rattle.std.specs.Prelude.{option_map};
    ghost use Rattle.cluster_json.specs.Reading.{fault_of};
    ghost use Rattle.cluster_json.specs.Texts.{fault_text};

    ghost output = { λ refusal. option_map fault_text (fault_of refusal) };

    #[tactic(auto, unfolding(crate::specs::Texts::fault_text))]
    fn fmt<W: fmt::Write>(&self, f: &mut fmt::Formatter<W>) -> fmt::Result {
        match self {
            FileRefusal::Memory => write!(f, "Memory"),
            FileRefusal::NotJson => write!(f, "NotJson"),
            FileRefusal::WrongShape(path) => write!(f, "WrongShape {path}"),
            FileRefusal::BadNumber(path) => write!(f, "BadNumber {path}"),
            FileRefusal::BadTopic(path) => write!(f, "BadTopic {path}"),
            FileRefusal::MissingCapacity(broker) => write!(f, "MissingCapacity {broker}"),
            FileRefusal::BadConfig(name) => write!(f, "BadConfig {name}"),
            FileRefusal::UnsupportedVersion => write!(f, "UnsupportedVersion"),
            FileRefusal::Unsupported(path) => write!(f, "Unsupported {path}"),
            FileRefusal::Case(fault) => write!(f, "{fault}"),
        }
    }
}

impl Error for FileRefusal {}

impl From<AllocError> for FileRefusal {
    ghost use Rattle.cluster_json.specs.declared.refusal.FileRefusal.TheVariants as refusal;

    ghost from_gives = { λ _ e. e ≡ refusal.Memory };

    fn from(_: AllocError) -> Self {
        FileRefusal::Memory
    }
}

impl<T: Drop> From<AllocFailed<T>> for FileRefusal {
    ghost use Rattle.cluster_json.specs.declared.refusal.FileRefusal.TheVariants as refusal;

    ghost from_gives = { λ _ e. e ≡ refusal.Memory };

    fn from(_: AllocFailed<T>) -> Self {
        FileRefusal::Memory
    }
}

impl From<Memory> for FileRefusal {
    ghost use Rattle.cluster_json.specs.declared.refusal.FileRefusal.TheVariants as refusal;

    ghost from_gives = { λ _ e. e ≡ refusal.Memory };

    fn from(_: Memory) -> Self {
        FileRefusal::Memory
    }
}

fn joined(alloc: Global, step: &str, path: &str) -> Result<String, AllocError>
    ensures { IfOk result (λ s. string_bytes s ≡ step.now ++ path.now) }
{
    let mut whole = String::from_str(alloc, step)?;
    whole.push_str(path)?;
    Ok(whole)
}

// A refusal with the step put before its path.
fn behind(alloc: Global, step: &str, refusal: FileRefusal) -> Result<FileRefusal, AllocError>
    ensures { IfOk result (λ outer. IsDeeper step.now (fault_of refusal) (fault_of outer)) }
{
    Ok(match refusal {
        FileRefusal::WrongShape(path) => FileRefusal::WrongShape(joined(
            alloc,
            step,
            path.as_str(),
        )?),
        FileRefusal::BadNumber(path) => FileRefusal::BadNumber(joined(alloc, step, path.as_str())?),
        FileRefusal::BadTopic(path) => FileRefusal::BadTopic(joined(alloc, step, path.as_str())?),
        FileRefusal::Unsupported(path) => FileRefusal::Unsupported(joined(
            alloc,
            step,
            path.as_str(),
        )?),
        other => other,
    })
}

fn outer(alloc: Global, step: &str, refusal: FileRefusal) -> FileRefusal
    ensures { IsDeeper step.now (fault_of refusal) (fault_of result) }
{
    match behind(alloc, step, refusal) {
        Ok(outer) => outer,
        Err(_) => FileRefusal::Memory,
    }
}

/// The refusal of a member, seen from its object.
pub fn in_member(alloc: Global, name: &str, refusal: FileRefusal) -> FileRefusal
    ensures { IsDeeper (member_step name.now) (fault_of refusal) (fault_of result) }
{
    match format!(in alloc; "/{name}") {
        Ok(step) => outer(alloc, step.as_str(), refusal),
        Err(_) => FileRefusal::Memory,
    }
}

/// The refusal of an item, seen from its list.
pub fn in_item(alloc: Global, index: usize, refusal: FileRefusal) -> FileRefusal
    ensures { IsDeeper (index_step index) (fault_of refusal) (fault_of result) }
{
    match format!(in alloc; "/{index}") {
        Ok(step) => outer(alloc, step.as_str(), refusal),
        Err(_) => FileRefusal::Memory,
    }
}

/// The refusal for a value of another kind than it has to be, which stands at the empty path.
pub fn wrong_shape(alloc: Global) -> FileRefusal
    ensures { fault_of result ≡ Some (wrong_shape []) }
{
    FileRefusal::WrongShape(String::new(alloc))
}

/// The refusal for a number that isn't whole or is out of range, which stands at the empty path.
pub fn bad_number(alloc: Global) -> FileRefusal
    ensures { fault_of result ≡ Some (bad_number []) }
{
    FileRefusal::BadNumber(String::new(alloc))
}
