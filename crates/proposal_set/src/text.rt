// The reassignment JSON.
ghost use Rattle.std.specs.Prelude.{◌≡◌, ◌<◌, Some, IfOk, length, map};
ghost use Rattle.std.specs.List.{All};
ghost use Rattle.serde_json.specs.Data.{array};
ghost use Rattle.serde_json.specs.Read.{read};
ghost use Rattle.serde_json.specs.View.{view, items_of};
ghost use Rattle.proposal_set.specs.Text.{entry_of, proposal_entries, list_entries, reassignment, reassignment_text, assignment_text};

use load_model::Case;
use plain_json::numbers_value;
use plan_terms::{Memory, Part, Proposal, Replicas};
use serde_json::{Value, json};
use std::alloc::{AllocError, Global};

fn entry_value(alloc: Global, part: &Part, replicas: &[u32]) -> Result<Value, AllocError>
    ensures { IfOk result (λ v. view v ≡ entry_of part.now replicas.now) }
{
    let list = numbers_value(alloc, replicas)?;
    let topic = part.topic.as_str();
    json!(in alloc; {"partition": (part.number), "replicas": list, "topic": topic})
}

fn proposal_values(
    alloc: Global,
    parts: &[Part],
    proposals: &[Proposal],
) -> Result<Vec<Value>, AllocError>
    requires { All (λ p. p.part < length parts.now) proposals.now }
    ensures { IfOk result (λ v. map view v.items ≡ proposal_entries parts.now proposals.now) }
{
    let mut entries = Vec::new(alloc);
    for proposal in proposals {
        let part = &parts[proposal.part as usize];
        entries.push(entry_value(alloc, part, proposal.after.as_slice())?)?;
    }
    Ok(entries)
}

fn list_values(alloc: Global, parts: &[Part], lists: &[Replicas]) -> Result<Vec<Value>, AllocError>
    requires { length lists.now ≡ length parts.now }
    ensures { IfOk result (λ v. map view v.items ≡ list_entries parts.now lists.now) }
{
    let mut entries = Vec::new(alloc);
    for (part, list) in parts.iter().zip(lists) {
        entries.push(entry_value(alloc, part, list.as_slice())?)?;
    }
    Ok(entries)
}

fn reassignment_value(alloc: Global, entries: Vec<Value>) -> Result<Value, AllocError>
    ensures { IfOk result (λ v. view v ≡ reassignment (map view entries.items)) }
{
    json!(in alloc; {"partitions": (Value::Array(entries)), "version": 1u64})
}

/// The reassignment JSON that asks for the proposals' new lists, as
/// `kafka-reassign-partitions --reassignment-json-file` reads it. Keys stand in the order of their
/// bytes, with no white space between.
pub fn reassignment_text(
    alloc: Global,
    case: &Case,
    proposals: &[Proposal],
) -> Result<Vec<u8>, Memory>
    requires { All (λ p. p.part < length case.now.parts) proposals.now }
    ensures text { IfOk result (λ text. text.items
        ≡ reassignment_text case.now.parts proposals.now) }
    ensures reads { IfOk result
        (λ text. read text.items
        ≡ Some (reassignment (proposal_entries case.now.parts proposals.now))) }
{
    let entries = proposal_values(alloc, case.parts(), proposals)?;
    let value = reassignment_value(alloc, entries)?;
    Ok(value.to_vec(alloc)?)
}

/// The reassignment JSON of all lists, in the order of the partitions. It has the form of
/// `reassignment_text`.
pub fn assignment_text(alloc: Global, case: &Case, lists: &[Replicas]) -> Result<Vec<u8>, Memory>
    requires { length lists.now ≡ length case.now.parts }
    ensures text { IfOk result (λ text. text.items ≡ assignment_text case.now.parts lists.now) }
    ensures reads { IfOk result
        (λ text. read text.items ≡ Some (reassignment (list_entries case.now.parts lists.now))) }
{
    let entries = list_values(alloc, case.parts(), lists)?;
    let value = reassignment_value(alloc, entries)?;
    Ok(value.to_vec(alloc)?)
}
