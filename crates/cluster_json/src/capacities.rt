// The capacities of brokers, in the form of Cruise Control's file of broker capacities.
ghost use Rattle.std.specs.Prelude.{◌≡◌, ◌==◌, ◌^◌, ◌<◌, ◌++◌, ◌∷◌, [], None, codes, option_map, IfOk, IfErr, OnOk};
ghost use Rattle.std.specs.List.{list_all};
ghost use Rattle.serde_json.specs.View.{view, items_view};
ghost use Rattle.cluster_json.specs.Capacities.{all_equipped, amount_at, amount_of, are_zeros, below_limit, cap_of, capacity_at, entries_at, entries_from, entry_at, entry_of, equipped, new_owner, owner_at, owner_of, plain_amount_at};
ghost use Rattle.cluster_json.specs.Faults.{index_step, under};
ghost use Rattle.cluster_json.specs.Reading.{Gives};
ghost use Rattle.cluster_json.specs.Shapes.{inside, note_at, optional, required};
ghost use Rattle.cluster_json.specs.Views.{entries_seen};
ghost use Rattle.plan_terms.specs.Bytes.{digit_0};

use crate::FileRefusal;
use crate::brokers::FileBroker;
use crate::refusal::{bad_number, in_member, wrong_shape};
use crate::shape::{Note, Shape, check_object, item, optional, read_list, read_text, required};
use indexmap::IndexMap;
use plan_terms::{Broker, Res4, read_digits};
use serde_json::Value;
use std::alloc::Global;

/// The broker of an entry, or none where the entry is for all brokers without one of their own.
pub type Owner = Option<u64>;

/// The entries, by owner, in the order of the file.
pub type Entries = IndexMap<Owner, Res4>;

const FULL: Res4 = [1_099_511_627_775; 4];

#[tactic(auto, unfolding(crate::specs::Capacities::owner_of))]
fn owner_named(alloc: Global, text: &str) -> Result<Owner, FileRefusal>
    ensures { Gives (λ o. o) result (owner_of text.now) }
{
    if text == "-1" {
        return Ok(None);
    }
    match read_digits(text, 10) {
        Some(id) => Ok(Some(id)),
        None => Err(wrong_shape(alloc)),
    }
}

#[tactic(auto, unfolding(crate::specs::Capacities::new_owner))]
fn new_owner(alloc: Global, seen: &Entries, owner: Owner) -> Result<Owner, FileRefusal>
    ensures means { Gives (λ o. o) result (new_owner seen.now.entries owner) }
    ensures new { IfOk result (λ o. entry_of seen.now.entries o ≡ None) }
{
    if seen.contains_key(&owner) {
        Err(wrong_shape(alloc))
    } else {
        Ok(owner)
    }
}

/// The id of a broker as a text, or `-1`, that no entry so far has.
#[derive(Drop)]
struct OwnerText<'m> {
    seen: &'m Entries,
}

impl Shape for OwnerText<'_> {
    type Out = Owner;

    ghost meaning = { λ s. owner_at s.seen.now.entries };

    ghost Keeps = { λ s owner. entry_of s.seen.now.entries owner ≡ None };

    fn read(&self, alloc: Global, value: &Value) -> Result<Owner, FileRefusal> {
        let text = read_text(alloc, value)?;
        let owner = owner_named(alloc, text)?;
        new_owner(alloc, self.seen, owner)
    }
}

fn only_zeros(text: &str) -> bool
    ensures { result ≡ list_all (λ b. b == digit_0) text.now }
{
    text.as_bytes().iter().all(|b| *b == b'0')
}

fn are_zeros(text: &str) -> bool
    ensures { result ≡ are_zeros text.now }
{
    text.len() >= 1 && only_zeros(text)
}

// 1 to 13 digits, and perhaps a point and zeros.
#[tactic(auto, unfolding(crate::specs::Capacities::amount_of))]
fn amount_of(text: &str) -> Option<u64>
    ensures { result ≡ amount_of text.now }
{
    match text.split_once('.') {
        None => read_digits(text, 13),
        Some((whole, zeros)) => {
            if are_zeros(zeros) {
                read_digits(whole, 13)
            } else {
                None
            }
        }
    }
}

fn below_limit(alloc: Global, amount: Option<u64>) -> Result<u64, FileRefusal>
    ensures { Gives (λ n. n) result (below_limit amount) }
{
    match amount {
        Some(n) if n < 1 << 40 => Ok(n),
        _ => Err(bad_number(alloc)),
    }
}

/// A text of a whole number below 2^40.
struct Amount;

impl Shape for Amount {
    type Out = u64;

    ghost meaning = { λ _. amount_at };

    #[tactic(auto, unfolding(crate::specs::Capacities::amount_at))]
    fn read(&self, alloc: Global, value: &Value) -> Result<u64, FileRefusal> {
        let text = read_text(alloc, value)?;
        below_limit(alloc, amount_of(text))
    }
}

/// The same, where an object would give more than one disk, or the number of cores.
struct PlainAmount;

impl Shape for PlainAmount {
    type Out = u64;

    ghost meaning = { λ _. plain_amount_at };

    #[tactic(auto, unfolding(crate::specs::Capacities::plain_amount_at))]
    fn read(&self, alloc: Global, value: &Value) -> Result<u64, FileRefusal> {
        match value.as_object() {
            Some(_) => Err(FileRefusal::Unsupported(String::new(alloc))),
            None => Amount.read(alloc, value),
        }
    }
}

/// The capacities of an entry.
struct CapacityObject;

impl Shape for CapacityObject {
    type Out = Res4;

    ghost meaning = { λ _. capacity_at };

    #[tactic(auto, unfolding(crate::specs::Capacities::capacity_at))]
    fn read(&self, alloc: Global, value: &Value) -> Result<Res4, FileRefusal> {
        check_object(alloc, value)?;
        let disk = required(alloc, value, "DISK", &PlainAmount)?;
        let cpu = required(alloc, value, "CPU", &PlainAmount)?;
        let nw_in = required(alloc, value, "NW_IN", &Amount)?;
        let nw_out = required(alloc, value, "NW_OUT", &Amount)?;
        Ok([cpu, nw_in, nw_out, disk])
    }
}

/// An entry whose broker no entry so far has.
#[derive(Drop)]
struct EntryObject<'m> {
    seen: &'m Entries,
}

impl Shape for EntryObject<'_> {
    type Out = (Owner, Res4);

    ghost meaning = { λ s. entry_at s.seen.now.entries };

    ghost Keeps = { λ s e. entry_of s.seen.now.entries e.0 ≡ None };

    #[tactic(auto, unfolding(crate::specs::Capacities::entry_at))]
    fn read(&self, alloc: Global, value: &Value) -> Result<(Owner, Res4), FileRefusal> {
        check_object(alloc, value)?;
        let owner = required(alloc, value, "brokerId", &OwnerText { seen: self.seen })?;
        let cap = required(alloc, value, "capacity", &CapacityObject)?;
        optional(alloc, value, "doc", &Note, ())?;
        Ok((owner, cap))
    }
}

// Puts an entry at the end.
fn push_entry(entries: &mut Entries, owner: Owner, cap: Res4) -> Result<(), FileRefusal>
    requires { entry_of entries.old.entries owner ≡ None }
    ensures ok { OnOk result (entries.new.entries ≡ entries.old.entries ++ (owner, cap) ∷ []) }
    ensures err { IfErr result (λ e. e ≡ FileRefusal.Memory) }
{
    let _ = entries.insert(owner, cap)?;
    Ok(())
}

fn entry_items(alloc: Global, values: &[Value]) -> Result<Entries, FileRefusal>
    ensures { Gives (λ m. m.entries) result (entries_from 0 [] (items_view values.now)) }
{
    let mut entries = IndexMap::new(alloc);
    for (index, value) in values.iter().enumerate() {
        let (owner, cap) = item(alloc, index, value, &EntryObject { seen: &entries })?;
        push_entry(&mut entries, owner, cap)?;
    }
    Ok(entries)
}

fn read_entries(alloc: Global, value: Option<&Value>) -> Result<Option<Entries>, FileRefusal>
    ensures { Gives entries_seen result
        (optional None entries_at (option_map (λ v. view v.now) value.entry)) }
{
    let Some(value) = value else {
        return Ok(None);
    };
    let values = read_list(alloc, value)?;
    let entries = entry_items(alloc, values)?;
    Ok(Some(entries))
}

/// The member `brokerCapacities`.
pub fn entries_in(alloc: Global, object: &Value) -> Result<Option<Entries>, FileRefusal>
    ensures { Gives entries_seen result
        (inside (codes "brokerCapacities") (optional None entries_at) (view object.now)) }
{
    let entries = read_entries(alloc, object.get("brokerCapacities"));
    entries.map_err(|e| in_member(alloc, "brokerCapacities", e))
}

fn entry_for(entries: &Entries, owner: Owner) -> Option<Res4>
    ensures { result ≡ entry_of entries.now.entries owner }
{
    entries.get(&owner).copied()
}

// A broker's own capacities, else those for all.
#[tactic(auto, unfolding(crate::specs::Capacities::cap_of))]
fn cap_of(entries: &Option<Entries>, broker: u32) -> Option<Res4>
    ensures { result ≡ cap_of (entries_seen entries.now) broker }
{
    let Some(entries) = entries else {
        return Some(FULL);
    };
    entry_for(entries, Some(u64::from(broker))).or_else(|| entry_for(entries, None))
}

#[tactic(auto, unfolding(crate::specs::Capacities::equipped))]
fn equipped(entries: &Option<Entries>, broker: FileBroker) -> Result<Broker, FileRefusal>
    ensures { Gives (λ b. b) result (equipped (entries_seen entries.now) broker) }
{
    match cap_of(entries, broker.id) {
        Some(cap) => Ok(Broker {
            id: broker.id,
            rack: broker.rack,
            cap,
            state: broker.state,
        }),
        None => Err(FileRefusal::MissingCapacity(broker.id)),
    }
}

/// The brokers with their capacities, or the first that has none.
pub fn all_equipped(
    alloc: Global,
    entries: &Option<Entries>,
    brokers: Vec<FileBroker>,
) -> Result<Vec<Broker>, FileRefusal>
    ensures { Gives (λ v. v.items) result (all_equipped (entries_seen entries.now) brokers.items) }
{
    let mut whole = Vec::new(alloc);
    for broker in brokers {
        whole.push(equipped(entries, broker)?)?;
    }
    Ok(whole)
}
