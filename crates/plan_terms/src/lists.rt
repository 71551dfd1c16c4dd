// Lists that contracts see as such, replica lists and proposals.
ghost use Rattle.std.specs.Prelude.{◌≡◌, ◌<◌, IfOk, length, slice_set};
ghost use Rattle.plan_terms.specs.Cluster.{has, leads};
ghost use Rattle.plan_terms.specs.Effect.{exchange_at};

use crate::Memory;
use std::alloc::Global;
use std::marker::Model;

/// A list of values.
#[derive(Drop)]
pub struct ListOf<T> {
    items: Vec<T>,
}

impl<T> Model for ListOf<T> {
    ghost use Rattle.std.specs.Prelude.{List};

    ghost Value = { List T };

    ghost view = { λ l. l.items.items };
}

impl<T> ListOf<T> {
    /// The list of these values.
    pub fn new(items: Vec<T>) -> Self
        ensures { result ≡ items.items }
    {
        ListOf { items }
    }

    /// The values, in order.
    pub fn as_slice(&self) -> &[T]
        ensures { result.now ≡ self.now }
    {
        self.items.as_slice()
    }

    /// The values, without a copy.
    pub fn into_vec(self) -> Vec<T>
        ensures { result.items ≡ self }
    {
        self.items
    }
}

/// An ordered list of broker ids. The first member is the leader.
#[derive(Drop)]
pub struct Replicas {
    ids: Vec<u32>,
}

impl Model for Replicas {
    ghost use Rattle.std.specs.Prelude.{List, ℕ};

    ghost Value = { List ℕ };

    ghost view = { λ r. r.ids.items };
}

impl Replicas {
    /// The list of these ids.
    pub fn new(ids: Vec<u32>) -> Self
        ensures { result ≡ ids.items }
    {
        Replicas { ids }
    }

    /// A list of these ids, copied.
    pub fn of(alloc: Global, ids: &[u32]) -> Result<Self, Memory>
        ensures { IfOk result (λ r. r ≡ ids.now) }
    {
        Ok(Replicas {
            ids: Vec::from_slice(alloc, ids)?,
        })
    }

    /// The ids, in order.
    pub fn as_slice(&self) -> &[u32]
        ensures { result.now ≡ self.now }
    {
        self.ids.as_slice()
    }

    /// Puts a broker at one place.
    pub fn put(&mut self, place: usize, broker: u32)
        requires { place < length self.old }
        ensures { self.new ≡ slice_set self.old place broker }
    {
        self.ids[place] = broker;
    }

    /// Exchanges the first member with the one at the place.
    pub fn exchange(&mut self, place: usize)
        requires { place < length self.old }
        ensures { self.new ≡ exchange_at place self.old }
    {
        let first = self.ids[0];
        let member = self.ids[place];
        self.ids[place] = first;
        self.ids[0] = member;
    }

    /// A list of the same ids.
    pub fn copy(&self, alloc: Global) -> Result<Self, Memory>
        ensures { IfOk result (λ r. r ≡ self.now) }
    {
        Replicas::of(alloc, self.ids.as_slice())
    }

    /// The ids, without a copy.
    pub fn into_vec(self) -> Vec<u32>
        ensures { result.items ≡ self }
    {
        self.ids
    }
}

/// Whether the broker is a member of the list.
pub fn has(list: &[u32], broker: u32) -> bool
    ensures { result ≡ has list.now broker }
{
    list.contains(&broker)
}

/// Whether the broker is the first member of the list.
pub fn leads(list: &[u32], broker: u32) -> bool
    ensures { result ≡ leads list.now broker }
{
    match list {
        [] => false,
        [first, ..] => *first == broker,
    }
}

/// The same lists.
pub fn copy_lists(alloc: Global, lists: &[Replicas]) -> Result<Vec<Replicas>, Memory>
    ensures { IfOk result (λ v. v.items ≡ lists.now) }
{
    let mut copies = Vec::new(alloc);
    for list in lists {
        copies.push(list.copy(alloc)?)?;
    }
    Ok(copies)
}

/// A partition whose replica list is to change.
#[derive(Drop)]
pub struct Proposal {
    /// The partition's place in the cluster file, from 0.
    pub part: u32,
    pub before: Replicas,
    pub after: Replicas,
}

impl Proposal {
    /// The same proposal.
    pub fn copy(&self, alloc: Global) -> Result<Proposal, Memory>
        ensures { IfOk result (λ p. p ≡ self.now) }
    {
        Ok(Proposal {
            part: self.part,
            before: self.before.copy(alloc)?,
            after: self.after.copy(alloc)?,
        })
    }
}
