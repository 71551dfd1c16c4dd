// A journal for contracts alone.
ghost use Rattle.std.specs.Prelude.{◌≡◌, ◌++◌, ◌∷◌, ◌+◌, ◌<◌, ◌≤◌, ◌^◌, [], length, OnOk};

use plan_terms::Memory;
use std::alloc::Global;
use std::marker::{Model, PhantomData};

// An event as contracts see it. It has no bytes and owns nothing, whatever its event does. The
// library's `Snapshot` is the same, but goes to no other thread where its type has a parameter.
struct Entry<E> {
    marker: PhantomData<E>,
    ghost event: { E },
}

impl<E> Model for Entry<E> {
    ghost use base.Fml.{ftrue};

    ghost also_owns = { λ _. ftrue };
}

impl<E> Entry<E> {
    fn of(event: &E) -> Entry<E>
        ensures { result.event ≡ event.now }
    {
        let _ = event;
        Entry {
            marker: PhantomData,
        }
    }
}

unsafe impl<E> Send for Entry<E> {}

unsafe impl<E> Sync for Entry<E> {}

impl<E> Drop for Entry<E> {
    fn drop(self) {
        let Self { marker: _ } = self;
    }
}

/// The events that a book took, in order, as contracts see them. An entry takes no memory: what an
/// event meant is in the book's state.
#[derive(Drop)]
pub struct Journal<E> {
    entries: Vec<Entry<E>>,
}

impl<E> Model for Journal<E> {
    ghost use Rattle.std.specs.Prelude.{vec_capacity, map};
    ghost use Rattle.turn_book.specs.Journals.{JournalView};

    ghost Value = { JournalView E };

    ghost view = { λ j. record {
      events = map (λ entry. entry.event) j.entries.items;
      room = vec_capacity j.entries;
    } };
}

impl<E: Drop> Journal<E> {
    /// A journal without entries and without room.
    pub fn new(alloc: Global) -> Journal<E>
        ensures events { result.events ≡ [] }
    {
        Journal {
            entries: Vec::new(alloc),
        }
    }

    /// How many events it has.
    pub fn len(&self) -> u64
        ensures { result ≡ length self.now.events }
    {
        self.entries.len() as u64
    }

    /// Makes room for so many entries more.
    ///
    /// # Errors
    ///
    /// Out of memory.
    pub fn reserve(&mut self, more: usize) -> Result<(), Memory>
        ensures events { self.new.events ≡ self.old.events }
        ensures room { OnOk result (length self.old.events + more ≤ self.new.room) }
        ensures kept { self.old.room ≤ self.new.room }
    {
        self.entries.reserve(more)?;
        Ok(())
    }

    /// Adds an entry for which there is room, and lets the event go.
    pub fn enter(&mut self, event: E)
        requires { length self.old.events < self.old.room }
        ensures events { self.new.events ≡ self.old.events ++ event ∷ [] }
        ensures room { self.new.room ≡ self.old.room }
        ensures short { length self.new.events < 2 ^ 63 }
    {
        self.entries.push_reserved(Entry::of(&event));
    }
}
