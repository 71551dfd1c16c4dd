// Names of racks, topics and goals.
ghost use Rattle.std.specs.Prelude.{◌≡◌, IfOk, string_bytes};

use crate::Memory;
use std::alloc::Global;
use std::fmt;
use std::marker::{Model, PhantomData};

/// A name of one kind: any text, the empty one too. Contracts see the list of its bytes.
#[derive(Drop)]
pub struct Name<K> {
    text: String,
    kind: PhantomData<K>,
}

impl<K> Model for Name<K> {
    ghost use Rattle.std.specs.Prelude.{List, ℕ, string_bytes};

    ghost Value = { List ℕ };

    ghost view = { λ n. string_bytes n.text };
}

impl<K> Name<K> {
    /// The name that this text is.
    pub fn new(text: String) -> Self
        ensures { result ≡ string_bytes text }
    {
        Name {
            text,
            kind: PhantomData,
        }
    }

    /// The text.
    pub fn as_str(&self) -> &str
        ensures { result.now ≡ self.now }
    {
        self.text.as_str()
    }

    /// The same name.
    pub fn copy(&self, alloc: Global) -> Result<Self, Memory>
        ensures { IfOk result (λ n. n ≡ self.now) }
    {
        Ok(Name {
            text: String::from_str(alloc, self.text.as_str())?,
            kind: PhantomData,
        })
    }
}

impl<K> fmt::Debug for Name<K> {
    fn fmt<W: fmt::Write>(&self, f: &mut fmt::Formatter<W>) -> fmt::Result {
        fmt::Debug::fmt(&self.as_str(), f)
    }
}

/// The kind of names of racks.
pub struct OfRack;

/// The kind of names of topics.
pub struct OfTopic;

/// The kind of names of goals.
pub struct OfGoal;

/// The name of a rack.
pub type RackName = Name<OfRack>;

/// The name of a topic.
pub type Topic = Name<OfTopic>;

/// The name of a goal, as a user writes it.
pub type GoalName = Name<OfGoal>;
