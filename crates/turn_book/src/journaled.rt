// A book that keeps a journal of the events that it took.
ghost use Rattle.std.specs.Prelude.{◌≡◌, ◌↔◌, ◌++◌, ◌∷◌, ◌<◌, ◌^◌, [], false, true, ℕ, Bool, List, length, IfOk, IfErr, OnOk, OnErr};
ghost use Rattle.turn_book.specs.Faults.{HasBlamed};

/// A book that takes events, answers each, and keeps a journal of them.
pub trait Journaled {
    /// What the book was opened with.
    type Opening;
    /// What it may be asked.
    type Event;
    /// What it answers.
    type Reply;
    /// Why it doesn't take an event.
    type Fault;

    /// What the book was opened with.
    ghost opening: { Self → Self.Opening };

    /// The events that it took, in order.
    ghost journal: { Self → List Self.Event };

    /// The reply to an event, after an opening and a journal.
    ghost reply_of: { Self.Opening → List Self.Event → Self.Event → Self.Reply };

    /// Whether an event is sure after an opening and a journal: it meets no fault but one of the
    /// outside.
    ghost sure: { Self.Opening → List Self.Event → Self.Event → Bool };

    /// Whether an event may meet a fault of the outside.
    ghost outward: { Self.Event → Bool };

    /// The number of the outside fault that a fault tells, or 0.
    ghost blame_of: { Self.Fault → ℕ };

    /// Whether a fault is want of memory.
    ghost is_want: { Self.Fault → Type 0 };

    /// The number of the last outside fault, or 0.
    ghost blamed: { Self → ℕ };

    /// Whether idle callers may find work after a reply.
    ghost is_stirring: { Self.Reply → Bool };

    /// What a book has become: a relation to what it was, which each event keeps.
    ghost since: { Self → Self → Type 0 };

    /// Takes an event, answers it and adds it to the journal.
    ///
    /// # Errors
    ///
    /// A fault of the outside, or want of memory. The journal is unchanged then, and the event
    /// comes back.
    fn step(&mut self, event: Self::Event) -> Result<Self::Reply, (Self::Fault, Self::Event)>
        // An event that is answered is the journal's last, and the reply is the rule's.
        ensures opening { opening self.new ≡ opening self.old }
        ensures since { since self.old self.new }
        ensures entry { OnOk result (journal self.new ≡ journal self.old ++ event ∷ []) }
        ensures reply { IfOk result
            (λ r. r ≡ reply_of (opening self.old) (journal self.old) event) }
        ensures blameless { OnOk result (blamed self.new ≡ blamed self.old) }
        // On a fault nothing changed.
        ensures unchanged { OnErr result (journal self.new ≡ journal self.old) }
        ensures handed_back { IfErr result (λ e. e.1 ≡ event) }
        // When there may be one: want of memory, or a fault of the outside, which is numbered.
        ensures unsure { IfErr result
            (λ e. blame_of e.0 ≡ 0 → sure (opening self.old) (journal self.old) event ≡ false) }
        ensures want { IfErr result (λ e. (blame_of e.0 ≡ 0) ↔ is_want e.0) }
        ensures outward { IfErr result (λ e. 0 < blame_of e.0 → outward event ≡ true) }
        ensures blame { IfErr result
            (λ e. HasBlamed (blame_of e.0) (blamed self.old) (blamed self.new)) };

    /// Whether idle callers may find work after the reply.
    fn stirs(reply: &Self::Reply) -> bool
        ensures { result ≡ is_stirring reply.now };

    /// The number of the outside fault that the fault tells, or 0.
    fn blame(fault: &Self::Fault) -> u64
        ensures { result ≡ blame_of fault.now };

    /// How many events the journal has.
    fn entries(&self) -> u64
        ensures value { result ≡ length (journal self.now) }
        ensures short { result < 2 ^ 63 };

    /// The number of the last outside fault, or 0.
    fn blame_so_far(&self) -> u64
        ensures { result ≡ blamed self.now };

    /// A book that took no event.
    ghost stays: { (b : Self) → since b b };

    /// A book that took some events and then others.
    ghost goes_on: { (b c d : Self) → since b c → since c d → since b d };
}
