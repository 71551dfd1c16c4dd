// What is counted of one broker.
ghost use Rattle.std.specs.Prelude.{◌≡◌, ◌<◌, ◌≤◌, ◌+◌, ◌^◌, map};
ghost use Rattle.std.specs.List.{All};
ghost use Rattle.plan_terms.specs.Change.{gains};
ghost use Rattle.cap_ledger.specs.Ledger.{one_if};
ghost use Rattle.cap_ledger.specs.Entries.{entered, left, HasEntryRoom, IsEntryCounted};

use plan_terms::has;

// A broker, and how many tasks in flight add it and remove it.
#[derive(Clone, Copy)]
pub struct Entry {
    pub broker: u32,
    pub adding: u32,
    pub removing: u32,
}

impl Entry {
    // Counts a task.
    fn enter(&mut self, before: &[u32], after: &[u32])
        requires { HasEntryRoom before.now after.now self.old }
        ensures { self.new ≡ entered before.now after.now self.old }
    {
        self.adding += gain(before, after, self.broker);
        self.removing += gain(after, before, self.broker);
    }

    // Counts a task no longer.
    fn leave(&mut self, before: &[u32], after: &[u32])
        requires { IsEntryCounted before.now after.now self.old }
        ensures { self.new ≡ left before.now after.now self.old }
    {
        self.adding -= gain(before, after, self.broker);
        self.removing -= gain(after, before, self.broker);
    }
}

// 1 where the second list adds the broker to the first, else 0.
fn gain(before: &[u32], after: &[u32], broker: u32) -> u32
    ensures { result ≡ one_if (gains before.now after.now broker) }
{
    one_if(has(after, broker) && !has(before, broker))
}

// 1 or 0.
pub fn one_if(yes: bool) -> u32
    ensures { result ≡ one_if yes }
{
    if yes { 1 } else { 0 }
}

// Counts a task in each entry.
pub fn enter_all(entries: &mut Vec<Entry>, before: &[u32], after: &[u32])
    requires { All (HasEntryRoom before.now after.now) entries.old.items }
    ensures { entries.new.items ≡ map (entered before.now after.now) entries.old.items }
{
    for entry in entries.iter_mut() {
        entry.enter(before, after);
    }
}

// Counts a task in no entry any more.
pub fn leave_all(entries: &mut Vec<Entry>, before: &[u32], after: &[u32])
    requires { All (IsEntryCounted before.now after.now) entries.old.items }
    ensures { entries.new.items ≡ map (left before.now after.now) entries.old.items }
{
    for entry in entries.iter_mut() {
        entry.leave(before, after);
    }
}
