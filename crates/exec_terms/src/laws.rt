// Laws of the machine in `specs/`, the contract of a function that does nothing.
ghost use Rattle.exec_terms.specs.Runs.{EachEventKeeps, RunsAreValid, EventsLower, NoEventRaises, NoneLeftIsDone, TakeGives, ListsShowPhases, LaunchKeepsLists};
ghost use Rattle.exec_terms.specs.CapLaws.{StartsKeepCaps, OnlyStartsRaise, RunsKeepCaps};
ghost use Rattle.exec_terms.specs.ListLaws.{UnionsAreShort, ListsAreShort, DrainedListsAreSettled, SettledListsAreReplicaLists, OthersKeepLists};

/// What holds of every execution: each event keeps what is valid, so every list of events from a
/// new executor leads to a valid state; the four kinds of event that end a lease lower the work
/// that is left, and only a launch raises it; where none is left no task is unfinished; where a
/// task is unfinished and no lease is out, there is work; the list of a partition with a task is
/// that of the task's phase; and a launch changes no list.
///
/// Of the caps, which may be set at any time: an event that starts a task leaves those in force
/// kept for it, an event that starts none raises no number of tasks in flight, and over events that
/// lower no cap the caps in force are kept throughout.
///
/// Of the lists: each has 1 to 16 members; once no task is in flight each is its partition's
/// settled list, of 1 to 8 distinct members; and a partition without a task keeps its list over
/// every event.
pub fn every_execution()
    // What each event keeps, and so every list of events.
    ensures keeps { EachEventKeeps }
    ensures runs { RunsAreValid }
    // What is left of the work, and that it ends.
    ensures lowers { EventsLower }
    ensures raises { NoEventRaises }
    ensures done { NoneLeftIsDone }
    // What a task that is given starts with.
    ensures gives { TakeGives }
    // Lists and launches.
    ensures lists { ListsShowPhases }
    ensures launches { LaunchKeepsLists }
    // Caps.
    ensures starts_keep_caps { StartsKeepCaps }
    ensures only_starts_raise { OnlyStartsRaise }
    ensures runs_keep_caps { RunsKeepCaps }
    // How long lists are, and which they are.
    ensures unions_are_short { UnionsAreShort }
    ensures lists_are_short { ListsAreShort }
    ensures drained_lists_are_settled { DrainedListsAreSettled }
    ensures settled_lists_are_replica_lists { SettledListsAreReplicaLists }
    ensures others_keep_lists { OthersKeepLists }
{}
