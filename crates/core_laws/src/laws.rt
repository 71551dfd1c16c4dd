// Laws of the core, each the contract of a function that does nothing.
ghost use Rattle.core_laws.specs.Alone.{IdleIsDone, PlannedIsLess, TakenWorkIsOut, WorkedIsLess};
ghost use Rattle.core_laws.specs.Books.{AdminFollows, EntriesGiveOneEach, ProblemsBelong, RoomIsKept};
ghost use Rattle.core_laws.specs.Changes.{ChangedListsCome};
ghost use Rattle.core_laws.specs.Events.{ChangesCanBeLaunched, ClosingWasAsked, EndedWorkIsLess, EventsMoveExecutor, ExecutingIsExact, HistoriesKeepCaps, HistoriesShowLists, OnlyLaunchesRaiseWork, OnlyRequestsMeetExecution, OthersRaiseNone, PlansCanBeLaunched, RefusalsKeepState, StartsKeepCapsInForce, WorkIsThere};
ghost use Rattle.core_laws.specs.Reported.{CopiesAreReported};
ghost use Rattle.core_laws.specs.Laws.{EachEventKeeps, EventsKeepTasks, EventsKeepTickets, EventsKeepValid, HistoriesAreSound, MovesKeepTasks, OpeningHasTasks, OpeningIsSound, PlansMeetNoExecution, SettledListsBelong};

/// What holds of every legal history from the opening of a cluster file, after each event: the
/// executor is valid, its brokers are the file's and so are the members of its lists; at most 16
/// user tasks are open; at most one plan is being made that is to be carried out, and none while a
/// task is unfinished; while one is, just one user task is in execution, and else none; each ticket
/// is out for one job, which is active; and the goals of an active job begin with evacuation.
///
/// Each legal event keeps that from any state of which it holds. The list of a partition is the old
/// one, the new one or, while its task is in flight, both; a task that is completed had each of its
/// copies reported, in their order; requests end only after a Close; and where no event lowered a
/// cap, the caps in force are kept.
pub fn every_history()
    // What holds at the opening and over each event, and so of every history.
    ensures opening { OpeningIsSound }
    ensures keeps { EachEventKeeps }
    ensures histories { HistoriesAreSound }
    // What each event keeps of tasks and tickets.
    ensures opens { OpeningHasTasks }
    ensures moves { MovesKeepTasks }
    ensures events { EventsKeepTasks }
    ensures valid { EventsKeepValid }
    ensures tickets { EventsKeepTickets }
    // What a plan meets, and which lists are settled.
    ensures plans { PlansMeetNoExecution }
    ensures settled { SettledListsBelong }
    // What a history shows of lists, caps, requests and copies.
    ensures lists { HistoriesShowLists }
    ensures caps { HistoriesKeepCaps }
    ensures closing { ClosingWasAsked }
    ensures copies { CopiesAreReported }
{}

/// What one event does, in any such state: a plan that is to be carried out can be launched, and so
/// can a change of the replication factor; nothing else launches, and each event does to the
/// executor what the executor's event of its name does, or nothing. So what it starts keeps the
/// caps in force, and nothing else raises a number of tasks in flight; only a launch raises the
/// work that is left, and the four events that end a lease lower it; where a task is unfinished and
/// no lease is out, there is work; and a refused event changes nothing. Only a request is answered
/// that another is in the way, exactly where a task is unfinished or a plan is made to be carried
/// out.
pub fn every_event()
    // What an event does to the executor.
    ensures launches { PlansCanBeLaunched }
    ensures changes { ChangesCanBeLaunched }
    ensures moves { EventsMoveExecutor }
    // What it starts keeps the caps in force, and nothing else raises a number in flight.
    ensures starts { StartsKeepCapsInForce }
    ensures others { OthersRaiseNone }
    // How the work that is left rises and falls.
    ensures work { OnlyLaunchesRaiseWork }
    ensures less { EndedWorkIsLess }
    ensures there { WorkIsThere }
    // What a refusal keeps, and when a request finds another in the way.
    ensures refusals { RefusalsKeepState }
    ensures requests { OnlyRequestsMeetExecution }
    ensures executing { ExecutingIsExact }
{}

/// What a book rests on: no more leases and tickets were given than its journal has entries; the
/// room that the journal keeps suffices for the entries that end them; with the call that goes with
/// each event the admin's lists stay the state's; and the lists that a planner is given belong to
/// its case.
pub fn every_book()
    ensures given { EntriesGiveOneEach }
    ensures room { RoomIsKept }
    ensures follows { AdminFollows }
    ensures problems { ProblemsBelong }
{}

/// What one who works alone meets: the event that reports work which was just taken takes no memory
/// and isn't stale, and leaves less work; a plan or a failure for the job that was just taken isn't
/// sent back, and one job less waits; and where no lease and no ticket is out, neither a job nor
/// work is to be had only where no task and no job is unfinished.
pub fn every_round()
    ensures out { TakenWorkIsOut }
    ensures worked { WorkedIsLess }
    ensures planned { PlannedIsLess }
    ensures idle { IdleIsDone }
{}

/// What becomes of a request for another replication factor that is taken and is to be carried out:
/// where no copy fails, nobody stops it and no broker dies, the lists are those that it asks for in
/// the first state in which no task is unfinished, and each list of a topic that it names has the
/// length that it asks for.
pub fn every_change()
    ensures { ChangedListsCome }
{}
