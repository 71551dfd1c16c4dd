// Lists of goals, and how they are read from names.
ghost use Rattle.std.specs.Prelude.{◌≡◌, ◌≢◌, ◌++◌, ◌∷◌, [], IfOk, IfErr, OnOk, Some, None, bytes_eq, find, map, option_map};
ghost use Rattle.goal_set.specs.Kinds.{name_of};
ghost use Rattle.goal_set.specs.Read.{among, first_again, first_missing, first_unknown, goes_by, is_as_hard, is_built_in, is_missing, kept_kind, kind_called, kind_named, kinds_named, listed, names_fault, read_fault, read_kinds};
ghost use Rattle.goal_set.specs.declared.kinds.GoalKind.TheVariants as kind;

use crate::kinds::{DEFAULT_GOALS, DefaultGoal, GoalKind};
use plan_terms::{GoalName, Memory};
use std::alloc::{AllocError, AllocFailed, Global};
use std::marker::Model;

/// Why names make no list of goals.
#[derive(Debug, Drop)]
pub enum GoalFault {
    /// The first name that is no goal's.
    UnknownGoal(GoalName),
    /// The first name that stands again.
    RepeatedGoal(GoalName),
    /// The name of the first hard goal that is not named.
    MissingHardGoal(GoalName),
    /// Want of memory.
    Memory,
}

impl From<AllocError> for GoalFault {
    ghost use Rattle.goal_set.specs.declared.list.GoalFault.TheVariants as fault;

    ghost from_gives = { λ _ e. e ≡ fault.Memory };

    fn from(_: AllocError) -> Self {
        GoalFault::Memory
    }
}

impl<T: Drop> From<AllocFailed<T>> for GoalFault {
    ghost use Rattle.goal_set.specs.declared.list.GoalFault.TheVariants as fault;

    ghost from_gives = { λ _ e. e ≡ fault.Memory };

    fn from(_: AllocFailed<T>) -> Self {
        GoalFault::Memory
    }
}

impl From<Memory> for GoalFault {
    ghost use Rattle.goal_set.specs.declared.list.GoalFault.TheVariants as fault;

    ghost from_gives = { λ _ e. e ≡ fault.Memory };

    fn from(_: Memory) -> Self {
        GoalFault::Memory
    }
}

/// The goals of a plan, in the order of their turns.
#[derive(Drop)]
pub struct GoalList {
    kinds: Vec<GoalKind>,
}

impl Model for GoalList {
    ghost use Rattle.std.specs.Prelude.{List};
    ghost use Rattle.goal_set.specs.declared.kinds.GoalKind.{GoalKind};

    ghost Value = { List GoalKind };

    ghost view = { λ l. l.kinds.items };
}

// The kinds of some goals.
fn kinds_of(alloc: Global, goals: &[DefaultGoal]) -> Result<Vec<GoalKind>, Memory>
    ensures { IfOk result (λ v. v.items ≡ map (λ g. g.kind) goals.now) }
{
    Ok(goals.iter().map(|goal| goal.kind).collect(alloc)?)
}

// The first of the goals that has a name.
fn first_called(goals: &[DefaultGoal], name: &str) -> Option<GoalKind>
    ensures { result ≡ find (λ k. bytes_eq name.now (name_of k)) (map (λ g. g.kind) goals.now) }
{
    goals
        .iter()
        .map(|goal| goal.kind)
        .find(|kind| name == kind.name())
}

impl GoalKind {
    /// The goal that has this name: one that a user may name, or one that each list of goals has.
    #[tactic(auto, unfolding(crate::specs::Read::kind_called))]
    pub fn of_name(name: &str) -> Option<GoalKind>
        ensures { result ≡ kind_called name.now }
    {
        first_called(&DEFAULT_GOALS, name)
    }
}

fn is_built_in(kind: GoalKind) -> bool
    ensures { result ≡ is_built_in kind }
{
    matches!(kind, GoalKind::Evacuation | GoalKind::Demotion)
}

#[tactic(auto, unfolding(crate::specs::Read::goes_by))]
fn goes_by(name: &str, kind: GoalKind) -> bool
    ensures { result ≡ goes_by name.now kind }
{
    !is_built_in(kind) && name == kind.name()
}

// The first of the goals that goes by a name.
fn first_by_name(goals: &[DefaultGoal], name: &str) -> Option<GoalKind>
    ensures { result ≡ find (goes_by name.now) (map (λ g. g.kind) goals.now) }
{
    goals
        .iter()
        .map(|goal| goal.kind)
        .find(|kind| goes_by(name, *kind))
}

// The goal of a name.
#[tactic(auto, unfolding(crate::specs::Read::kind_named))]
fn kind_named(name: &str) -> Option<GoalKind>
    ensures { result ≡ kind_named name.now }
{
    first_by_name(&DEFAULT_GOALS, name)
}

fn is_among(names: &[GoalName], name: &str) -> bool
    ensures { result ≡ among names.now name.now }
{
    names.iter().any(|n| name == n.as_str())
}

// The first name that is no goal's.
#[tactic(auto, unfolding(crate::specs::Read::first_unknown))]
fn first_unknown(names: &[GoalName]) -> Option<&GoalName>
    ensures { option_map (λ n. n.now) result ≡ first_unknown names.now }
{
    names
        .iter()
        .find(|name| kind_named(name.as_str()).is_none())
}

// The first name that is among those before it.
fn first_again(names: &[GoalName]) -> Option<&GoalName>
    ensures { option_map (λ n. n.now) result ≡ first_again [] names.now }
{
    for (i, name) in names.iter().enumerate() {
        if is_among(&names[..i], name.as_str()) {
            return Some(name);
        }
    }
    None
}

#[tactic(auto, unfolding(crate::specs::Read::is_missing))]
fn is_missing(names: &[GoalName], kind: GoalKind) -> bool
    ensures { result ≡ is_missing names.now kind }
{
    kind.is_hard() && !is_built_in(kind) && !is_among(names, kind.name())
}

// The first of the goals that is missing.
fn first_missing_of(goals: &[DefaultGoal], names: &[GoalName]) -> Option<GoalKind>
    ensures { result ≡ find (is_missing names.now) (map (λ g. g.kind) goals.now) }
{
    goals
        .iter()
        .map(|goal| goal.kind)
        .find(|kind| is_missing(names, *kind))
}

// The first hard goal of the default list that is to be named, and is not.
#[tactic(auto, unfolding(crate::specs::Read::first_missing))]
fn first_missing(names: &[GoalName]) -> Option<GoalKind>
    ensures { result ≡ first_missing names.now }
{
    first_missing_of(&DEFAULT_GOALS, names)
}

// The name of a goal, as it is named in a request.
fn goal_name(alloc: Global, kind: GoalKind) -> Result<GoalName, Memory>
    ensures { IfOk result (λ n. n ≡ name_of kind) }
{
    Ok(GoalName::new(String::from_str(alloc, kind.name())?))
}

#[tactic(auto, unfolding(crate::specs::Read::names_fault))]
fn check_names(alloc: Global, names: &[GoalName], skip: bool) -> Result<(), GoalFault>
    ensures ok { OnOk result (names_fault names.now skip ≡ None) }
    ensures fault { IfErr result (λ e. e ≢ GoalFault.Memory → names_fault names.now skip ≡ Some e) }
{
    if let Some(name) = first_unknown(names) {
        return Err(GoalFault::UnknownGoal(name.copy(alloc)?));
    }
    if let Some(name) = first_again(names) {
        return Err(GoalFault::RepeatedGoal(name.copy(alloc)?));
    }
    if skip {
        return Ok(());
    }
    match first_missing(names) {
        Some(kind) => Err(GoalFault::MissingHardGoal(goal_name(alloc, kind)?)),
        None => Ok(()),
    }
}

fn is_as_hard(hard: bool, kind: GoalKind) -> bool
    ensures { result ≡ is_as_hard hard kind }
{
    kind.is_hard() == hard
}

// Puts a kind at the end if there is one and it is as hard as this.
fn push_kind(kinds: &mut Vec<GoalKind>, kind: Option<GoalKind>, hard: bool) -> Result<(), Memory>
    ensures { OnOk result (kinds.new.items ≡ kinds.old.items ++ kept_kind hard kind) }
{
    match kind {
        Some(kind) if is_as_hard(hard, kind) => kinds.push(kind)?,
        _ => {}
    }
    Ok(())
}

// Puts the hard goals that are named at the end, or the soft ones.
fn push_named(kinds: &mut Vec<GoalKind>, names: &[GoalName], hard: bool) -> Result<(), Memory>
    ensures { OnOk result (kinds.new.items ≡ kinds.old.items ++ kinds_named hard names.now) }
{
    for name in names {
        push_kind(kinds, kind_named(name.as_str()), hard)?;
    }
    Ok(())
}

// The goals of some names, in the order of their turns.
fn listed(alloc: Global, names: &[GoalName]) -> Result<Vec<GoalKind>, Memory>
    ensures { IfOk result (λ v. v.items ≡ listed names.now) }
{
    let mut kinds = Vec::new(alloc);
    kinds.push(GoalKind::Evacuation)?;
    push_named(&mut kinds, names, true)?;
    kinds.push(GoalKind::Demotion)?;
    push_named(&mut kinds, names, false)?;
    Ok(kinds)
}

impl GoalList {
    /// The goals of these names: evacuation, the hard ones as they are named, demotion, the soft
    /// ones as they are named. No names stand for all goals. Else the first fault: a name that is
    /// no goal's, or one of a goal that each list has anyway; then a name that stands again; then,
    /// unless `skip`, a hard goal that is not named.
    pub fn read(alloc: Global, names: &[GoalName], skip: bool) -> Result<GoalList, GoalFault>
        ensures ok { IfOk result (λ l. l ≡ read_kinds names.now) }
        ensures faultless { OnOk result (read_fault names.now skip ≡ None) }
        ensures fault { IfErr result
            (λ e. e ≢ GoalFault.Memory → read_fault names.now skip ≡ Some e) }
    {
        if names.is_empty() {
            return Ok(GoalList {
                kinds: kinds_of(alloc, &DEFAULT_GOALS)?,
            });
        }
        check_names(alloc, names, skip)?;
        Ok(GoalList {
            kinds: listed(alloc, names)?,
        })
    }

    /// The goals of a request that only moves leaders off brokers that are not to lead.
    pub fn demoting(alloc: Global) -> Result<GoalList, Memory>
        ensures { IfOk result (λ l. l ≡ kind.Evacuation ∷ kind.Demotion ∷ []) }
    {
        let kinds = vec![in alloc; GoalKind::Evacuation, GoalKind::Demotion]?;
        Ok(GoalList { kinds })
    }

    /// The goals, in order.
    pub fn kinds(&self) -> &[GoalKind]
        ensures { result.now ≡ self.now }
    {
        self.kinds.as_slice()
    }

    /// The same goals.
    pub fn copy(&self, alloc: Global) -> Result<GoalList, Memory>
        ensures { IfOk result (λ l. l ≡ self.now) }
    {
        let kinds = Vec::from_slice(alloc, self.kinds())?;
        Ok(GoalList { kinds })
    }
}
