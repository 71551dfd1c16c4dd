// What requests mean.
ghost use Rattle.std.specs.Prelude.{◌≡◌, ◌≤◌, ◌<◌, ◌^◌, ◌⊎◌, false, bytes_eq, codes, option_and_then, option_map, string_bytes, unwrap_or, IfOk, IfSome};
ghost use Rattle.rest_parse.specs.Calls.{IsInRange, UnlessMemory, ask_of, called, cap_at, change_of, detect_call, factor_in, flag_in, has_cap, ids_in, meaning, meaning_at, method_of, missing_name, moment_in, names_at, sample_call, submitted, unless_there};
ghost use Rattle.rest_parse.specs.Parameters.{IsCap, broker_cap, cluster_cap, id_of, leader_cap, steps_of};
ghost use Rattle.rest_parse.specs.Query.{value_at};
ghost use Rattle.user_tasks.specs.Factors.{changes_topics};
ghost use Rattle.uuid.specs.Text.{parsed};

use crate::faulty::bad_name;
use crate::lists::id_list;
use crate::parameters::{cap_of, factor_of, id_of, moment_of, steps_of, truth_of};
use crate::query::{Pair, has_name, read_pairs, split_target, value_of};
use crate::routes::{Endpoint, Routes};
use cluster_json::{FileRefusal, NamedSample, read_named_sample};
use plan_terms::{ListOf, Measured, Memory, Name, Topic, names};
use rest_stream::{Bytes, RawRequest};
use std::alloc::{AllocError, Global};
use std::marker::Model;
use thiserror::Error;
use user_tasks::{Ask, Op, Query};
use uuid::Uuid;

const BROKER_CAP: &str = "concurrent_partition_movements_per_broker";

const CLUSTER_CAP: &str = "max_partition_movements_in_cluster";

const LEADER_CAP: &str = "concurrent_leader_movements";

// How long a broker is lost before that is told, and before it is removed, in milliseconds, where
// the request doesn't say: Cruise Control's `broker.failure.alert.threshold.ms` and
// `broker.failure.self.healing.threshold.ms`.
const ALERT_AGE: u64 = 900_000;

const HEAL_AGE: u64 = 1_800_000;

/// The name of a parameter.
#[derive(Debug, Drop)]
pub struct ParameterName {
    text: String,
}

impl Model for ParameterName {
    ghost use Rattle.std.specs.Prelude.{List, ℕ, string_bytes};

    ghost Value = { List ℕ };

    ghost view = { λ n. string_bytes n.text };
}

impl ParameterName {
    /// The parameter of this name.
    pub fn new(text: String) -> Self
        ensures { result ≡ string_bytes text }
    {
        ParameterName { text }
    }

    /// The name.
    pub fn as_str(&self) -> &str
        ensures { result.now ≡ self.now }
    {
        self.text.as_str()
    }
}

/// What a request asks.
#[derive(Drop)]
pub enum Call {
    /// A plan; with the id of a user task, how far that is.
    Submit(Ask, Option<Uuid>),
    /// To stop the execution, by force or not.
    Stop(bool),
    /// The death of the broker of this id.
    Kill(u32),
    /// A sample of a partition's loads: its topic, its number below 2^31, the time in milliseconds
    /// below 2^53, the loads.
    Sample(Topic, u32, u64, Measured),
    Show(Query),
    /// Rounds of work, 1 to 100,000.
    Pump(u32),
    /// Other caps of movements, each 1 to 10,000: of one broker, of the cluster, of leaders alone.
    /// An absent one stays.
    Caps(Option<u32>, Option<u32>, Option<u32>),
    /// What is to be done about lost brokers and broken goals, at this moment in milliseconds: from
    /// which age on a lost broker is told, and from which, no less, it is removed. All are below
    /// 2^53.
    Detect(u64, u64, u64),
}

/// Why a request means nothing.
#[derive(Debug, Error, Drop)]
pub enum HttpFault {
    /// Nothing has this path.
    #[error("not found")]
    NotFound,
    /// What has this path isn't asked by this method.
    #[error("method not allowed")]
    WrongMethod,
    /// The parameter is unknown to the endpoint, repeated, of another form, or absent where it has
    /// to be there; or a plan's key is no UUID, with the name `User-Task-ID`; or lost brokers are
    /// to be removed sooner than told, with the name `heal_ms`.
    #[error("bad parameter")]
    BadParameter(ParameterName),
    /// The body is no sample.
    #[error("bad body")]
    BadBody,
    /// Want of memory.
    #[error("want of memory")]
    Memory,
}

impl From<AllocError> for HttpFault {
    ghost use Rattle.rest_parse.specs.declared.calls.HttpFault.TheVariants as fault;

    ghost from_gives = { λ _ e. e ≡ fault.Memory };

    fn from(_: AllocError) -> Self {
        HttpFault::Memory
    }
}

impl From<Memory> for HttpFault {
    ghost use Rattle.rest_parse.specs.declared.calls.HttpFault.TheVariants as fault;

    ghost from_gives = { λ _ e. e ≡ fault.Memory };

    fn from(_: Memory) -> Self {
        HttpFault::Memory
    }
}

// A truth value.
fn flag_in(pairs: &[Pair], name: &str, default: bool) -> bool
    ensures { result ≡ flag_in name.now default pairs.now }
{
    match value_of(pairs, name) {
        Some(value) => truth_of(value).unwrap_or(default),
        None => default,
    }
}

// The names in a parameter, none where it isn't given.
fn names_at<K>(alloc: Global, pairs: &[Pair], name: &str) -> Result<ListOf<Name<K>>, AllocError>
    ensures { IfOk result (λ l. l ≡ names_at name.now pairs.now) }
{
    match value_of(pairs, name) {
        Some(value) => Ok(ListOf::new(names(alloc, value)?)),
        None => Ok(ListOf::new(Vec::new(alloc))),
    }
}

// The ids of brokers.
fn ids_in(alloc: Global, pairs: &[Pair]) -> Result<ListOf<u32>, AllocError>
    ensures { IfOk result (λ l. l ≡ ids_in pairs.now) }
{
    let Some(value) = value_of(pairs, "brokerid") else {
        return Ok(ListOf::new(Vec::new(alloc)));
    };
    match id_list(alloc, value)? {
        Some(ids) => Ok(ListOf::new(ids)),
        None => Ok(ListOf::new(Vec::new(alloc))),
    }
}

// What the pairs ask for.
fn ask_of(alloc: Global, op: Op, pairs: &[Pair]) -> Result<Ask, AllocError>
    requires { changes_topics op ≡ false }
    ensures { IfOk result (λ a. a ≡ ask_of op pairs.now) }
{
    Ok(Ask {
        op,
        brokers: ids_in(alloc, pairs)?,
        goals: names_at(alloc, pairs, "goals")?,
        skip: flag_in(pairs, "skip_hard_goal_check", false),
        excluded: names_at(alloc, pairs, "excluded_topics")?,
        dryrun: flag_in(pairs, "dryrun", true),
        topics: ListOf::new(Vec::new(alloc)),
        factor: 0,
    })
}

// The replication factor that is asked for.
fn factor_in(pairs: &[Pair]) -> u32
    ensures value { result ≡ factor_in pairs.now }
    ensures some { 1 ≤ result }
    ensures few { result ≤ 8 }
{
    match value_of(pairs, "replication_factor") {
        Some(value) => factor_of(value).unwrap_or(1),
        None => 1,
    }
}

// The change of the replication factor that the pairs ask for.
fn change_of(alloc: Global, pairs: &[Pair]) -> Result<Ask, AllocError>
    ensures { IfOk result (λ a. a ≡ change_of pairs.now) }
{
    Ok(Ask {
        op: Op::TopicConfiguration,
        brokers: ListOf::new(Vec::new(alloc)),
        goals: ListOf::new(Vec::new(alloc)),
        skip: false,
        excluded: ListOf::new(Vec::new(alloc)),
        dryrun: flag_in(pairs, "dryrun", true),
        topics: names_at(alloc, pairs, "topic")?,
        factor: factor_in(pairs),
    })
}

// A cap of movements, where it is asked for.
fn cap_at(pairs: &[Pair], name: &str) -> Option<u32>
    ensures value { result ≡ cap_at name.now pairs.now }
    ensures cap { IfSome result IsCap }
{
    cap_of(value_of(pairs, name)?)
}

// Whether a cap of movements is asked for.
fn has_cap(pairs: &[Pair]) -> bool
    ensures { result ≡ has_cap pairs.now }
{
    has_name(pairs, BROKER_CAP) || has_name(pairs, CLUSTER_CAP) || has_name(pairs, LEADER_CAP)
}

// The name, where no pair has it.
fn unless_there(pairs: &[Pair], name: &'static str) -> Option<&'static str>
    ensures { option_map (λ s. s.now) result ≡ unless_there name.now pairs.now }
{
    if has_name(pairs, name) {
        None
    } else {
        Some(name)
    }
}

// The name that has to be there and isn't.
fn missing_name(endpoint: Endpoint, pairs: &[Pair]) -> Option<&'static str>
    ensures { option_map (λ s. s.now) result ≡ missing_name endpoint pairs.now }
{
    match endpoint {
        Endpoint::AddBroker | Endpoint::RemoveBroker | Endpoint::DemoteBroker => {
            unless_there(pairs, "brokerid")
        }
        Endpoint::Kill => unless_there(pairs, "broker"),
        Endpoint::Detect => unless_there(pairs, "now"),
        Endpoint::TopicConfiguration if !has_name(pairs, "topic") => Some("topic"),
        Endpoint::TopicConfiguration => unless_there(pairs, "replication_factor"),
        Endpoint::Admin if !has_cap(pairs) => Some(BROKER_CAP),
        _ => None,
    }
}

/// The fault of a parameter.
pub fn bad_parameter(alloc: Global, name: &str) -> HttpFault
    ensures { (result ≡ HttpFault.Memory) ⊎ (result ≡ HttpFault.BadParameter name.now) }
{
    match String::from_str(alloc, name) {
        Ok(text) => HttpFault::BadParameter(ParameterName { text }),
        Err(_) => HttpFault::Memory,
    }
}

// The id that a key is.
fn key_id(key: &[u8]) -> Option<Uuid>
    ensures { result ≡ parsed key.now }
{
    match Uuid::try_parse_ascii(key) {
        Ok(id) => Some(id),
        Err(_) => None,
    }
}

// The user task that a key names, and what is asked.
fn submitted(alloc: Global, ask: Ask, key: Option<&Bytes>) -> Result<Call, HttpFault>
    ensures is { UnlessMemory result (submitted ask (option_map (λ k. k.now) key.entry)) }
    ensures range { IfOk result IsInRange }
{
    let Some(key) = key else {
        return Ok(Call::Submit(ask, None));
    };
    match key_id(key.as_slice()) {
        Some(id) => Ok(Call::Submit(ask, Some(id))),
        None => Err(bad_parameter(alloc, "User-Task-ID")),
    }
}

// A request for a plan.
fn plan_call(alloc: Global, op: Op, pairs: &[Pair], raw: &RawRequest) -> Result<Call, HttpFault>
    requires { changes_topics op ≡ false }
    ensures is { UnlessMemory result (submitted (ask_of op pairs.now) raw.now.key) }
    ensures range { IfOk result IsInRange }
{
    let ask = ask_of(alloc, op, pairs)?;
    submitted(alloc, ask, raw.key.as_ref())
}

// A request for another replication factor.
fn change_call(alloc: Global, pairs: &[Pair], raw: &RawRequest) -> Result<Call, HttpFault>
    ensures is { UnlessMemory result (submitted (change_of pairs.now) raw.now.key) }
    ensures range { IfOk result IsInRange }
{
    let ask = change_of(alloc, pairs)?;
    submitted(alloc, ask, raw.key.as_ref())
}

// A moment or an age.
fn moment_in(pairs: &[Pair], name: &str, default: u64) -> u64
    requires { default < 2 ^ 53 }
    ensures value { result ≡ moment_in name.now default pairs.now }
    ensures range { result < 2 ^ 53 }
{
    match value_of(pairs, name) {
        Some(value) => moment_of(value).unwrap_or(default),
        None => default,
    }
}

// What is to be done about lost brokers and broken goals.
fn detect_call(alloc: Global, pairs: &[Pair]) -> Result<Call, HttpFault>
    ensures is { UnlessMemory result (detect_call pairs.now) }
    ensures range { IfOk result IsInRange }
{
    let now = moment_in(pairs, "now", 0);
    let alert = moment_in(pairs, "alert_ms", ALERT_AGE);
    let heal = moment_in(pairs, "heal_ms", HEAL_AGE);
    if heal < alert {
        return Err(bad_parameter(alloc, "heal_ms"));
    }
    Ok(Call::Detect(now, alert, heal))
}

// A sample.
fn sample_call(alloc: Global, body: &[u8]) -> Result<Call, HttpFault>
    ensures is { UnlessMemory result (sample_call body.now) }
    ensures range { IfOk result IsInRange }
{
    match read_named_sample(alloc, body) {
        Ok(
            NamedSample {
                topic,
                number,
                time,
                loads,
            },
        ) => Ok(Call::Sample(topic, number, time, loads)),
        Err(FileRefusal::Memory) => Err(HttpFault::Memory),
        Err(_) => Err(HttpFault::BadBody),
    }
}

// How many steps.
fn steps_in(pairs: &[Pair]) -> u32
    ensures value { result
        ≡ unwrap_or (option_and_then steps_of (value_at (codes "steps") pairs.now)) 1 }
    ensures least { 1 ≤ result }
    ensures most { result ≤ 100000 }
{
    match value_of(pairs, "steps") {
        Some(value) => steps_of(value).unwrap_or(1),
        None => 1,
    }
}

// Which broker.
fn broker_in(pairs: &[Pair]) -> u32
    ensures { result ≡ unwrap_or (option_and_then id_of (value_at (codes "broker") pairs.now)) 0 }
{
    match value_of(pairs, "broker") {
        Some(value) => id_of(value).unwrap_or(0),
        None => 0,
    }
}

// Other caps of movements.
fn caps_call(pairs: &[Pair]) -> Call
    ensures is { result
        ≡ Call.Caps (cap_at broker_cap pairs.now) (cap_at cluster_cap pairs.now)
        (cap_at leader_cap pairs.now) }
    ensures range { IsInRange result }
{
    Call::Caps(
        cap_at(pairs, BROKER_CAP),
        cap_at(pairs, CLUSTER_CAP),
        cap_at(pairs, LEADER_CAP),
    )
}

// What an endpoint is asked by pairs that are in order.
fn called(
    alloc: Global,
    endpoint: Endpoint,
    pairs: &[Pair],
    raw: &RawRequest,
) -> Result<Call, HttpFault>
    ensures is { UnlessMemory result (called endpoint pairs.now raw.now) }
    ensures range { IfOk result IsInRange }
{
    match endpoint {
        Endpoint::State => Ok(Call::Show(Query::State)),
        Endpoint::Load => Ok(Call::Show(Query::Load)),
        Endpoint::ClusterState => Ok(Call::Show(Query::ClusterState)),
        Endpoint::UserTasks => Ok(Call::Show(Query::UserTasks)),
        Endpoint::Proposals => plan_call(alloc, Op::Proposals, pairs, raw),
        Endpoint::Rebalance => plan_call(alloc, Op::Rebalance, pairs, raw),
        Endpoint::AddBroker => plan_call(alloc, Op::AddBroker, pairs, raw),
        Endpoint::RemoveBroker => plan_call(alloc, Op::RemoveBroker, pairs, raw),
        Endpoint::DemoteBroker => plan_call(alloc, Op::DemoteBroker, pairs, raw),
        Endpoint::TopicConfiguration => change_call(alloc, pairs, raw),
        Endpoint::Detect => detect_call(alloc, pairs),
        Endpoint::StopExecution => Ok(Call::Stop(flag_in(pairs, "force_stop", false))),
        Endpoint::Admin => Ok(caps_call(pairs)),
        Endpoint::Pump => Ok(Call::Pump(steps_in(pairs))),
        Endpoint::Kill => Ok(Call::Kill(broker_in(pairs))),
        Endpoint::Sample => sample_call(alloc, raw.body.as_slice()),
    }
}

// What an endpoint is asked.
fn meaning_at(
    alloc: Global,
    endpoint: Endpoint,
    pairs: &[Pair],
    raw: &RawRequest,
) -> Result<Call, HttpFault>
    ensures is { UnlessMemory result (meaning_at endpoint pairs.now raw.now) }
    ensures range { IfOk result IsInRange }
{
    if let Some(name) = bad_name(alloc, endpoint, pairs)? {
        return Err(bad_parameter(alloc, name));
    }
    if let Some(name) = missing_name(endpoint, pairs) {
        return Err(bad_parameter(alloc, name));
    }
    called(alloc, endpoint, pairs, raw)
}

// Whether the endpoint is asked by this method.
fn is_method(endpoint: Endpoint, method: &[u8]) -> bool
    ensures { result ≡ bytes_eq method.now (method_of endpoint) }
{
    if endpoint.is_read() {
        method == b"GET".as_slice()
    } else {
        method == b"POST".as_slice()
    }
}

impl Routes {
    /// The call that a request means, or its first fault: the path, the method, the parameters in
    /// the order in which they stand, a parameter that is missing, and last a plan's key or a
    /// sample's body.
    #[tactic(auto, unfolding(crate::specs::Calls::meaning))]
    pub fn request_of(&self, alloc: Global, raw: &RawRequest) -> Result<Call, HttpFault>
        ensures is { UnlessMemory result (meaning raw.now) }
        ensures range { IfOk result IsInRange }
    {
        let (path, query) = split_target(raw.target.as_slice());
        let Some(endpoint) = self.endpoint_at(path) else {
            return Err(HttpFault::NotFound);
        };
        if !is_method(endpoint, raw.method.as_slice()) {
            return Err(HttpFault::WrongMethod);
        }
        let pairs = read_pairs(alloc, query)?;
        meaning_at(alloc, endpoint, &pairs, raw)
    }
}

/// The call that a request means, or its first fault, over routes that are made for it alone.
pub fn request_of(alloc: Global, raw: &RawRequest) -> Result<Call, HttpFault>
    ensures is { UnlessMemory result (meaning raw.now) }
    ensures range { IfOk result IsInRange }
{
    let routes = Routes::new(alloc)?;
    routes.request_of(alloc, raw)
}
