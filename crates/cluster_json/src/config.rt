// The configuration of a file.
ghost use Rattle.std.specs.Prelude.{◌≡◌, ◌≤◌, codes, map, option_map, IfOk};
ghost use Rattle.serde_json.specs.View.{view, members_view};
ghost use Rattle.cluster_json.specs.Config.{balances_of, caps_of, checked, config_at, config_of, limits_of, options_of, rules_of, settings_at, settings_of, valid_ratio_of};
ghost use Rattle.cluster_json.specs.Ranges.{AreCaps, AreRules, IsShare};
ghost use Rattle.cluster_json.specs.Reading.{Gives};
ghost use Rattle.cluster_json.specs.Shapes.{inside};

use crate::FileRefusal;
use crate::refusal::{in_member, wrong_shape};
use crate::settings::{is_setting, ratio_setting, whole_setting};
use plan_terms::{Caps, Memory, MinLeadersList, Options, Ratio, WindowRules};
use serde_json::{Map, Value};
use std::alloc::Global;

/// What a file's configuration says.
#[derive(Drop)]
pub struct Config {
    pub options: Options,
    pub caps: Caps,
    pub rules: WindowRules,
    /// The share of partitions that have to have a load, at most 1.
    pub ratio: Ratio,
}

#[tactic(auto, unfolding(crate::specs::Settings::ratio_named))]
fn limits_of(alloc: Global, config: Option<&Value>) -> Result<[Ratio; 4], Memory>
    ensures { IfOk result (λ r. r ≡ limits_of (option_map (λ v. view v.now) config.entry)) }
{
    Ok([
        ratio_setting(alloc, config, "cpu.capacity.threshold")?,
        ratio_setting(alloc, config, "network.inbound.capacity.threshold")?,
        ratio_setting(alloc, config, "network.outbound.capacity.threshold")?,
        ratio_setting(alloc, config, "disk.capacity.threshold")?,
    ])
}

#[tactic(auto, unfolding(crate::specs::Settings::ratio_named))]
fn balances_of(alloc: Global, config: Option<&Value>) -> Result<[Ratio; 4], Memory>
    ensures { IfOk result (λ r. r ≡ balances_of (option_map (λ v. view v.now) config.entry)) }
{
    Ok([
        ratio_setting(alloc, config, "cpu.balance.threshold")?,
        ratio_setting(alloc, config, "network.inbound.balance.threshold")?,
        ratio_setting(alloc, config, "network.outbound.balance.threshold")?,
        ratio_setting(alloc, config, "disk.balance.threshold")?,
    ])
}

#[tactic(auto, unfolding(crate::specs::Config::options_of, crate::specs::Settings::ratio_named, crate::specs::Settings::whole_named))]
fn options_of(alloc: Global, config: Option<&Value>) -> Result<Options, Memory>
    ensures { IfOk result (λ o. o ≡ options_of (option_map (λ v. view v.now) config.entry)) }
{
    let most = whole_setting(alloc, config, "max.replicas.per.broker")?;
    Ok(Options {
        limit: limits_of(alloc, config)?,
        balance: balances_of(alloc, config)?,
        replica_balance: ratio_setting(alloc, config, "replica.count.balance.threshold")?,
        leader_balance: ratio_setting(alloc, config, "leader.replica.count.balance.threshold")?,
        topic_balance: ratio_setting(alloc, config, "topic.replica.count.balance.threshold")?,
        max_replicas: most as u32,
        leads_only: false,
        min_leaders: MinLeadersList::new(Vec::new(alloc)),
    })
}

#[tactic(auto, unfolding(crate::specs::Config::caps_of, crate::specs::Settings::whole_named))]
fn caps_of(alloc: Global, config: Option<&Value>) -> Result<Caps, Memory>
    ensures value { IfOk result
        (λ caps. caps ≡ caps_of (option_map (λ v. view v.now) config.entry)) }
    ensures caps { IfOk result AreCaps }
{
    let broker = whole_setting(
        alloc,
        config,
        "num.concurrent.partition.movements.per.broker",
    )? as u32;
    let cluster = whole_setting(alloc, config, "max.num.cluster.movements")? as u32;
    let leader = whole_setting(alloc, config, "num.concurrent.leader.movements")? as u32;
    Ok(Caps {
        broker,
        cluster,
        leader,
    })
}

#[tactic(auto, unfolding(crate::specs::Config::rules_of, crate::specs::Settings::whole_named))]
fn rules_of(alloc: Global, config: Option<&Value>) -> Result<WindowRules, Memory>
    ensures value { IfOk result
        (λ rules. rules ≡ rules_of (option_map (λ v. view v.now) config.entry)) }
    ensures rules { IfOk result AreRules }
{
    let width = whole_setting(alloc, config, "partition.metrics.window.ms")?;
    let keep = whole_setting(alloc, config, "num.partition.metrics.windows")?;
    let least = whole_setting(alloc, config, "min.samples.per.partition.metrics.window")?;
    let need = whole_setting(alloc, config, "min.valid.windows")?;
    Ok(WindowRules {
        width,
        keep,
        least: least as u32,
        need,
    })
}

#[tactic(auto, unfolding(crate::specs::Config::valid_ratio_of, crate::specs::Settings::ratio_named))]
fn valid_ratio_of(alloc: Global, config: Option<&Value>) -> Result<Ratio, Memory>
    ensures value { IfOk result
        (λ r. r ≡ valid_ratio_of (option_map (λ v. view v.now) config.entry)) }
    ensures share { IfOk result IsShare }
{
    ratio_setting(alloc, config, "min.valid.partition.ratio")
}

#[tactic(auto, unfolding(crate::specs::Config::config_of))]
fn config_of(alloc: Global, config: Option<&Value>) -> Result<Config, Memory>
    ensures value { IfOk result (λ c. c ≡ config_of (option_map (λ v. view v.now) config.entry)) }
    ensures caps { IfOk result (λ c. AreCaps c.caps) }
    ensures rules { IfOk result (λ c. AreRules c.rules) }
    ensures share { IfOk result (λ c. IsShare c.ratio) }
{
    let options = options_of(alloc, config)?;
    let caps = caps_of(alloc, config)?;
    let rules = rules_of(alloc, config)?;
    let ratio = valid_ratio_of(alloc, config)?;
    Ok(Config {
        options,
        caps,
        rules,
        ratio,
    })
}

// Each member is a setting.
fn check_members(alloc: Global, members: &Map<String, Value>) -> Result<(), FileRefusal>
    ensures { Gives (λ u. u) result (settings_of (members_view members.now.entries)) }
{
    for (name, value) in members {
        if !is_setting(alloc, name.as_str(), value)? {
            return Err(FileRefusal::BadConfig(String::from_str(alloc, name.as_str())?));
        }
    }
    Ok(())
}

#[tactic(auto, unfolding(crate::specs::Config::settings_at))]
fn check_settings(alloc: Global, value: &Value) -> Result<(), FileRefusal>
    ensures { Gives (λ u. u) result (settings_at (view value.now)) }
{
    match value.as_object() {
        Some(members) => check_members(alloc, members),
        None => Err(wrong_shape(alloc)),
    }
}

fn check_config(alloc: Global, config: Option<&Value>) -> Result<(), FileRefusal>
    ensures { Gives (λ u. u) result (checked (option_map (λ v. view v.now) config.entry)) }
{
    match config {
        Some(value) => check_settings(alloc, value),
        None => Ok(()),
    }
}

#[tactic(auto, unfolding(crate::specs::Config::config_at))]
fn read_config(alloc: Global, config: Option<&Value>) -> Result<Config, FileRefusal>
    ensures means { Gives (λ c. c) result (config_at (option_map (λ v. view v.now) config.entry)) }
    ensures caps { IfOk result (λ c. AreCaps c.caps) }
    ensures rules { IfOk result (λ c. AreRules c.rules) }
    ensures share { IfOk result (λ c. IsShare c.ratio) }
{
    check_config(alloc, config)?;
    Ok(config_of(alloc, config)?)
}

/// The member `config`.
pub fn config_in(alloc: Global, object: &Value) -> Result<Config, FileRefusal>
    ensures means { Gives (λ c. c) result (inside (codes "config") config_at (view object.now)) }
    ensures caps { IfOk result (λ c. AreCaps c.caps) }
    ensures rules { IfOk result (λ c. AreRules c.rules) }
    ensures share { IfOk result (λ c. IsShare c.ratio) }
{
    read_config(alloc, object.get("config")).map_err(|e| in_member(alloc, "config", e))
}
