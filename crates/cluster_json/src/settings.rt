// The settings of a file, by Cruise Control's names.
ghost use Rattle.std.specs.Prelude.{◌≡◌, ◌≤◌, true, option_map, string_bytes, IfOk, IfSome, Some};
ghost use Rattle.serde_json.specs.View.{view};
ghost use Rattle.cluster_json.specs.Settings.{IsRatioOf, IsRatioSetting, IsWholeOf, IsWholeSetting, hundredths, is_setting, passes, ratio_by, ratio_in, ratio_named, ratio_setting, setting_text, takes_ratio, takes_whole, told, whole_by, whole_named, whole_setting, whole_within};

use plan_terms::{Memory, Ratio, read_whole};
use serde_json::Value;
use std::alloc::Global;

/// Which ratios a setting takes.
#[derive(Clone, Copy, Debug)]
pub enum RatioForm {
    Any,
    /// At least 1.
    FromOne,
    /// At most 1.
    ToOne,
}

/// A setting that is a ratio.
#[derive(Clone, Copy, Debug)]
pub struct RatioSetting {
    form: RatioForm,
    /// In hundredths.
    default: u32,
}

/// A setting that is a whole number.
#[derive(Clone, Copy, Debug)]
pub struct WholeSetting {
    least: u64,
    most: u64,
    default: u64,
}

fn ratio(form: RatioForm, default: u32) -> RatioSetting
    ensures { result ≡ record { form = form; default = default } }
{
    RatioSetting { form, default }
}

fn whole(least: u64, most: u64, default: u64) -> WholeSetting
    ensures { result ≡ record { least = least; most = most; default = default } }
{
    WholeSetting {
        least,
        most,
        default,
    }
}

/// The ratio of this name, where there is one.
#[tactic(auto, unfolding(crate::specs::Settings::ratio_named))]
fn ratio_named(name: &str) -> Option<RatioSetting>
    ensures { result ≡ ratio_named name.now }
{
    Some(match name {
        "cpu.capacity.threshold" => ratio(RatioForm::Any, 80),
        "network.inbound.capacity.threshold" => ratio(RatioForm::Any, 80),
        "network.outbound.capacity.threshold" => ratio(RatioForm::Any, 80),
        "disk.capacity.threshold" => ratio(RatioForm::Any, 80),
        "cpu.balance.threshold" => ratio(RatioForm::FromOne, 110),
        "network.inbound.balance.threshold" => ratio(RatioForm::FromOne, 110),
        "network.outbound.balance.threshold" => ratio(RatioForm::FromOne, 110),
        "disk.balance.threshold" => ratio(RatioForm::FromOne, 110),
        "replica.count.balance.threshold" => ratio(RatioForm::FromOne, 110),
        "leader.replica.count.balance.threshold" => ratio(RatioForm::FromOne, 110),
        "topic.replica.count.balance.threshold" => ratio(RatioForm::FromOne, 300),
        "min.valid.partition.ratio" => ratio(RatioForm::ToOne, 95),
        _ => return None,
    })
}

/// The whole number of this name, where there is one.
#[tactic(auto, unfolding(crate::specs::Settings::whole_named))]
fn whole_named(name: &str) -> Option<WholeSetting>
    ensures { result ≡ whole_named name.now }
{
    Some(match name {
        "max.replicas.per.broker" => whole(0, 1_000_000, 10_000),
        "num.concurrent.partition.movements.per.broker" => whole(1, 10_000, 10),
        "max.num.cluster.movements" => whole(1, 10_000, 1250),
        "num.concurrent.leader.movements" => whole(1, 10_000, 1000),
        "partition.metrics.window.ms" => whole(1, 86_400_000, 300_000),
        "num.partition.metrics.windows" => whole(1, 100, 5),
        "min.samples.per.partition.metrics.window" => whole(1, 65_536, 1),
        "min.valid.windows" => whole(1, 100, 1),
        _ => return None,
    })
}

// Whether the ratio has the form.
fn passes(form: RatioForm, ratio: Ratio) -> bool
    ensures { result ≡ passes form ratio }
{
    match form {
        RatioForm::Any => true,
        RatioForm::FromOne => ratio.den() <= ratio.num(),
        RatioForm::ToOne => ratio.num() <= ratio.den(),
    }
}

fn read_ratio(form: RatioForm, text: &str) -> Option<Ratio>
    ensures value { result ≡ ratio_in form text.now }
    ensures passes { IfSome result (λ r. passes form r ≡ true) }
{
    match Ratio::read(text) {
        Some(ratio) if passes(form, ratio) => Some(ratio),
        _ => None,
    }
}

fn whole_within(least: u64, most: u64, text: &str) -> Option<u64>
    ensures value { result ≡ whole_within least most text.now }
    ensures least { IfSome result (λ n. least ≤ n) }
    ensures most { IfSome result (λ n. n ≤ most) }
{
    match read_whole(text) {
        Some(n) if least <= n && n <= most => Some(n),
        _ => None,
    }
}

fn takes_ratio(setting: Option<RatioSetting>, text: &str) -> bool
    ensures { result ≡ takes_ratio setting text.now }
{
    match setting {
        Some(setting) => read_ratio(setting.form, text).is_some(),
        None => false,
    }
}

fn takes_whole(setting: Option<WholeSetting>, text: &str) -> bool
    ensures { result ≡ takes_whole setting text.now }
{
    match setting {
        Some(setting) => whole_within(setting.least, setting.most, text).is_some(),
        None => false,
    }
}

// A text, or a whole number as its decimal text.
#[tactic(auto, unfolding(crate::specs::Settings::setting_text))]
fn setting_text(alloc: Global, value: &Value) -> Result<Option<String>, Memory>
    ensures { IfOk result (λ text. option_map string_bytes text ≡ setting_text (view value.now)) }
{
    match value {
        Value::String(text) => Ok(Some(String::from_str(alloc, text.as_str())?)),
        Value::Number(number) => match number.as_u64() {
            Some(n) => Ok(Some(format!(in alloc; "{n}")?)),
            None => Ok(None),
        },
        _ => Ok(None),
    }
}

/// Whether there is a setting of this name, and it takes the value.
#[tactic(auto, unfolding(crate::specs::Settings::is_setting))]
pub fn is_setting(alloc: Global, name: &str, value: &Value) -> Result<bool, Memory>
    ensures { IfOk result (λ is. is ≡ is_setting name.now (view value.now)) }
{
    match setting_text(alloc, value)? {
        Some(text) => {
            let text = text.as_str();
            Ok(takes_ratio(ratio_named(name), text) || takes_whole(whole_named(name), text))
        }
        None => Ok(false),
    }
}

// The text of the setting of this name, where the configuration has it.
fn told(alloc: Global, config: Option<&Value>, name: &str) -> Result<Option<String>, Memory>
    ensures { IfOk result
        (λ text. option_map string_bytes text
        ≡ told name.now (option_map (λ v. view v.now) config.entry)) }
{
    let Some(config) = config else {
        return Ok(None);
    };
    match config.get(name) {
        Some(value) => setting_text(alloc, value),
        None => Ok(None),
    }
}

fn hundredths(number: u32) -> Ratio
    requires { number ≤ 1000 }
    ensures { result ≡ hundredths number }
{
    Ratio::new(number, 100).unwrap()
}

fn ratio_of(setting: RatioSetting, text: Option<&str>) -> Ratio
    requires { IsRatioSetting (Some setting) }
    ensures value { result ≡ ratio_by (Some setting) (option_map (λ t. t.now) text.entry) }
    ensures passes { passes setting.form result ≡ true }
{
    let default = hundredths(setting.default);
    match text {
        Some(text) => read_ratio(setting.form, text).unwrap_or(default),
        None => default,
    }
}

fn whole_of(setting: WholeSetting, text: Option<&str>) -> u64
    requires { IsWholeSetting (Some setting) }
    ensures value { result ≡ whole_by (Some setting) (option_map (λ t. t.now) text.entry) }
    ensures least { setting.least ≤ result }
    ensures most { result ≤ setting.most }
{
    match text {
        Some(text) => whole_within(setting.least, setting.most, text).unwrap_or(setting.default),
        None => setting.default,
    }
}

/// What the ratio of this name says, or its default where it is absent.
#[tactic(auto, unfolding(crate::specs::Settings::ratio_setting))]
pub fn ratio_setting(alloc: Global, config: Option<&Value>, name: &str) -> Result<Ratio, Memory>
    requires { IsRatioSetting (ratio_named name.now) }
    ensures value { IfOk result
        (λ r. r ≡ ratio_setting name.now (option_map (λ v. view v.now) config.entry)) }
    ensures taken { IfOk result (IsRatioOf (ratio_named name.now)) }
{
    let Some(setting) = ratio_named(name) else {
        unreachable!()
    };
    let text = told(alloc, config, name)?;
    Ok(ratio_of(setting, text.as_ref().map(|t| t.as_str())))
}

/// What the whole number of this name says, or its default where it is absent.
#[tactic(auto, unfolding(crate::specs::Settings::whole_setting))]
pub fn whole_setting(alloc: Global, config: Option<&Value>, name: &str) -> Result<u64, Memory>
    requires { IsWholeSetting (whole_named name.now) }
    ensures value { IfOk result
        (λ n. n ≡ whole_setting name.now (option_map (λ v. view v.now) config.entry)) }
    ensures taken { IfOk result (IsWholeOf (whole_named name.now)) }
{
    let Some(setting) = whole_named(name) else {
        unreachable!()
    };
    let text = told(alloc, config, name)?;
    Ok(whole_of(setting, text.as_ref().map(|t| t.as_str())))
}
