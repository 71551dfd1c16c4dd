// Fractions of whole numbers.
ghost use Rattle.std.specs.Prelude.{◌≡◌, ◌≤◌, ◌<◌, ◌^◌, SomeIff, IfSome, length};
ghost use Rattle.std.specs.Option.{option_map, option_and_then};
ghost use Rattle.plan_terms.specs.Digits.{number_of};
ghost use Rattle.plan_terms.specs.Fraction.{Fraction, IsRatio, over, ratio_of, with_decimals};

use crate::digits::read_digits;
use std::marker::Model;

/// A threshold as a fraction. Nothing is reduced or rounded.
#[derive(Clone, Copy)]
pub struct Ratio {
    num: u32,
    den: u32,
}

impl Model for Ratio {
    ghost use Rattle.plan_terms.specs.Fraction.{Fraction, IsRatio};

    ghost Value = { Fraction };

    ghost view = { λ r. record { num = r.num; den = r.den } };

    ghost invariant = { λ r. IsRatio r.num r.den };

    ghost inverse = { λ f. record { num = f.num; den = f.den } };
}

impl Ratio {
    /// The ratio `num / den`, where `den` is 1 to 1,000 and `num` at most 9,999,999.
    pub fn new(num: u32, den: u32) -> Option<Ratio>
        ensures { SomeIff result (IsRatio num den) (record { num = num; den = den }) }
    {
        if num <= 9_999_999 && 1 <= den && den <= 1000 {
            Some(Ratio { num, den })
        } else {
            None
        }
    }

    /// The numerator, at most 9,999,999.
    pub fn num(&self) -> u32
        ensures value { result ≡ self.now.num }
        ensures limit { result ≤ 9999999 }
    {
        self.num
    }

    /// The denominator, 1 to 1,000.
    pub fn den(&self) -> u32
        ensures value { result ≡ self.now.den }
        ensures some { 1 ≤ result }
        ensures limit { result ≤ 1000 }
    {
        self.den
    }

    /// Reads 1 to 4 digits and, where a point follows them, 1 to 3 digits behind it: with k digits
    /// there the denominator is 10^k. Every other text is `None`.
    #[tactic(auto, unfolding(crate::specs::Fraction::ratio_of))]
    pub fn read(text: &str) -> Option<Ratio>
        ensures { result ≡ ratio_of text.now }
    {
        match text.split_once('.') {
            None => whole(text),
            Some((before, behind)) => decimal(before, behind),
        }
    }

    /// How far a load lies above this share of a capacity, times the denominator:
    /// `load * den - num * cap`, or 0 where that is negative.
    pub fn over(&self, load: u128, cap: u128) -> u128
        requires load { load < 2 ^ 100 }
        requires cap { cap < 2 ^ 100 }
        ensures { result ≡ over self.now load cap }
    {
        (load * u128::from(self.den())).saturating_sub(u128::from(self.num()) * cap)
    }
}

fn whole(text: &str) -> Option<Ratio>
    ensures { result ≡ option_map (λ n. with_decimals n 0 0) (number_of 4 text.now) }
{
    let number = read_digits(text, 4)?;
    Some(Ratio {
        num: number as u32,
        den: 1,
    })
}

// 10, 100 or 1,000.
fn denominator(digits: usize) -> u32
    requires some { 1 ≤ digits }
    requires few { digits ≤ 3 }
    ensures value { result ≡ 10 ^ digits }
    ensures low { 1 ≤ result }
    ensures high { result ≤ 1000 }
{
    match digits {
        1 => 10,
        2 => 100,
        _ => 1000,
    }
}

fn decimal(before: &str, behind: &str) -> Option<Ratio>
    ensures { result
        ≡ option_and_then
        (λ n. option_map (with_decimals n (length behind.now)) (number_of 3 behind.now))
        (number_of 4 before.now) }
{
    let number = read_digits(before, 4)? as u32;
    let part = read_digits(behind, 3)? as u32;
    let den = denominator(behind.len());
    Some(Ratio {
        num: number * den + part,
        den,
    })
}
