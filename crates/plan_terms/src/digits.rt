// Numbers written in decimal digits.
ghost use Rattle.std.specs.Prelude.{◌≡◌, ◌≤◌, ◌<◌, ◌^◌, true, Some, IfSome, IsSome, length};
ghost use Rattle.std.specs.List.{list_all};
ghost use Rattle.plan_terms.specs.Digits.{is_digit, number_after, number_of, whole_of};

fn are_digits(text: &str) -> bool
    ensures { result ≡ list_all is_digit text.now }
{
    text.as_bytes().iter().all(|b| matches!(*b, b'0'..=b'9'))
}

fn parse(text: &str, most: usize) -> Option<u64>
    requires digits { list_all is_digit text.now ≡ true }
    requires some { 1 ≤ length text.now }
    requires few { length text.now ≤ most }
    requires fits { most ≤ 19 }
    ensures value { result ≡ Some (number_after 0 text.now) }
    ensures small { number_after 0 text.now < 10 ^ most }
{
    text.parse::<u64>().ok()
}

/// The number that a text of 1 to `most` ASCII digits spells. Leading zeros are good; a sign, a
/// blank or no digit is not.
#[tactic(auto, unfolding(crate::specs::Digits::number_of))]
pub fn read_digits(text: &str, most: usize) -> Option<u64>
    requires { most ≤ 19 }
    ensures value { result ≡ number_of most text.now }
    ensures small { IfSome result (λ n. n < 10 ^ most) }
    ensures some { IsSome result → 1 ≤ length text.now }
    ensures few { IsSome result → length text.now ≤ most }
{
    let fits = 1 <= text.len() && text.len() <= most;
    if fits && are_digits(text) {
        parse(text, most)
    } else {
        None
    }
}

/// The whole number, below 10^19, that a text writes in ASCII digits without a leading zero: `0`
/// itself is good; a sign, a blank or no digit is not.
#[tactic(auto, unfolding(crate::specs::Digits::whole_of))]
pub fn read_whole(text: &str) -> Option<u64>
    ensures value { result ≡ whole_of text.now }
{
    let is_long = text.len() > 1;
    if is_long && text.as_bytes()[0] == b'0' {
        None
    } else {
        read_digits(text, 19)
    }
}
