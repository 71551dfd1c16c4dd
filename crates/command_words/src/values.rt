// What the value of an option says.
ghost use Rattle.std.specs.Prelude.{◌≡◌, option_map};
ghost use Rattle.command_words.specs.Meaning.{is_given, number_in};

use plan_terms::read_whole;

/// The number that the value is, where it lies in the range; both ends are in it.
pub fn number_in(least: u32, most: u32, value: Option<&str>) -> Option<u32>
    ensures { result ≡ number_in least most (option_map (λ s. s.now) value.entry) }
{
    match read_whole(value?) {
        Some(n) if least as u64 <= n && n <= most as u64 => Some(n as u32),
        _ => None,
    }
}

/// Whether a flag of this value is given.
pub fn is_given(value: Option<&str>) -> bool
    ensures { result ≡ is_given (option_map (λ s. s.now) value.entry) }
{
    match value {
        Some(text) => text == "true",
        None => false,
    }
}
