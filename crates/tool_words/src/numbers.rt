//! Operands that are numbers.

ghost use Rattle.std.specs.Prelude.{◌≡◌, ◌<◌, ◌^◌};
ghost use Rattle.tool_words.specs.Numbers.{number_between};

use itoa::Buffer;

/// The number that a text spells in decimal, without sign and leading zeros; None where it spells
/// none, or one that does not lie between `low` and `high`.
pub(crate) fn read_number(text: &str, low: u32, high: u32) -> Option<u32>
    ensures { result ≡ number_between low high text.now }
{
    match text.parse::<u32>() {
        Ok(number) => {
            let mut buffer = Buffer::new();
            let is_spelled = text == buffer.format(number);
            if is_spelled && low <= number && number <= high {
                Some(number)
            } else {
                None
            }
        }
        Err(_) => None,
    }
}
