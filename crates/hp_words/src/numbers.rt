//! Numbers in words.
ghost use Rattle.std.specs.Prelude.{◌≡◌, IfOk, option_map};
ghost use Rattle.std.specs.Char.{is_ascii_digit};
ghost use Rattle.std.specs.List.{list_all};
ghost use Rattle.hp_words.specs.Numbers.{number, number_or, places_in};

use crate::setting::Places;
use hp_text::NoMemory;
use std::alloc::Global;

/// The most digits that a number has.
const MAX_DIGITS: usize = 20;

/// The greatest place that a word lists: 2^32 - 1.
const MAX_PLACE: u32 = 4_294_967_295;

/// Whether each byte is an ASCII digit.
fn is_digits(text: &str) -> bool
    ensures { result ≡ list_all is_ascii_digit text.now }
{
    text.as_bytes().iter().all(|byte| byte.is_ascii_digit())
}

/// The number that 1 to 20 ASCII digits write, where it lies within `low` and `high`.
pub fn number(text: &str, low: u64, high: u64) -> Option<u64>
    ensures { result ≡ number low high text.now }
{
    if text.len() > MAX_DIGITS || !is_digits(text) {
        return None;
    }
    let Ok(number) = text.parse::<u64>() else {
        return None;
    };
    if low <= number && number <= high {
        Some(number)
    } else {
        None
    }
}

/// The same where the number has 32 bits.
pub fn small_number(text: &str, low: u32, high: u32) -> Option<u32>
    ensures { result ≡ number low high text.now }
{
    match number(text, u64::from(low), u64::from(high)) {
        Some(number) => Some(number as u32),
        None => None,
    }
}

/// The number that an option's value writes, or the default where the option isn't there.
pub fn number_or(default: u32, value: Option<&str>, low: u32, high: u32) -> Option<u32>
    ensures { result ≡ number_or default low high (option_map (λ text. text.now) value.entry) }
{
    match value {
        Some(text) => small_number(text, low, high),
        None => Some(default),
    }
}

/// The numbers below 2^32 that stand between single commas. `None` where a piece is no such number.
pub fn places(alloc: Global, text: &str) -> Result<Option<Places>, NoMemory>
    ensures { IfOk result (λ places. places ≡ places_in text.now) }
{
    let mut places = Vec::new(alloc);
    for piece in text.split(',') {
        match number(piece, 0, u64::from(MAX_PLACE)) {
            Some(place) => places.push(place)?,
            None => return Ok(None),
        }
    }
    Ok(Some(Places::new(places)))
}
