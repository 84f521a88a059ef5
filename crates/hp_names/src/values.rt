//! The code point of a numeric character reference.
ghost use Rattle.std.specs.Prelude.{◌≡◌, ℕ, ◌+◌, ◌<◌, ◌≤◌};
ghost use Rattle.hp_names.specs.Numeric as spec;

/// What the values from 0x80 to 0x9F stand for.
static CONTROLS: [char; 32] = [
    '\u{20AC}', '\u{81}', '\u{201A}', '\u{192}', '\u{201E}', '\u{2026}', '\u{2020}', '\u{2021}',
    '\u{2C6}', '\u{2030}', '\u{160}', '\u{2039}', '\u{152}', '\u{8D}', '\u{17D}', '\u{8F}',
    '\u{90}', '\u{2018}', '\u{2019}', '\u{201C}', '\u{201D}', '\u{2022}', '\u{2013}', '\u{2014}',
    '\u{2DC}', '\u{2122}', '\u{161}', '\u{203A}', '\u{153}', '\u{9D}', '\u{17E}', '\u{178}',
];

/// The code point that a numeric reference of this value stands for (13.2.5.80): U+FFFD for 0, a surrogate and what is above
/// U+10FFFF; another one for most values from 0x80 to 0x9F.
pub fn numeric(value: u64) -> char
    ensures { result ≡ spec.numeric value }
{
    match value {
        0x80..=0x9F => CONTROLS[(value - 0x80) as usize],
        0 | 0x11_0000.. => '\u{FFFD}',
        _ => char::from_u32(value as u32).unwrap_or('\u{FFFD}'),
    }
}
