//! Looks for places in a text.

ghost use Rattle.std.specs.Prelude.{◌≡◌, ◌+◌, ◌≤◌, length, min};
ghost use Rattle.hp_cut.specs.Places.{is_start, is_tag, first_within};
ghost use Rattle.hp_cut.specs.Targets.{first_start, first_tag};

/// How many places are looked through for a tag.
const WINDOW: usize = 512;

/// Whether a code point starts at this place.
pub fn starts_at(text: &[u8], place: usize) -> bool
    ensures { result ≡ is_start text.now place }
{
    place < text.len() && (text[place] < 128 || 192 <= text[place])
}

/// Whether `<` and an ASCII letter stand at this place.
fn has_tag_at(text: &[u8], place: usize) -> bool
    ensures { result ≡ is_tag text.now place }
{
    place < text.len()
        && text[place] == b'<'
        && place + 1 < text.len()
        && text[place + 1].is_ascii_alphabetic()
}

/// The first start of a code point from this place on, or the length.
#[tactic(auto, using(crate::proofs::Firsts::within_steps))]
pub fn first_start_from(text: &[u8], from: usize) -> usize
    requires { from ≤ length text.now }
    ensures { result ≡ first_start text.now from }
{
    for place in from..text.len() {
        if starts_at(text, place) {
            return place;
        }
    }
    text.len()
}

/// The first tag in the window from this place on.
#[tactic(auto, using(crate::proofs::Firsts::within_steps))]
fn first_tag_in_window(text: &[u8], from: usize) -> Option<usize>
    requires { from ≤ length text.now }
    ensures { result ≡ first_within (is_tag text.now) from (min (from + 512) (length text.now)) }
{
    let end = if WINDOW < text.len() - from {
        from + WINDOW
    } else {
        text.len()
    };
    for place in from..end {
        if has_tag_at(text, place) {
            return Some(place);
        }
    }
    None
}

/// The first tag in the window from this place on, or else the first start of a code point.
pub fn first_tag_from(text: &[u8], from: usize) -> usize
    requires { from ≤ length text.now }
    ensures { result ≡ first_tag text.now from }
{
    match first_tag_in_window(text, from) {
        Some(place) => place,
        None => first_start_from(text, from),
    }
}
