//! The choice of one cut.

ghost use Rattle.std.specs.Prelude.{◌≡◌, ◌≤◌, length};
ghost use Rattle.hp_cut.specs.Targets.{next_cut};

use crate::scans::{first_start_from, first_tag_from};

/// How a cutter picks the place for a target.
#[derive(Clone, Copy)]
pub enum Cutter {
    /// At the first start of a code point from the target on.
    BySize,
    /// At the first tag within 512 bytes from the target on; where there is none, as by size.
    AtTags,
}

/// The cut for a target after the last cut.
pub fn cut_for(cutter: Cutter, text: &[u8], last: usize, target: usize) -> Option<usize>
    requires { target ≤ length text.now }
    ensures { result ≡ next_cut cutter text.now last target }
{
    if target <= last {
        return None;
    }
    let place = match cutter {
        Cutter::BySize => first_start_from(text, target),
        Cutter::AtTags => first_tag_from(text, target),
    };
    if place < text.len() {
        Some(place)
    } else {
        None
    }
}
