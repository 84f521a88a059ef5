//! The element that is made for a tag.
ghost use Rattle.std.specs.Prelude.{◌≡◌, IfOk};
ghost use Rattle.hp_control.specs.Acts.{element_for as spec_element_for};

use hp_control::OpenElement;
use hp_elements::{NoMemory, Tag};
use hp_views::point_of;
use std::alloc::Global;

/// The element of this id that is made for the tag.
pub fn element_for(alloc: Global, id: u64, tag: &Tag) -> Result<OpenElement, NoMemory>
    ensures { IfOk result (λ element. element ≡ spec_element_for id tag.now) }
{
    Ok(OpenElement {
        id,
        namespace: tag.namespace,
        name: tag.name.copy(alloc)?,
        point: point_of(tag),
    })
}
