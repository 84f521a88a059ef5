//! Whether two tags are equal.
ghost use Rattle.std.specs.Prelude.{◌≡◌};
ghost use Rattle.std.specs.List.{list_any};
ghost use Rattle.hp_control.specs.Walks.{same_attribute, among, same_tag};

use crate::spelled::same_name;
use hp_elements::{Attribute, Chain, Tag};

fn same_attribute(attribute: &Attribute, other: &Attribute) -> bool
    ensures { result ≡ same_attribute attribute.now other.now }
{
    attribute.space == other.space
        && same_name(&attribute.name, &other.name)
        && attribute.value.same(&other.value)
}

fn is_among(attribute: &Attribute, those: &Chain<Attribute>) -> bool
    ensures { result ≡ list_any (λ other. same_attribute attribute.now other) those.now }
{
    for other in those.iter() {
        if same_attribute(attribute, other) {
            return true;
        }
    }
    false
}

/// Whether each of the first attributes is among the second.
fn are_among(these: &Chain<Attribute>, those: &Chain<Attribute>) -> bool
    ensures { result ≡ among these.now those.now }
{
    for attribute in these.iter() {
        if !is_among(attribute, those) {
            return false;
        }
    }
    true
}

/// Whether two tags have the same namespace, the same name and the same attributes, these in any order.
pub fn same_tag(tag: &Tag, other: &Tag) -> bool
    ensures { result ≡ same_tag tag.now other.now }
{
    tag.namespace == other.namespace
        && same_name(&tag.name, &other.name)
        && are_among(&tag.attributes, &other.attributes)
        && are_among(&other.attributes, &tag.attributes)
}
