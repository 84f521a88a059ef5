//! The attributes that an element doesn't have yet.

ghost use Rattle.std.specs.Prelude.{◌≡◌, ◌+◌, ◌<◌, ◌≤◌, ◌^◌, ◌∷◌, List, length};
ghost use Rattle.hp_elements.specs.declared.tag.Attribute.{Attribute};
ghost use Rattle.hp_control.specs.Tree.{has_name, with_missing};

use hp_elements::{Attribute, Chain};

/// Whether one of the attributes has the name of another.
fn has_name(attributes: &Chain<Attribute>, one: &Attribute) -> bool
    ensures { result ≡ has_name attributes.now one.now }
{
    attributes
        .iter()
        .any(|attribute| attribute.name.same(&one.name))
}

/// Whether the first of further attributes has the name of one of the attributes.
fn is_known(attributes: &Chain<Attribute>, next: &Chain<Attribute>) -> bool
    requires { 0 < length next.now }
    ensures { (one : Attribute) (more : List Attribute) → next.now ≡ one ∷ more → result ≡ has_name attributes.now one }
{
    match next.first() {
        Some(one) => has_name(attributes, one),
        None => unreachable!(),
    }
}

/// Adds the first of further attributes where its name isn't there yet, and takes it out of these.
fn add_first(attributes: &mut Chain<Attribute>, more: &mut Chain<Attribute>)
    requires some { 0 < length more.old }
    requires fits { length attributes.old + length more.old < 2 ^ 63 }
    ensures same { with_missing attributes.new more.new ≡ with_missing attributes.old more.old }
    ensures count { length attributes.new + length more.new ≤ length attributes.old + length more.old }
    ensures less { length more.new < length more.old }
{
    let next = more.take_first();
    if is_known(attributes, &next) {
        return;
    }
    attributes.append(next);
}

/// Adds each further attribute whose name isn't there yet, one after the other. It takes no memory.
pub fn add_attributes(attributes: &mut Chain<Attribute>, more: Chain<Attribute>)
    requires { length attributes.old + length more < 2 ^ 63 }
    ensures attributes { attributes.new ≡ with_missing attributes.old more }
    ensures count { length attributes.new ≤ length attributes.old + length more }
{
    let mut rest = more;
    while !rest.is_empty() {
        add_first(attributes, &mut rest);
    }
}
