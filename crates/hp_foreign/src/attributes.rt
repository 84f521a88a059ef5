//! The attributes of foreign elements (13.2.6.1, 13.2.6.5).
ghost use Rattle.std.specs.Prelude.{◌≡◌, map, IfOk};
ghost use Rattle.std.specs.List.{list_any};
ghost use Rattle.std.specs.Option.{is_some};
ghost use Rattle.hp_elements.specs.Respelling.{respelling_of};
ghost use Rattle.hp_control.specs.Foreign.{attribute_in, attribute_spellings, has_font_attribute, name_in, respelled};
ghost use Rattle.hp_foreign.specs.Changes.{changes_in};

use hp_elements::{
    Attribute, Chain, ForeignAttribute, Known, Name, Namespace, NoMemory, Respelling, Tag,
};
use hp_views::is_called;
use std::alloc::Global;

/// The spelling of which the name is the lower case, or the name.
fn respelled(name: Name, table: Respelling) -> Name
    ensures { result ≡ respelled (spellings_of table) name }
{
    match name.respelling(table) {
        Some(known) => Name::of_known(known),
        None => name,
    }
}

ghost use Rattle.hp_elements.specs.Respelling.{spellings_of};

/// The name that an attribute without a namespace has in elements of that namespace.
fn attribute_name(namespace: Namespace, name: Name) -> Name
    ensures { result ≡ respelled (attribute_spellings namespace) name }
{
    match namespace {
        Namespace::Html => name,
        Namespace::MathMl => respelled(name, Respelling::MathMlAttributes),
        Namespace::Svg => respelled(name, Respelling::SvgAttributes),
    }
}

/// The name that an element of the namespace has for a token of that name.
pub(crate) fn element_name(namespace: Namespace, name: Name) -> Name
    ensures { result ≡ name_in namespace name }
{
    match namespace {
        Namespace::Html | Namespace::MathMl => name,
        Namespace::Svg => respelled(name, Respelling::SvgNames),
    }
}

/// The attribute that an element of the namespace has for one of the token.
fn attribute_in(namespace: Namespace, attribute: Attribute) -> Attribute
    ensures { result ≡ attribute_in namespace attribute }
{
    match attribute.name.foreign_attribute() {
        Some(ForeignAttribute { space, local }) => Attribute {
            space,
            name: Name::of_known(local),
            value: attribute.value,
        },
        None => Attribute {
            space: attribute.space,
            name: attribute_name(namespace, attribute.name),
            value: attribute.value,
        },
    }
}

/// Whether the name is the lower case of another spelling in elements of the namespace.
fn is_respelled(namespace: Namespace, name: &Name) -> bool
    ensures { result ≡ is_some (respelling_of (attribute_spellings namespace) name.now) }
{
    match namespace {
        Namespace::Html => false,
        Namespace::MathMl => name.respelling(Respelling::MathMlAttributes).is_some(),
        Namespace::Svg => name.respelling(Respelling::SvgAttributes).is_some(),
    }
}

/// Whether an element of the namespace has another attribute for this one of the token.
fn changes_in(namespace: Namespace, attribute: &Attribute) -> bool
    ensures { result ≡ changes_in namespace attribute.now }
{
    attribute.name.foreign_attribute().is_some() || is_respelled(namespace, &attribute.name)
}

fn any_changes(namespace: Namespace, attributes: &Chain<Attribute>) -> bool
    ensures { result ≡ list_any (changes_in namespace) attributes.now }
{
    attributes
        .iter()
        .any(|attribute| changes_in(namespace, attribute))
}

/// The attributes that an element of the namespace has for those of the token. Where none changes, as mostly, none is moved.
pub(crate) fn attributes_in(
    alloc: Global,
    namespace: Namespace,
    attributes: Chain<Attribute>,
) -> Result<Chain<Attribute>, NoMemory>
    ensures { IfOk result (λ made. made ≡ map (attribute_in namespace) attributes) }
{
    if any_changes(namespace, &attributes) {
        return changed_in(alloc, namespace, attributes);
    }
    Ok(attributes)
}

/// The same, each moved into a list of their own.
#[inline(never)]
fn changed_in(
    alloc: Global,
    namespace: Namespace,
    attributes: Chain<Attribute>,
) -> Result<Chain<Attribute>, NoMemory>
    ensures { IfOk result (λ made. made ≡ map (attribute_in namespace) attributes) }
{
    let mut attributes = attributes;
    let mut made = Chain::new();
    while let Some(attribute) = attributes.pop_front() {
        made.push(alloc, attribute_in(namespace, attribute))?;
    }
    Ok(made)
}

ghost use Rattle.hp_foreign.specs.Fonts.{is_font_attribute};

fn is_font_attribute(attribute: &Attribute) -> bool
    ensures { result ≡ is_font_attribute attribute.now }
{
    is_called(&attribute.name, Known::COLOR)
        || is_called(&attribute.name, Known::FACE)
        || is_called(&attribute.name, Known::SIZE)
}

fn has_any(attributes: &Chain<Attribute>) -> bool
    ensures { result ≡ list_any is_font_attribute attributes.now }
{
    attributes
        .iter()
        .any(|attribute| is_font_attribute(attribute))
}

/// Whether the tag has an attribute that makes a start tag `font` one that ends foreign content.
pub fn has_font_attribute(tag: &Tag) -> bool
    ensures { result ≡ has_font_attribute tag.now }
{
    has_any(&tag.attributes)
}
