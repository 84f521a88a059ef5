//! Whether an element is what a compound asks for.

ghost use Rattle.std.specs.Prelude.{◌≡◌, ◌&&◌, codes, bytes_eq, true};
ghost use Rattle.hp_select.specs.Matching.{has_plain, has_word, is_compound, is_plain, is_simple};
ghost use Rattle.std.specs.Str.{chars};

use crate::selector::Simple;
use hp_elements::{Attribute, AttributeSpace, List, Name, Tag, Text};

/// Whether all simple selectors of a compound match an element with this tag.
pub fn is_compound(tag: &Tag, compound: &List<Simple>) -> bool
    ensures { result ≡ is_compound tag.now compound.now }
{
    compound
        .as_slice()
        .iter()
        .all(|simple| is_simple(tag, simple))
}

/// Whether a simple selector matches an element with this tag.
fn is_simple(tag: &Tag, simple: &Simple) -> bool
    ensures { result ≡ is_simple tag.now simple.now }
{
    match simple {
        Simple::Universal => true,
        Simple::OfType(name) => tag.name.same(name.name_in(tag.namespace)),
        Simple::Id(id) => has_id(tag, id),
        Simple::Class(class) => has_class(tag, class),
        Simple::Attribute(name) => has_attribute(tag, name.name_in(tag.namespace)),
        Simple::Value(name, value) => has_value(tag, name.name_in(tag.namespace), value),
    }
}

fn has_id(tag: &Tag, id: &Text<'static>) -> bool
    ensures { result ≡ has_plain (codes "id") (λ value. bytes_eq value id.now) tag.now }
{
    tag.attributes
        .iter()
        .any(|attribute| is_id(attribute) && attribute.value.same(id))
}

fn has_class(tag: &Tag, class: &Text<'static>) -> bool
    ensures { result ≡ has_plain (codes "class") (has_word class.now) tag.now }
{
    tag.attributes.iter().any(|attribute| {
        is_class(attribute) && has_word(attribute.value.as_str(), class.as_str())
    })
}

fn has_attribute(tag: &Tag, name: &Name) -> bool
    ensures { result ≡ has_plain name.now (λ value. true) tag.now }
{
    tag.attributes
        .iter()
        .any(|attribute| is_called(attribute, name))
}

fn has_value(tag: &Tag, name: &Name, value: &Text<'static>) -> bool
    ensures { result ≡ has_plain name.now (λ other. bytes_eq other value.now) tag.now }
{
    tag.attributes.iter().any(|attribute| is_called(attribute, name) && attribute.value.same(value))
}

fn is_id(attribute: &Attribute) -> bool
    ensures { result ≡ (is_plain attribute.now.space && bytes_eq attribute.now.name (codes "id")) }
{
    has_text(attribute, "id")
}

fn is_class(attribute: &Attribute) -> bool
    ensures { result ≡ (is_plain attribute.now.space && bytes_eq attribute.now.name (codes "class")) }
{
    has_text(attribute, "class")
}

/// Whether an attribute in no namespace has the name of that text.
fn has_text(attribute: &Attribute, name: &str) -> bool
    ensures { result ≡ (is_plain attribute.now.space && bytes_eq attribute.now.name (chars name.now)) }
{
    attribute.space == AttributeSpace::Plain && are_same(attribute.name.as_str(), name)
}

/// Whether an attribute in no namespace has that name.
fn is_called(attribute: &Attribute, name: &Name) -> bool
    ensures { result ≡ (is_plain attribute.now.space && bytes_eq attribute.now.name name.now) }
{
    attribute.space == AttributeSpace::Plain && attribute.name.same(name)
}

/// Whether a value has a word between white space.
fn has_word(value: &str, word: &str) -> bool
    ensures { result ≡ has_word (chars word.now) (chars value.now) }
{
    for part in value.split_ascii_whitespace() {
        if are_same(word, part) {
            return true;
        }
    }
    false
}

/// Whether two texts have the same code points.
fn are_same(text: &str, other: &str) -> bool
    ensures { result ≡ bytes_eq (chars text.now) (chars other.now) }
{
    text == other
}
