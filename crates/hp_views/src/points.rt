//! The integration points that elements are (13.2.6).
ghost use Rattle.std.specs.Prelude.{◌≡◌};
ghost use Rattle.std.specs.List.{list_any};
ghost use Rattle.std.specs.Str.{bytes_eq, chars};
ghost use Rattle.hp_elements.specs.Names.{lowered, text_of};
ghost use Rattle.hp_control.specs.Acts.{point_in, encodes_html as spec_encodes_html};
ghost use Rattle.hp_views.specs.Encodings.{encodes_as};

use hp_elements::{Attribute, Chain, Known, Name, Namespace, Point, SetName, Tag, Text};

/// The integration point that an element is which is made for the tag.
pub fn point_of(tag: &Tag) -> Point
    ensures { result ≡ point_in tag.now.namespace tag.now }
{
    match tag.namespace {
        Namespace::Html => Point::No,
        Namespace::MathMl => {
            if SetName::MathMlTextPoints.has(Namespace::MathMl, &tag.name) {
                Point::MathText
            } else if is_called(&tag.name, Known::ANNOTATION_XML) && encodes_html(&tag.attributes) {
                Point::Html
            } else {
                Point::No
            }
        }
        Namespace::Svg => {
            if SetName::SvgHtmlPoints.has(Namespace::Svg, &tag.name) {
                Point::Html
            } else {
                Point::No
            }
        }
    }
}

/// Whether an attribute makes an annotation an integration point of HTML.
fn encodes_html(attributes: &Chain<Attribute>) -> bool
    ensures { result ≡ list_any spec_encodes_html attributes.now }
{
    any_encodes(attributes, "text/html", "application/xhtml+xml")
}

fn any_encodes(attributes: &Chain<Attribute>, html: &str, xhtml: &str) -> bool
    ensures { result ≡ list_any (encodes_as (chars html.now) (chars xhtml.now)) attributes.now }
{
    for attribute in attributes.iter() {
        if encodes(attribute, html, xhtml) {
            return true;
        }
    }
    false
}

/// Whether the attribute is an `encoding` of one of these values.
fn encodes(attribute: &Attribute, html: &str, xhtml: &str) -> bool
    ensures { result ≡ encodes_as (chars html.now) (chars xhtml.now) attribute.now }
{
    is_called(&attribute.name, Known::ENCODING)
        && (is_alike(&attribute.value, html) || is_alike(&attribute.value, xhtml))
}

/// Whether two texts are the same without ASCII case.
fn is_alike(text: &Text<'_>, other: &str) -> bool
    ensures { result ≡ bytes_eq (lowered text.now) (lowered (chars other.now)) }
{
    text.as_str().eq_ignore_ascii_case(other)
}

/// Whether the name is that known one.
pub fn is_called(name: &Name, known: Known) -> bool
    ensures { result ≡ bytes_eq name.now (text_of known) }
{
    name.is(known)
}
