//! Which tokens go to the rules of foreign content (13.2.6).
ghost use Rattle.std.specs.Prelude.{◌≡◌, IfOk};
ghost use Rattle.hp_control.specs.Foreign.{is_glyph, enters, is_svg_start, is_annotation, is_foreign_at, is_end_of_input};
ghost use Rattle.hp_elements.specs.Tokens.{kind_of};
ghost use Rattle.hp_views.specs.View.{sight, Answers, Learns};
ghost use Rattle.hp_foreign.specs.Plans.{ask_element, goes_plan, older_goes};

use hp_control::{Answer, Below, OpenElement, Question, Refusal, is_html};
use hp_elements::{ElementName, Kind, Known, Namespace, NoMemory, Point, Token};
use hp_views::{View, older_html};
use std::alloc::Global;

/// The start tags that are foreign content at a MathML text integration point.
fn is_glyph(name: Option<Known>) -> bool
    ensures { result ≡ is_glyph name }
{
    match name {
        Some(Known::Element(ElementName::Mglyph | ElementName::Malignmark)) => true,
        _ => false,
    }
}

/// Whether the mode's rules are used for the token at an integration point.
fn enters(point: Point, kind: Kind) -> bool
    ensures { result ≡ enters point kind }
{
    match (point, kind) {
        (Point::MathText, Kind::Characters(_)) => true,
        (Point::MathText, Kind::Start(name)) => !is_glyph(name),
        (Point::Html, Kind::Characters(_)) => true,
        (Point::Html, Kind::Start(_)) => true,
        _ => false,
    }
}

fn is_svg_start(kind: Kind) -> bool
    ensures { result ≡ is_svg_start kind }
{
    match kind {
        Kind::Start(Some(Known::Element(ElementName::Svg))) => true,
        _ => false,
    }
}

/// Whether it is a MathML `annotation-xml` element.
fn is_annotation(element: &OpenElement) -> bool
    ensures { result ≡ is_annotation element.now }
{
    match element.namespace {
        Namespace::MathMl => element.name.is(Known::ANNOTATION_XML),
        Namespace::Html | Namespace::Svg => false,
    }
}

fn is_end_of_input(kind: Kind) -> bool
    ensures { result ≡ is_end_of_input kind }
{
    match kind {
        Kind::EndOfInput => true,
        _ => false,
    }
}

/// Whether the token is foreign content where this element is the current node.
fn is_foreign_at(kind: Kind, element: &OpenElement) -> bool
    ensures { result ≡ is_foreign_at kind element.now }
{
    if is_html(element) || is_end_of_input(kind) {
        return false;
    }
    !(enters(element.point, kind) || is_annotation(element) && is_svg_start(kind))
}

/// The older element at that depth, but for its id.
pub(crate) fn older_element<B: Below>(
    below: &mut B,
    alloc: Global,
    depth: u64,
) -> Result<Option<OpenElement>, NoMemory>
    ensures { Learns result (B.heard below.old) (B.heard below.new) (ask_element depth) }
{
    match below.ask(alloc, Question::Elem { depth })? {
        Answer::Element {
            namespace,
            name,
            point,
        } => Ok(Some(OpenElement {
            id: 0,
            namespace,
            name,
            point,
        })),
        _ => Ok(None),
    }
}

/// Whether the token is foreign content where the current node is an older element, or there is none.
fn older_goes<'p, B: Below>(
    alloc: Global,
    view: &mut View<'p, B>,
    kind: Kind,
) -> Result<bool, Refusal>
    ensures { Answers result (sight B.heard view.old) (sight B.heard view.new) (λ v. older_goes kind v) }
{
    let depth = view.change.popped;
    if older_html(&mut view.below, alloc, depth)? {
        return Ok(false);
    }
    match older_element(&mut view.below, alloc, depth)? {
        Some(element) => Ok(is_foreign_at(kind, &element)),
        None => Ok(false),
    }
}

/// Whether the token is handled by the rules of foreign content, and not by those of the insertion mode. Of an older current
/// node it is asked whether it is HTML, and only after a no what it is.
pub fn goes_to_foreign<'p, B: Below>(
    alloc: Global,
    view: &mut View<'p, B>,
    token: &Token<'_>,
) -> Result<bool, Refusal>
    ensures { Answers result (sight B.heard view.old) (sight B.heard view.new) (goes_plan (kind_of token.now)) }
{
    let kind = token.kind();
    if !view.change.stack.is_empty() {
        return Ok(is_foreign_at(kind, view.change.stack.at(0)));
    }
    if is_end_of_input(kind) {
        return Ok(false);
    }
    older_goes(alloc, view, kind)
}
