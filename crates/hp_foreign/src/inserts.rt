//! The elements of foreign content (13.2.6.1, 13.2.6.4.7, 13.2.6.5).
ghost use Rattle.std.specs.Prelude.{◌≡◌, IfOk};
ghost use Rattle.hp_control.specs.Foreign.{opened_namespace, tag_in};
ghost use Rattle.hp_views.specs.View.{sight, Answers, Meets, Carries};
ghost use Rattle.hp_foreign.specs.Plans.{namespace_plan, insert_in_plan};
ghost use Rattle.hp_foreign.specs.Steps.{insert_as_current_step, insert_foreign_step};

use crate::attributes::{attributes_in, element_name};
use crate::dispatch::older_element;
use hp_control::{Below, Refusal};
use hp_elements::{Known, Name, Namespace, NoMemory, Tag};
use hp_views::{View, point_of};
use std::alloc::Global;

/// The tag of an element of the namespace that is made for the token's tag.
fn tag_in(alloc: Global, namespace: Namespace, tag: Tag) -> Result<Tag, NoMemory>
    ensures { IfOk result (λ made. made ≡ tag_in namespace tag) }
{
    Ok(Tag {
        namespace,
        name: element_name(namespace, tag.name),
        attributes: attributes_in(alloc, namespace, tag.attributes)?,
    })
}

/// Inserts an element of the namespace for the tag, and pops it where the tag is self-closing.
fn insert_in<'p, B: Below>(
    alloc: Global,
    view: &mut View<'p, B>,
    fostering: bool,
    self_closing: bool,
    namespace: Namespace,
    tag: Tag,
) -> Result<(), Refusal>
    ensures { Carries result (sight B.heard view.old) (sight B.heard view.new) (insert_in_plan namespace fostering self_closing tag) }
{
    let tag = tag_in(alloc, namespace, tag)?;
    let point = point_of(&tag);
    view.insert(alloc, fostering, tag, point)?;
    if self_closing {
        view.pop(alloc)
    } else {
        Ok(())
    }
}

/// The namespace of the element that a start tag `math` or `svg` opens.
fn opened_namespace(name: &Name) -> Namespace
    ensures { result ≡ opened_namespace name.now }
{
    if name.is(Known::SVG) {
        Namespace::Svg
    } else {
        Namespace::MathMl
    }
}

/// Inserts a MathML or an SVG element for a start tag `math` or `svg`, and pops it where the tag is self-closing.
pub fn insert_foreign<'p, B: Below>(
    alloc: Global,
    view: &mut View<'p, B>,
    fostering: bool,
    self_closing: bool,
    tag: Tag,
) -> Result<(), Refusal>
    ensures { Meets result (sight B.heard view.old) (sight B.heard view.new) (insert_foreign_step fostering self_closing tag) }
{
    let namespace = opened_namespace(&tag.name);
    insert_in(alloc, view, fostering, self_closing, namespace, tag)
}

/// The namespace of the current node; HTML where there is none.
fn current_namespace<'p, B: Below>(
    alloc: Global,
    view: &mut View<'p, B>,
) -> Result<Namespace, Refusal>
    ensures { Answers result (sight B.heard view.old) (sight B.heard view.new) namespace_plan }
{
    if !view.change.stack.is_empty() {
        return Ok(view.change.stack.at(0).namespace);
    }
    let depth = view.change.popped;
    match older_element(&mut view.below, alloc, depth)? {
        Some(element) => Ok(element.namespace),
        None => Ok(Namespace::Html),
    }
}

/// Inserts an element of the current node's namespace, and pops it where the tag is self-closing.
pub fn insert_as_current<'p, B: Below>(
    alloc: Global,
    view: &mut View<'p, B>,
    fostering: bool,
    self_closing: bool,
    tag: Tag,
) -> Result<(), Refusal>
    ensures { Meets result (sight B.heard view.old) (sight B.heard view.new) (insert_as_current_step fostering self_closing tag) }
{
    let namespace = current_namespace(alloc, view)?;
    insert_in(alloc, view, fostering, self_closing, namespace, tag)
}
