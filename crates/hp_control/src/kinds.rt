//! Which elements are of which kinds.
ghost use Rattle.std.specs.Prelude.{◌≡◌};
ghost use Rattle.hp_control.specs.States.{is_html, is_named};
ghost use Rattle.hp_control.specs.KindTests.{within};

use crate::element::OpenElement;
use hp_elements::{Kinds, Known, Namespace};

/// Whether it is an HTML element.
#[inline(always)]
pub fn is_html(element: &OpenElement) -> bool
    ensures { result ≡ is_html element.now }
{
    match element.namespace {
        Namespace::Html => true,
        Namespace::MathMl | Namespace::Svg => false,
    }
}

/// Whether it is the HTML element of that name.
pub fn is_named(known: Known, element: &OpenElement) -> bool
    ensures { result ≡ is_named known element.now }
{
    is_html(element) && element.name.is(known)
}

/// Whether the element is of these kinds.
#[inline(always)]
pub fn is_within(kinds: &Kinds, element: &OpenElement) -> bool
    ensures { result ≡ within kinds.now element.now }
{
    kinds.has(element.namespace, &element.name, element.point)
}
