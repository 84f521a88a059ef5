//! The mode to which the insertion mode is reset (13.2.4.1).
ghost use Rattle.std.specs.Prelude.{◌≡◌, ◌+◌, ◌<◌, length, drop};
ghost use Rattle.hp_control.specs.Walks.{mode_at, mode_of, is_last, reset_mode, table_comes};

use crate::element::OpenElement;
use crate::kinds::{is_named, is_within};
use crate::open_elements::OpenElements;
use crate::stack::Stack;
use crate::walks::reach_from;
use hp_elements::{Kinds, Known, Mode, Name, SetName};

/// Whether a table comes from this depth down before a template.
fn table_comes(stack: &OpenElements, depth: usize) -> bool
    ensures { result ≡ table_comes (drop depth stack.now) }
{
    let table = Kinds::Html(Name::of_known(Known::TABLE));
    let template = Kinds::Html(Name::of_known(Known::TEMPLATE));
    reach_from(stack, depth, &table, &template).is_some()
}

/// Whether no element stands at this depth.
fn is_last(stack: &OpenElements, depth: usize) -> bool
    ensures { result ≡ is_last (drop depth stack.now) }
{
    if depth < stack.len() { false } else { true }
}

/// The mode that an element decides, where this depth is the next below it; `None` where the walk goes on.
fn mode_at(
    has_head: bool,
    templates: &Stack<Mode>,
    element: &OpenElement,
    stack: &OpenElements,
    below: usize,
) -> Option<Mode>
    ensures { result ≡ mode_at has_head templates.now element.now (drop below stack.now) }
{
    let is_last = is_last(stack, below);
    if is_named(Known::SELECT, element) {
        return Some(if table_comes(stack, below) {
            Mode::InSelectInTable
        } else {
            Mode::InSelect
        });
    }
    let is_cell = is_named(Known::TD, element) || is_named(Known::TH, element);
    if is_cell && !is_last {
        return Some(Mode::InCell);
    }
    if is_named(Known::TEMPLATE, element) {
        return Some(if templates.is_empty() {
            Mode::InBody
        } else {
            *templates.at(0)
        });
    }
    if is_named(Known::HEAD, element) && !is_last {
        return Some(Mode::InHead);
    }
    if is_named(Known::HTML, element) {
        return Some(if has_head {
            Mode::AfterHead
        } else {
            Mode::BeforeHead
        });
    }
    mode_of(element)
}

/// The mode of an element that decides one wherever it stands.
pub fn mode_of(element: &OpenElement) -> Option<Mode>
    ensures { result ≡ mode_of element.now }
{
    if is_named(Known::TR, element) {
        return Some(Mode::InRow);
    }
    if is_within(&Kinds::Set(SetName::TableSections), element) {
        return Some(Mode::InTableBody);
    }
    if is_named(Known::CAPTION, element) {
        return Some(Mode::InCaption);
    }
    if is_named(Known::COLGROUP, element) {
        return Some(Mode::InColumnGroup);
    }
    if is_named(Known::TABLE, element) {
        return Some(Mode::InTable);
    }
    if is_named(Known::BODY, element) {
        return Some(Mode::InBody);
    }
    if is_named(Known::FRAMESET, element) {
        return Some(Mode::InFrameset);
    }
    None
}

/// The mode to which the insertion mode is reset, seen from this depth.
pub fn reset_from(
    has_head: bool,
    templates: &Stack<Mode>,
    stack: &OpenElements,
    depth: usize,
) -> Mode
    ensures { result ≡ reset_mode has_head templates.now (drop depth stack.now) }
{
    for at in depth..stack.len() {
        if let Some(mode) = mode_at(has_head, templates, stack.at(at), stack, at + 1) {
            return mode;
        }
    }
    Mode::InBody
}
