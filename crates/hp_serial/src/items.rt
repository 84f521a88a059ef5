//! The tags of an element, and what is written for the other items.

ghost use Rattle.std.specs.Prelude.{◌≡◌, ◌++◌, [], OnOk, encode_utf8_all, option_copied, unwrap_or};
ghost use Rattle.std.specs.List.{concat, flat_map};
ghost use Rattle.std.specs.Str.{chars};
ghost use Rattle.hp_control.specs.Tree.{Tree};
ghost use Rattle.hp_arena.specs.Readers.{shown, text_of, HasTag};
ghost use Rattle.hp_serial.specs.Html.{is_void, keeps_raw, prefix, qualified, attribute_text, start_tag, end_tag, text_in};
ghost use Rattle.hp_serial.specs.Walk.{front_of, back_of};

use crate::escape::{Place, write_escaped};
use hp_arena::{NodeView, Runs};
use hp_elements::{
    Attribute, AttributeSpace, Chain, Known, Name, Namespace, NoMemory, SetName, Tag, Text,
};

/// Whether an element has a start tag alone.
pub fn is_void(tag: &Tag) -> bool
    ensures { result ≡ is_void tag.now }
{
    SetName::Void.has(tag.namespace, &tag.name)
}

/// Whether the texts in an element stand as they are.
pub fn keeps_raw(tag: &Tag) -> bool
    ensures { result ≡ keeps_raw tag.now }
{
    let name = &tag.name;
    tag.namespace == Namespace::Html
        && (name.is(Known::STYLE)
            || name.is(Known::SCRIPT)
            || name.is(Known::XMP)
            || name.is(Known::IFRAME)
            || name.is(Known::NOEMBED)
            || name.is(Known::NOFRAMES)
            || name.is(Known::PLAINTEXT))
}

/// Writes bytes as they are.
fn put(out: &mut Vec<u8>, piece: &[u8]) -> Result<(), NoMemory>
    ensures { OnOk result (out.new.items ≡ out.old.items ++ piece.now) }
{
    out.extend_from_slice(piece)
}

/// Writes a text as it is, in UTF-8.
fn put_str(out: &mut Vec<u8>, text: &str) -> Result<(), NoMemory>
    ensures { OnOk result (out.new.items ≡ out.old.items ++ encode_utf8_all (chars text.now)) }
{
    put(out, text.as_bytes())
}

/// Writes an item up to what stands inside it. The document and contents have nothing to write.
pub fn write_front(out: &mut Vec<u8>, view: NodeView<'_, '_>, raw: bool) -> Result<(), NoMemory>
    ensures { (t : Tree) → HasTag t view.entry → OnOk result (out.new.items ≡ out.old.items ++ encode_utf8_all (front_of t raw (shown view.entry))) }
{
    match view {
        NodeView::Element { tag, .. } => write_start_tag(out, tag),
        NodeView::Text { runs } => write_runs(out, runs, raw),
        NodeView::Comment { text } => write_between(out, b"<!--", text.as_str(), b"-->"),
        NodeView::Doctype { name, .. } => { write_between(out, b"<!DOCTYPE ", name_of(name), b">") }
        NodeView::Document | NodeView::Contents => Ok(()),
    }
}

/// Writes what stands behind all that is inside an item: an element's end tag, where it has one.
pub fn write_back(out: &mut Vec<u8>, view: NodeView<'_, '_>) -> Result<(), NoMemory>
    ensures { (t : Tree) → HasTag t view.entry → OnOk result (out.new.items ≡ out.old.items ++ encode_utf8_all (back_of t (shown view.entry))) }
{
    match view {
        NodeView::Element { tag, .. } => write_end_tag(out, tag),
        _ => Ok(()),
    }
}

/// Writes an element's start tag.
fn write_start_tag(out: &mut Vec<u8>, tag: &Tag) -> Result<(), NoMemory>
    ensures { OnOk result (out.new.items ≡ out.old.items ++ encode_utf8_all (start_tag tag.now)) }
{
    put(out, b"<")?;
    put_str(out, tag.name.as_str())?;
    write_attributes(out, &tag.attributes)?;
    put(out, b">")
}

/// Writes an element's end tag, where it has one.
fn write_end_tag(out: &mut Vec<u8>, tag: &Tag) -> Result<(), NoMemory>
    ensures { OnOk result (out.new.items ≡ out.old.items ++ encode_utf8_all (end_tag tag.now)) }
{
    if is_void(tag) {
        return Ok(());
    }
    put(out, b"</")?;
    put_str(out, tag.name.as_str())?;
    put(out, b">")
}

/// Writes attributes in their order.
fn write_attributes(out: &mut Vec<u8>, attributes: &Chain<Attribute>) -> Result<(), NoMemory>
    ensures { OnOk result (out.new.items ≡ out.old.items ++ encode_utf8_all (flat_map attribute_text attributes.now)) }
{
    for attribute in attributes.iter() {
        write_attribute(out, attribute)?;
    }
    Ok(())
}

/// Writes an attribute, behind a space.
fn write_attribute(out: &mut Vec<u8>, attribute: &Attribute) -> Result<(), NoMemory>
    ensures { OnOk result (out.new.items ≡ out.old.items ++ encode_utf8_all (attribute_text attribute.now)) }
{
    put(out, b" ")?;
    write_qualified(out, attribute.space, &attribute.name)?;
    put(out, b"=\"")?;
    write_escaped(out, Place::Value, attribute.value.as_str())?;
    put(out, b"\"")
}

/// Writes the name of an attribute of a space.
fn write_qualified(out: &mut Vec<u8>, space: AttributeSpace, name: &Name) -> Result<(), NoMemory>
    ensures { OnOk result (out.new.items ≡ out.old.items ++ encode_utf8_all (qualified space name.now)) }
{
    put(out, prefix(space, name))?;
    put_str(out, name.as_str())
}

/// What stands before the local name of an attribute of a space.
fn prefix(space: AttributeSpace, name: &Name) -> &'static [u8]
    ensures { result.now ≡ prefix space name.now }
{
    match space {
        AttributeSpace::Plain => b"",
        AttributeSpace::Xlink => b"xlink:",
        AttributeSpace::Xml => b"xml:",
        AttributeSpace::Xmlns => {
            if name.is(Known::XMLNS) {
                b""
            } else {
                b"xmlns:"
            }
        }
    }
}

/// Writes a text by its runs.
fn write_runs(out: &mut Vec<u8>, runs: Runs<'_, '_>, raw: bool) -> Result<(), NoMemory>
    ensures { OnOk result (out.new.items ≡ out.old.items ++ encode_utf8_all (text_in raw (text_of runs.entry))) }
{
    match runs {
        Runs::One(run) => write_run(out, run, raw),
        Runs::Several(runs) => write_several(out, runs, raw),
    }
}

/// Writes a text of several runs.
fn write_several(out: &mut Vec<u8>, runs: &Chain<Text<'_>>, raw: bool) -> Result<(), NoMemory>
    ensures { OnOk result (out.new.items ≡ out.old.items ++ encode_utf8_all (text_in raw (concat runs.now))) }
{
    for run in runs.iter() {
        write_run(out, run, raw)?;
    }
    Ok(())
}

/// Writes a run of a text, raw or with what has to be escaped in it.
fn write_run(out: &mut Vec<u8>, run: &Text<'_>, raw: bool) -> Result<(), NoMemory>
    ensures { OnOk result (out.new.items ≡ out.old.items ++ encode_utf8_all (text_in raw run.now)) }
{
    if raw {
        put_str(out, run.as_str())
    } else {
        write_escaped(out, Place::Text, run.as_str())
    }
}

/// The name of a doctype: the empty text where it is missing.
fn name_of<'t>(name: Option<&'t Text<'_>>) -> &'t str
    ensures { chars result.now ≡ unwrap_or (option_copied name.entry) [] }
{
    match name {
        Some(name) => name.as_str(),
        None => "",
    }
}

/// Writes a text as it is between two marks.
fn write_between(out: &mut Vec<u8>, left: &[u8], text: &str, right: &[u8]) -> Result<(), NoMemory>
    ensures { OnOk result (out.new.items ≡ out.old.items ++ left.now ++ encode_utf8_all (chars text.now) ++ right.now) }
{
    put(out, left)?;
    put_str(out, text)?;
    put(out, right)
}
