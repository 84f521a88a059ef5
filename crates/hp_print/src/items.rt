//! The lines of one item.

ghost use Rattle.std.specs.Prelude.{◌≡◌, ◌^◌, ◌<◌, ◌≤◌, ◌++◌, [], codes, length, unwrap_or, encode_utf8_all, vec_capacity};
ghost use Rattle.std.specs.Option.{option_copied};
ghost use Rattle.std.specs.List.{concat};
ghost use Rattle.hp_control.specs.Tree.{Tree};
ghost use Rattle.hp_arena.specs.Readers.{shown, text_of, HasTag};
ghost use Rattle.hp_print.specs.Out.{Prints};
ghost use Rattle.hp_print.specs.Stack.{attributes_in};
ghost use Rattle.hp_print.specs.Print.{opening, indentation, namespace_word, contents_line, element_lines, text_line, comment_line, identifiers, doctype_line, lines_of, tag_extra, tag_lines};

use crate::attributes::{Shown, print_attributes};
use crate::output::Out;
use hp_arena::{NodeView, Runs, is_template};
use hp_elements::{Chain, Namespace, Tag, Text};
use hp_text::Sink;
use std::alloc::Global;

/// What stands before the name of an element.
fn open_text(namespace: Namespace) -> &'static [u8]
    ensures { result.now ≡ codes "<" ++ namespace_word namespace }
{
    match namespace {
        Namespace::Html => b"<",
        Namespace::MathMl => b"<math ",
        Namespace::Svg => b"<svg ",
    }
}

/// Prints an element without its attributes.
#[inline(always)]
fn print_opening<K: Sink>(out: &mut Out, sink: &mut K, tag: &Tag, depth: u64)
    requires { depth < 2 ^ 63 }
    ensures { Prints out.old out.new (K.taken sink.old, K.faults sink.old) (K.taken sink.new, K.faults sink.new) (opening depth tag.now) }
{
    match tag.namespace {
        Namespace::Html => out.put_line(sink, depth, b'<', tag.name.as_str(), b'>'),
        _ => print_foreign(out, sink, tag, depth),
    }
}

/// Prints an element of any namespace without its attributes.
#[tactic(auto, using(crate::proofs::Pieces::prints_then))]
#[inline(never)]
fn print_foreign<K: Sink>(out: &mut Out, sink: &mut K, tag: &Tag, depth: u64)
    requires { depth < 2 ^ 63 }
    ensures { Prints out.old out.new (K.taken sink.old, K.faults sink.old) (K.taken sink.new, K.faults sink.new) (opening depth tag.now) }
{
    out.indent(sink, depth);
    out.put(sink, open_text(tag.namespace));
    out.put_text(sink, tag.name.as_str());
    out.put(sink, b">\n");
}

/// How much deeper the contents of a template stand than children do.
pub fn extra_depth(tag: &Tag) -> u32
    ensures { result ≡ tag_extra (Some tag.now) }
{
    if is_template(tag) { 1 } else { 0 }
}

/// Prints a text by its runs.
fn print_text<K: Sink>(out: &mut Out, sink: &mut K, runs: Runs<'_, '_>, depth: u64)
    requires { depth < 2 ^ 63 }
    ensures { Prints out.old out.new (K.taken sink.old, K.faults sink.old) (K.taken sink.new, K.faults sink.new) (text_line depth (text_of runs.entry)) }
{
    match runs {
        Runs::One(run) => out.put_line(sink, depth, b'"', run.as_str(), b'"'),
        Runs::Several(runs) => print_several(out, sink, runs, depth),
    }
}

/// Prints a text of several runs.
#[tactic(auto, using(crate::proofs::Pieces::prints_then))]
#[inline(never)]
fn print_several<K: Sink>(out: &mut Out, sink: &mut K, runs: &Chain<Text<'_>>, depth: u64)
    requires { depth < 2 ^ 63 }
    ensures { Prints out.old out.new (K.taken sink.old, K.faults sink.old) (K.taken sink.new, K.faults sink.new) (text_line depth (concat runs.now)) }
{
    out.indent(sink, depth);
    out.put(sink, b"\"");
    print_runs(out, sink, runs);
    out.put(sink, b"\"\n");
}

fn print_runs<K: Sink>(out: &mut Out, sink: &mut K, runs: &Chain<Text<'_>>)
    ensures { Prints out.old out.new (K.taken sink.old, K.faults sink.old) (K.taken sink.new, K.faults sink.new) (encode_utf8_all (concat runs.now)) }
{
    for run in runs.iter() {
        out.put_text(sink, run.as_str());
    }
}

/// Prints a comment.
#[tactic(auto, using(crate::proofs::Pieces::prints_then))]
#[inline(never)]
fn print_comment<K: Sink>(out: &mut Out, sink: &mut K, text: &Text<'_>, depth: u64)
    requires { depth < 2 ^ 63 }
    ensures { Prints out.old out.new (K.taken sink.old, K.faults sink.old) (K.taken sink.new, K.faults sink.new) (comment_line depth text.now) }
{
    out.indent(sink, depth);
    out.put(sink, b"<!-- ");
    out.put_text(sink, text.as_str());
    out.put(sink, b" -->\n");
}

/// Prints a doctype.
#[tactic(auto, using(crate::proofs::Pieces::prints_then))]
#[inline(never)]
fn print_doctype<K: Sink>(
    out: &mut Out,
    sink: &mut K,
    name: Option<&Text<'_>>,
    public: Option<&Text<'_>>,
    system: Option<&Text<'_>>,
    depth: u64,
)
    requires { depth < 2 ^ 63 }
    ensures { Prints out.old out.new (K.taken sink.old, K.faults sink.old) (K.taken sink.new, K.faults sink.new) (doctype_line depth (unwrap_or (option_copied name.entry) []) (option_copied public.entry) (option_copied system.entry)) }
{
    out.indent(sink, depth);
    out.put(sink, b"<!DOCTYPE ");
    print_identifier(out, sink, name);
    print_identifiers(out, sink, public, system);
    out.put(sink, b">\n");
}

/// Prints the public and the system identifier, where there is one of them.
#[tactic(auto, using(crate::proofs::Pieces::prints_then))]
fn print_identifiers<K: Sink>(
    out: &mut Out,
    sink: &mut K,
    public: Option<&Text<'_>>,
    system: Option<&Text<'_>>,
)
    ensures { Prints out.old out.new (K.taken sink.old, K.faults sink.old) (K.taken sink.new, K.faults sink.new) (identifiers (option_copied public.entry) (option_copied system.entry)) }
{
    if public.is_none() && system.is_none() {
        return;
    }
    out.put(sink, b" \"");
    print_identifier(out, sink, public);
    out.put(sink, b"\" \"");
    print_identifier(out, sink, system);
    out.put(sink, b"\"");
}

/// Prints an identifier, and nothing for one that is absent.
fn print_identifier<K: Sink>(out: &mut Out, sink: &mut K, identifier: Option<&Text<'_>>)
    ensures { Prints out.old out.new (K.taken sink.old, K.faults sink.old) (K.taken sink.new, K.faults sink.new) (encode_utf8_all (unwrap_or (option_copied identifier.entry) [])) }
{
    match identifier {
        None => {}
        Some(text) => out.put_text(sink, text.as_str()),
    }
}

/// Prints an element with its attributes. The list for these has room for them.
#[tactic(auto, using(crate::proofs::Pieces::prints_then))]
#[inline(always)]
pub fn print_tag<'t, K: Sink>(
    alloc: Global,
    out: &mut Out,
    sink: &mut K,
    list: &mut Vec<Shown<'t>>,
    tag: &'t Tag,
    depth: u64,
)
    requires room { length tag.now.attributes ≤ vec_capacity list.old }
    requires depth { depth < 2 ^ 62 }
    ensures printed { Prints out.old out.new (K.taken sink.old, K.faults sink.old) (K.taken sink.new, K.faults sink.new) (tag_lines depth tag.now) }
    ensures room { vec_capacity list.old ≤ vec_capacity list.new }
{
    print_opening(out, sink, tag, depth);
    print_attributes(alloc, out, sink, list, &tag.attributes, depth + 1);
}

/// Prints the lines of an element, before those of what stands inside it. The list for its attributes has room for them.
#[tactic(auto, using(crate::proofs::Pieces::prints_then))]
fn print_element<'t, K: Sink>(
    alloc: Global,
    out: &mut Out,
    sink: &mut K,
    list: &mut Vec<Shown<'t>>,
    tag: &'t Tag,
    depth: u64,
)
    requires room { length tag.now.attributes ≤ vec_capacity list.old }
    requires depth { depth < 2 ^ 62 }
    ensures printed { Prints out.old out.new (K.taken sink.old, K.faults sink.old) (K.taken sink.new, K.faults sink.new) (element_lines depth tag.now) }
    ensures room { vec_capacity list.old ≤ vec_capacity list.new }
{
    print_tag(alloc, out, sink, list, tag, depth);
    if is_template(tag) {
        out.indent(sink, depth + 1);
        out.put(sink, b"content\n");
    }
}

/// Prints the lines of an item, before those of what stands inside it. The document and contents have none. The list for
/// attributes has room for those of the item.
#[tactic(auto, using(crate::proofs::Pieces::prints_none))]
pub fn print_item<'t, K: Sink>(
    alloc: Global,
    out: &mut Out,
    sink: &mut K,
    list: &mut Vec<Shown<'t>>,
    view: NodeView<'t, '_>,
    depth: u64,
)
    requires room { attributes_in view ≤ vec_capacity list.old }
    requires depth { depth < 2 ^ 62 }
    ensures printed { (t : Tree) → HasTag t view.entry → Prints out.old out.new (K.taken sink.old, K.faults sink.old) (K.taken sink.new, K.faults sink.new) (lines_of t depth (shown view.entry)) }
    ensures room { vec_capacity list.old ≤ vec_capacity list.new }
{
    match view {
        NodeView::Doctype {
            name,
            public,
            system,
        } => print_doctype(out, sink, name, public, system, depth),
        NodeView::Element { tag, .. } => print_element(alloc, out, sink, list, tag, depth),
        NodeView::Text { runs } => print_text(out, sink, runs, depth),
        NodeView::Comment { text } => print_comment(out, sink, text, depth),
        NodeView::Document | NodeView::Contents => {}
    }
}
