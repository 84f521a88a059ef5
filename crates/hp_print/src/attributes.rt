//! The attributes of an element, in the order in which they are printed.

ghost use Rattle.std.specs.Prelude.{◌≡◌, ◌^◌, ◌++◌, ◌<◌, ◌≤◌, IfOk, IfSome, IsTrue, length, vec_capacity};
ghost use Rattle.std.specs.List.{insert};
ghost use Rattle.std.specs.Str.{chars};
ghost use Rattle.hp_print.specs.Order.{by_units, comes_before, in_order, placed, printed_name, space_word, weight, InOrder};
ghost use Rattle.hp_print.specs.Out.{Prints};
ghost use Rattle.hp_print.specs.Print.{attribute_line, attribute_lines};
ghost use Rattle.hp_print.specs.Shown.{attribute_of, attributes_of, follows};

use crate::output::Out;
use hp_elements::{Attribute, AttributeSpace, Chain, NoMemory};
use hp_text::Sink;
use std::alloc::Global;
use std::cmp::Ordering;

/// An attribute by its texts.
#[derive(Clone, Copy)]
pub struct Shown<'t> {
    pub space: AttributeSpace,
    pub name: &'t str,
    pub value: &'t str,
}

impl<'t> Shown<'t> {
    /// The texts of an attribute.
    fn of(attribute: &'t Attribute) -> Shown<'t>
        ensures { attribute_of result ≡ attribute.now }
    {
        Shown {
            space: attribute.space,
            name: attribute.name.as_str(),
            value: attribute.value.as_str(),
        }
    }
}

/// What stands before the local name of an attribute.
fn space_text(space: AttributeSpace) -> &'static str
    ensures { result.now ≡ space_word space }
{
    match space {
        AttributeSpace::Plain => "",
        AttributeSpace::Xlink => "xlink ",
        AttributeSpace::Xml => "xml ",
        AttributeSpace::Xmlns => "xmlns ",
    }
}

/// Prints an attribute.
#[inline(always)]
fn print_attribute<K: Sink>(out: &mut Out, sink: &mut K, attribute: Shown<'_>, depth: u64)
    requires { depth < 2 ^ 63 }
    ensures { Prints out.old out.new (K.taken sink.old, K.faults sink.old) (K.taken sink.new, K.faults sink.new) (attribute_line depth (attribute_of attribute.entry)) }
{
    match attribute.space {
        AttributeSpace::Plain => out.put_pair(sink, depth, attribute.name, attribute.value),
        _ => print_spaced(out, sink, attribute, depth),
    }
}

/// Prints an attribute of any namespace.
#[tactic(auto, using(crate::proofs::Pieces::prints_then))]
#[inline(never)]
fn print_spaced<K: Sink>(out: &mut Out, sink: &mut K, attribute: Shown<'_>, depth: u64)
    requires { depth < 2 ^ 63 }
    ensures { Prints out.old out.new (K.taken sink.old, K.faults sink.old) (K.taken sink.new, K.faults sink.new) (attribute_line depth (attribute_of attribute.entry)) }
{
    out.indent(sink, depth);
    out.put(sink, space_text(attribute.space).as_bytes());
    out.put_text(sink, attribute.name);
    out.put(sink, b"=\"");
    out.put_text(sink, attribute.value);
    out.put(sink, b"\"\n");
}

/// A number by which code points are ordered as their UTF-16 code units are.
fn weight(c: char) -> u32
    ensures { result ≡ weight c }
{
    let code = c as u32;
    if 0xE000 <= code && code < 0x1_0000 {
        code + 0x11_0000
    } else {
        code
    }
}

/// How a name with the word before it compares with another, by UTF-16 code units.
fn compare(word: &str, name: &str, other_word: &str, other_name: &str) -> Ordering
    ensures { result ≡ by_units (chars word.now ++ chars name.now) (chars other_word.now ++ chars other_name.now) }
{
    let ours = word.chars().chain(name.chars()).map(weight);
    let theirs = other_word.chars().chain(other_name.chars()).map(weight);
    ours.cmp(theirs)
}

/// How two names compare whose first letters are ASCII and differ.
#[inline(always)]
fn compare_fronts(name: &str, other: &str) -> Option<Ordering>
    ensures { IfSome result (λ order. order ≡ by_units (chars name.now) (chars other.now)) }
{
    let ours = name.as_bytes();
    let theirs = other.as_bytes();
    if ours.is_empty() || theirs.is_empty() {
        return None;
    }
    let first = ours[0];
    let second = theirs[0];
    if first < 128 && second < 128 && first != second {
        Some(first.cmp(&second))
    } else {
        None
    }
}

/// How the printed names of two attributes compare: their first letters may tell.
#[inline(always)]
fn compare_names(first: Shown<'_>, second: Shown<'_>) -> Ordering
    ensures { result ≡ by_units (printed_name (attribute_of first.entry)) (printed_name (attribute_of second.entry)) }
{
    if let (AttributeSpace::Plain, AttributeSpace::Plain) = (first.space, second.space) {
        if let Some(order) = compare_fronts(first.name, second.name) {
            return order;
        }
    }
    compare_whole(first, second)
}

/// The same by all their letters.
#[inline(never)]
fn compare_whole(first: Shown<'_>, second: Shown<'_>) -> Ordering
    ensures { result ≡ by_units (printed_name (attribute_of first.entry)) (printed_name (attribute_of second.entry)) }
{
    let word = space_text(first.space);
    let other_word = space_text(second.space);
    compare(word, first.name, other_word, second.name)
}

/// The texts of attributes, as these stand.
#[inline(never)]
fn texts_of<'t>(alloc: Global, attributes: &'t Chain<Attribute>) -> Result<Vec<Shown<'t>>, NoMemory>
    ensures { IfOk result (λ shown. attributes_of shown.items ≡ attributes.now) }
{
    let mut shown = Vec::with_capacity(alloc, attributes.len())?;
    for attribute in attributes.iter() {
        shown.push(Shown::of(attribute))?;
    }
    Ok(shown)
}

/// Whether an attribute doesn't come before the one that it follows, if any.
#[inline(always)]
fn follows(before: Option<Shown<'_>>, shown: Shown<'_>) -> bool
    ensures { result ≡ follows before.entry shown.entry }
{
    match before {
        None => true,
        Some(first) => match compare_names(shown, first) {
            Ordering::Less => false,
            Ordering::Equal | Ordering::Greater => true,
        },
    }
}

/// Whether attributes stand in the order in which they are printed.
#[inline(never)]
fn is_in_order(attributes: &Chain<Attribute>) -> bool
    ensures { IsTrue result → in_order attributes.now ≡ attributes.now }
{
    let mut before: Option<Shown<'_>> = None;
    for attribute in attributes.iter() {
        let shown = Shown::of(attribute);
        if !follows(before, shown) {
            return false;
        }
        before = Some(shown);
    }
    true
}

/// Prints the attributes of an element as they stand.
#[inline(always)]
fn print_unsorted<K: Sink>(out: &mut Out, sink: &mut K, attributes: &Chain<Attribute>, depth: u64)
    requires { depth < 2 ^ 63 }
    ensures { Prints out.old out.new (K.taken sink.old, K.faults sink.old) (K.taken sink.new, K.faults sink.new) (attribute_lines depth attributes.now) }
{
    for attribute in attributes.iter() {
        print_attribute(out, sink, Shown::of(attribute), depth);
    }
}

/// Attributes in the order in which they are printed are in order by the UTF-16 code units of their printed names.
pub fn attributes_are_in_order()
    ensures { InOrder }
{}

/// Prints attributes as they stand.
fn print_all<K: Sink>(out: &mut Out, sink: &mut K, attributes: &[Shown<'_>], depth: u64)
    requires { depth < 2 ^ 63 }
    ensures { Prints out.old out.new (K.taken sink.old, K.faults sink.old) (K.taken sink.new, K.faults sink.new) (attribute_lines depth (attributes_of attributes.now)) }
{
    for index in 0..attributes.len() {
        print_attribute(out, sink, attributes[index], depth);
    }
}

/// Where an attribute goes among others that stand in order: before the first that it comes before.
fn place_of(sorted: &[Shown<'_>], shown: Shown<'_>) -> usize
    ensures within { result ≤ length sorted.now }
    ensures place { placed comes_before (attributes_of sorted.now) (attribute_of shown.entry) ≡ attributes_of (insert sorted.now result shown.entry) }
{
    let mut at = 0;
    while at < sorted.len() && follows(Some(sorted[at]), shown) {
        at += 1;
    }
    at
}

/// Puts attributes into order, one after the other. There is room for them.
#[inline(never)]
fn place_all<'t>(sorted: &mut Vec<Shown<'t>>, attributes: &'t Chain<Attribute>)
    requires { length attributes.now ≤ vec_capacity sorted.old }
    ensures items { attributes_of sorted.new.items ≡ in_order attributes.now }
    ensures capacity { vec_capacity sorted.old ≤ vec_capacity sorted.new }
{
    sorted.clear();
    for attribute in attributes.iter() {
        let shown = Shown::of(attribute);
        let at = place_of(sorted.as_slice(), shown);
        let Ok(()) = sorted.insert(at, shown) else {
            unreachable!()
        };
    }
}

/// Attributes in the order in which they are printed, by a sort.
#[inline(never)]
fn sorted<'t>(alloc: Global, attributes: &'t Chain<Attribute>) -> Result<Vec<Shown<'t>>, NoMemory>
    ensures { IfOk result (λ sorted. attributes_of sorted.items ≡ in_order attributes.now) }
{
    let mut sorted = texts_of(alloc, attributes)?;
    sorted.sort_by(|first, second| compare_names(*first, *second))?;
    Ok(sorted)
}

/// Prints two attributes in their order.
#[inline(never)]
fn print_two<K: Sink>(out: &mut Out, sink: &mut K, attributes: &Chain<Attribute>, depth: u64)
    requires two { length attributes.now ≡ 2 }
    requires depth { depth < 2 ^ 63 }
    ensures { Prints out.old out.new (K.taken sink.old, K.faults sink.old) (K.taken sink.new, K.faults sink.new) (attribute_lines depth (in_order attributes.now)) }
{
    let mut rest = attributes.iter();
    let Some(first) = rest.next() else { return };
    let Some(second) = rest.next() else { return };
    let first = Shown::of(first);
    let second = Shown::of(second);
    if follows(Some(first), second) {
        print_both(out, sink, first, second, depth);
    } else {
        print_both(out, sink, second, first, depth);
    }
}

/// Prints one attribute and then another.
#[tactic(auto, using(crate::proofs::Pieces::prints_then))]
fn print_both<K: Sink>(out: &mut Out, sink: &mut K, first: Shown<'_>, second: Shown<'_>, depth: u64)
    requires { depth < 2 ^ 63 }
    ensures { Prints out.old out.new (K.taken sink.old, K.faults sink.old) (K.taken sink.new, K.faults sink.new) (attribute_line depth (attribute_of first.entry) ++ attribute_line depth (attribute_of second.entry)) }
{
    print_attribute(out, sink, first, depth);
    print_attribute(out, sink, second, depth);
}

/// More attributes than these are sorted where there is memory for it: putting them into order one by one takes time by the square
/// of their number.
const FEW: usize = 20;

/// Prints the attributes of an element in their order. Where they stand in order already, nothing is sorted. The list has
/// room for them.
#[inline(always)]
pub fn print_attributes<'t, K: Sink>(
    alloc: Global,
    out: &mut Out,
    sink: &mut K,
    list: &mut Vec<Shown<'t>>,
    attributes: &'t Chain<Attribute>,
    depth: u64,
)
    requires room { length attributes.now ≤ vec_capacity list.old }
    requires depth { depth < 2 ^ 63 }
    ensures printed { Prints out.old out.new (K.taken sink.old, K.faults sink.old) (K.taken sink.new, K.faults sink.new) (attribute_lines depth (in_order attributes.now)) }
    ensures room { vec_capacity list.old ≤ vec_capacity list.new }
{
    if attributes.len() == 2 {
        print_two(out, sink, attributes, depth);
        return;
    }
    if attributes.len() < 2 || is_in_order(attributes) {
        print_unsorted(out, sink, attributes, depth);
        return;
    }
    if attributes.len() > FEW {
        if let Ok(sorted) = sorted(alloc, attributes) {
            print_all(out, sink, sorted.as_slice(), depth);
            return;
        }
    }
    place_all(list, attributes);
    print_all(out, sink, list.as_slice(), depth);
}
