//! Pages, and the elements that selectors match in their trees.

ghost use Rattle.std.specs.Prelude.{All};
ghost use Rattle.hp_arena.specs.Readers.{IsAt};

use hp_arena::{At, NodeView, Tree};
use hp_fragment::parse_whole;
use hp_select::{SelectRefusal, Selector, select};
use hp_text::check_page;
use std::alloc::Global;
use std::mem;
use std::process::Abort;

/// A page, a selector, and the elements that it matches, each told as its name and the values of its attributes.
type Selected = (&'static str, &'static str, &'static str);

const LISTS: &str = "<ul class=\"a b\"><li id=x>1<li>2</ul><li>3";

const NESTED: &str =
    "<div><p id=1><i><b id=2></b></i></p><section><p><b id=3></b><i></i><div><b id=4>";

const INNER: &str =
    "<div><template><b class=c></b><template><b id=in></template></template><b id=out>";

const FOREIGN: &str =
    "<svg viewbox=1 xlink:href=h><foreignObject><A HREF=u>x</A></foreignObject><a></a></svg>";

const SELECTED: &[Selected] = &[
    (LISTS, "ul.b > li", "li x, li, "),
    (LISTS, "li, #x", "li x, li, li, "),
    (LISTS, "li , li", "li x, li, li, "),
    (LISTS, "body li", "li x, li, li, "),
    (LISTS, "body > li", "li, "),
    (LISTS, "UL.a LI#x[id]", "li x, "),
    (LISTS, "ul.A li", ""),
    (LISTS, ".bb", ""),
    (LISTS, "ul[class=\"a b\"]", "ul a b, "),
    (LISTS, "[class=\"a\"]", ""),
    (LISTS, "html", "html, "),
    (LISTS, "head,body>ul>*", "head, li x, li, "),
    (LISTS, "p", ""),
    (NESTED, "p b", "b 2, b 3, "),
    (NESTED, "p > b", "b 3, "),
    (NESTED, "div > p b", "b 2, "),
    (NESTED, "div p i b", "b 2, "),
    (NESTED, "div div b, p > i", "i, i, b 4, "),
    (NESTED, "div > section b", "b 3, b 4, "),
    (NESTED, "section > b", ""),
    (NESTED, "b b", ""),
    (INNER, "template b", ""),
    (INNER, "b", "b c, b in, b out, "),
    (INNER, "div > b", "b out, "),
    (INNER, "template template", ""),
    (INNER, "div template, template", "template, template, "),
    (FOREIGN, "[viewBox], [viewbox]", "svg 1 h, "),
    (FOREIGN, "[HREF], [href]", "a u, "),
    (FOREIGN, "foreignObject A", "a u, "),
    (FOREIGN, "foreignobject A", ""),
    (FOREIGN, "svg > a", "a, "),
    (FOREIGN, "svg > A", ""),
];

const MALFORMED: &[&str] = &[
    "",
    " ",
    "ul >",
    " ul",
    "ul ",
    "ul,",
    ",ul",
    "ul,,li",
    "ul > > li",
    "> li",
    "a*",
    "*a",
    "#",
    ".",
    "#1",
    "[x",
    "[x=v]",
    "[x=\"v\"",
    "[x=\"v\\\"]",
    "[ x]",
    "[x ]",
    "a:b",
    "a\tb",
    "a+b",
    "é",
    "[x=\"v\"]a",
    "1",
];

/// Whether an item is told as a text is, which goes on behind that.
fn told_at<'w>(view: NodeView<'_, '_>, wanted: &'w str) -> Option<&'w str> {
    let NodeView::Element { tag, .. } = view else {
        return None;
    };
    let mut left = wanted.strip_prefix(tag.name.as_str())?;
    for attribute in tag.attributes.iter() {
        left = left
            .strip_prefix(' ')?
            .strip_prefix(attribute.value.as_str())?;
    }
    left.strip_prefix(", ")
}

/// Whether items are told as a text is, whole.
fn told(tree: &Tree<'_>, items: &[At], wanted: &str) -> bool
    requires { All (IsAt tree.now) items.now }
{
    let mut left = wanted;
    for at in items {
        match told_at(tree.view(*at), left) {
            Some(behind) => left = behind,
            None => return false,
        }
    }
    left.is_empty()
}

/// Whether the selector matches those elements of the page.
fn is_selected_as(
    rt: &impl Abort,
    alloc: Global,
    page: &str,
    selector: &str,
    wanted: &str,
) -> bool {
    let page = check_page(page.as_bytes()).expect(rt, "the page is UTF-8");
    let tree = parse_whole(alloc, page).expect(rt, "there is memory");
    let Ok(selector) = Selector::read(alloc, selector) else {
        mem::forget(tree);
        return false;
    };
    let found = select(alloc, &tree, &selector).expect(rt, "there is memory");
    let well = told(&tree, found.as_slice(), wanted);
    mem::forget(found);
    mem::forget(selector);
    mem::forget(tree);
    well
}

#[test]
fn selected_elements(rt: HostRuntime) {
    for (page, selector, wanted) in SELECTED {
        assert!(&rt;
            is_selected_as(&rt, rt.alloc(), page, selector, wanted),
            "{selector} over {page}"
        );
    }
}

#[test]
fn malformed_selectors(rt: HostRuntime) {
    for text in MALFORMED {
        let read = Selector::read(rt.alloc(), text);
        let is_malformed = matches!(&read, Err(SelectRefusal::Malformed));
        mem::forget(read);
        assert!(&rt; is_malformed, "{text}");
    }
}
