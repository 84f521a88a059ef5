//! Pages, and the HTML text of their trees.
use hp_fragment::parse_whole;
use hp_serial::html_text;
use hp_text::check_page;
use std::alloc::Global;
use std::mem;
use std::process::Abort;

/// A page, and the HTML text of its tree.
type Shown = (&'static str, &'static str);

const SHOWN: &[Shown] = &[
    ("", "<html><head></head><body></body></html>"),
    (
        "<p title=\"a&quot;b\">x&lt;&nbsp;<br>",
        "<html><head></head><body><p title=\"a&quot;b\">x&lt;&nbsp;<br></p></body></html>",
    ),
    (
        "<!DOCTYPE html><svg viewbox=1 xlink:href=h></svg><script>a<b</script>",
        "<!DOCTYPE html><html><head></head><body><svg viewBox=\"1\" xlink:href=\"h\"></svg><script>a<b</script></body></html>",
    ),
    (
        "<template><td>&amp;</template><!--c-->",
        "<html><head><template><td>&amp;</td></template><!--c--></head><body></body></html>",
    ),
    (
        "<svg xmlns=x xmlns:xlink=y xml:lang=z><br>é\u{a9}<plaintext>&<",
        "<html><head></head><body><svg xmlns=\"x\" xmlns:xlink=\"y\" xml:lang=\"z\"></svg><br>é\u{a9}<plaintext>&<</plaintext></body></html>",
    ),
];

/// Whether the page's tree has that HTML text.
fn is_shown_as(rt: &impl Abort, alloc: Global, page: &str, html: &str) -> bool {
    let page = check_page(page.as_bytes()).expect(rt, "the page is UTF-8");
    let tree = parse_whole(alloc, page).expect(rt, "there is memory");
    let text = html_text(alloc, &tree).expect(rt, "there is memory");
    let well = text.as_slice() == html.as_bytes();
    mem::forget(text);
    mem::forget(tree);
    well
}

fn all_shown(rt: &impl Abort, alloc: Global, pages: &[Shown]) {
    for (page, html) in pages {
        assert!(rt; is_shown_as(rt, alloc, page, html), "over {page}");
    }
}

#[test]
fn pages_as_html(rt: HostRuntime) {
    all_shown(&rt, rt.alloc(), SHOWN);
}
