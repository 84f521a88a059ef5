//! Pages cut at tags, by size and at listed places, each public call with ample memory.
use hp_cut::{cuts_at_tags, cuts_by_size, cuts_listed};
use hp_text::check_page;
use std::alloc::Global;
use std::mem;
use std::process::Abort;

const PAGE: &str = "<!DOCTYPE html>
<html lang=\"en\">
<head>
<meta charset=\"utf-8\">
<title>Price &amp; stock</title>
<style>td > a { color: red }</style>
</head>
<body>
<h1>Stock</h1>
<ul>
<li>Caf&eacute;
<li><a href=\"?a=1&b=2\">Link</a>
</ul>
<table>
<tr><td>1<td>2
</table>
<form action=\"/s\"><input name=q></form>
<script>if (a < b && c) d();</script>
</body>
</html>
";

/// Where the page is cut.
const TAGS: &[u64] = &[96, 141, 222, 272, 320];

/// 63 bytes `a`, a code point of two bytes, and 63 bytes `b`.
const ACCENTED: &str = "aaaaaaaaaaaaaaaaaaaaaaaaaaaaaaaaaaaaaaaaaaaaaaaaaaaaaaaaaaaaaaaé\
bbbbbbbbbbbbbbbbbbbbbbbbbbbbbbbbbbbbbbbbbbbbbbbbbbbbbbbbbbbbbbb";

/// Whether the page is cut at tags, or else by size, at these places, and a copy and cuts that are listed are the same.
fn is_cut(rt: &impl Abort, alloc: Global, text: &str, at_tags: bool, places: &[u64]) -> bool {
    let page = check_page(text.as_bytes()).expect(rt, "the page is UTF-8");
    let cuts = if at_tags {
        cuts_at_tags(alloc, page, 64)
    } else {
        cuts_by_size(alloc, page, 64)
    };
    let cuts = cuts.expect(rt, "there is memory");
    let copy = cuts.copy(alloc).expect(rt, "there is memory");
    let listed = cuts_listed(alloc, page, copy.places()).expect(rt, "there is memory");
    let well = listed.places() == places;
    mem::forget(cuts);
    mem::forget(copy);
    mem::forget(listed);
    well
}

#[test]
fn pages_are_cut(rt: HostRuntime) {
    let tagged = is_cut(&rt, rt.alloc(), PAGE, true, TAGS);
    assert!(rt; tagged && is_cut(&rt, rt.alloc(), ACCENTED, false, &[65]));
}
