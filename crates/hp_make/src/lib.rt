//! Pages for tests and measurements: the page of a seed, of any length.
#![tactic(auto)]

ghost use Rattle.std.specs.Prelude.{◌≡◌, ◌<◌, ◌≤◌, IfOk, IsAscii, length};
ghost use Rattle.hp_make.specs.Pages as pages;
ghost use Rattle.hp_make.specs.Pages.{IsPage};

pub use std::alloc::AllocError as NoMemory;
use std::alloc::Global;

/// The page of a seed, of so many bytes. Below 15 bytes it is all `x`. Otherwise the doctype comes first, and then pieces of markup: each
/// number of the seed's row picks one by its highest four bits, and the first that doesn't fit gives way to as many `x` as are missing.
/// It fails only for want of memory.
pub fn make_page(alloc: Global, seed: u64, bytes: u32) -> Result<Vec<u8>, NoMemory>
    ensures exact { IfOk result (λ page. page.items ≡ pages.page_of seed bytes) }
    ensures law { IfOk result (λ page. 15 ≤ bytes → IsPage seed bytes page.items) }
    ensures length { IfOk result (λ page. length page.items ≡ bytes) }
    ensures ascii { IfOk result (λ page. IsAscii page.items) }
{
    let size = bytes as usize;
    let mut page = Vec::with_capacity(alloc, size)?;
    if size < 15 {
        page.resize(size, b'x')?;
        return Ok(page);
    }
    page.extend_from_slice(b"<!DOCTYPE html>")?;
    let mut number = seed;
    loop {
        number = next(number);
        let piece = piece(number);
        if piece.len() > size - page.len() {
            page.resize(size, b'x')?;
            return Ok(page);
        }
        page.extend_from_slice(piece)?;
    }
}

/// The number after this one in a seed's row.
fn next(number: u64) -> u64
    ensures { result ≡ pages.next number }
{
    number
        .wrapping_mul(6364136223846793005)
        .wrapping_add(1442695040888963407)
}

/// The piece that a number picks.
fn piece(number: u64) -> &'static [u8]
    ensures exact { result.now ≡ pages.piece number }
    ensures some { 0 < length result.now }
{
    match number / (1 << 60) {
        0 => b"<p>one",
        1 => b"text ",
        2 => b"<b>bold</b>",
        3 => b"<p><b>a<i>b</b>c</i>",
        4 => b"<ul><li>one<li>two</ul>",
        5 => b"<table><tr><td>1<td>2</table>",
        6 => b"<table>x<tr><td>y</table>",
        7 => b"<a href=\"?a=1&amp;b=2\">link</a>",
        8 => b"caf&eacute; &#8364;",
        9 => b"<!-- note -->",
        10 => b"<script>if(a<b){c()}</script>",
        11 => b"<h2>head</h2>",
        12 => b"<svg><circle r=\"1\"/></svg>",
        13 => b"<select><option>1<option>2</select>",
        14 => b"<form><input name=q></form>",
        _ => b"<div class=\"c\">d</div>",
    }
}
