//! The tokens of short texts, whole and cut at each place, as an independent lexer gives them. Memory is expected, and what is owned is
//! kept to the end of the test.
ghost use Rattle.std.specs.Prelude.{◌≡◌, not};
ghost use Rattle.hp_lexer.specs.Standing.{is_answered};

use crate::cases::{CASES, Texts};
use crate::markup::MARKUP;
use crate::raw::RAW;
use crate::tags::TAGS;
use crate::teller::Teller;
use hp_elements::{Known, Name, Rest};
use hp_lexer::{Asked, Cursor, Lexer, Step};
use hp_tokens::ORIGIN;
use std::alloc::Global;
use std::mem;
use std::process::Abort;

/// Tells the next tokens, or answers a question; and answers whether the text is used up.
fn tell_next(
    rt: &impl Abort,
    alloc: Global,
    lexer: &mut Lexer,
    foreign: bool,
    input: &mut Cursor<'_>,
    teller: &mut Teller<'_>,
) -> bool {
    assert!(rt; !is_asking(lexer));
    assert!(rt; lexer.lex.ahead.len_bytes() <= input.place());
    match lexer.next(alloc, input).expect(rt, "there is memory") {
        Step::AtCut => return true,
        Step::AskCdata => lexer.answer_cdata(foreign),
        Step::AskLastTag => {
            let name = Name::of_known(Known::SCRIPT);
            lexer
                .answer_last_tag(alloc, &name)
                .expect(rt, "there is memory");
            mem::forget(name);
        }
        Step::Tokens { began, tokens } => {
            teller.tell_all(tokens.as_slice(), began);
            mem::forget(tokens);
        }
    }
    false
}

/// Tells the tokens of a piece of a text.
fn tell_piece(
    rt: &impl Abort,
    alloc: Global,
    lexer: &mut Lexer,
    foreign: bool,
    piece: &str,
    teller: &mut Teller<'_>,
) {
    assert!(rt; piece.len() <= 1000);
    let mut input = Cursor::of_str(piece);
    for _ in 0..1000 {
        if tell_next(rt, alloc, lexer, foreign, &mut input, teller) {
            return;
        }
    }
    panic!(rt; "{piece} isn't read to its end");
}

/// Whether `<![CDATA[` was read, and the answer is still to be told.
fn is_asking(lexer: &Lexer) -> bool
    ensures { result ≡ not (is_answered lexer.now.asked) }
{
    match lexer.asked {
        Asked::Cdata => true,
        _ => false,
    }
}

/// A lexer that goes on from the state of another.
fn resumed(rt: &impl Abort, alloc: Global, lexer: &Lexer) -> Lexer {
    match lexer.asked {
        Asked::Nothing => {
            let state = lexer.state(alloc).expect(rt, "there is memory");
            let next = Lexer::from_state(alloc, &state).expect(rt, "there is memory");
            mem::forget(state);
            next
        }
        _ => panic!(rt; "a question is open at the cut"),
    }
}

/// Tells the tokens of the end of input, of which no place is wanted.
fn tell_end(rt: &impl Abort, alloc: Global, lexer: Lexer, teller: &mut Teller<'_>) {
    assert!(rt; lexer.lex.ahead.len_bytes() <= ORIGIN);
    match lexer.asked {
        Asked::Nothing => {
            let tokens = lexer.finish(alloc).expect(rt, "there is memory");
            teller.tell_all(tokens.as_slice(), 0);
            mem::forget(tokens);
        }
        _ => panic!(rt; "a question is open at the end"),
    }
}

/// Whether the tokens of a text in two pieces, begun in the state of the others beside it, are those that are wanted; another lexer goes on
/// with the second piece. Where that isn't empty, places are passed over.
fn is_lexed(
    rt: &impl Abort,
    alloc: Global,
    begun: &Texts,
    (text, tokens): (&str, &str),
    cut: usize,
) -> bool {
    let mut teller = Teller {
        left: tokens,
        well: true,
        in_run: false,
        with_places: cut == text.len(),
    };
    let mut lexer = Lexer::at_rest(begun.rest, false);
    let (first, second) = text.split_at_checked(cut).unwrap_or((text, ""));
    tell_piece(rt, alloc, &mut lexer, begun.foreign, first, &mut teller);
    let mut next = resumed(rt, alloc, &lexer);
    mem::forget(lexer);
    tell_piece(rt, alloc, &mut next, begun.foreign, second, &mut teller);
    tell_end(rt, alloc, next, &mut teller);
    teller.well && teller.left.is_empty()
}

/// Compares a text, whole and cut at each place, with its tokens.
fn compare_cut(rt: &impl Abort, alloc: Global, begun: &Texts, text: &str, tokens: &str) {
    for cut in 0..text.len().saturating_add(1) {
        if text.is_char_boundary(cut) {
            assert!(rt;
                is_lexed(rt, alloc, begun, (text, tokens), cut),
                "{text} cut at {cut}"
            );
        }
    }
}

fn compare_texts(rt: &impl Abort, alloc: Global, texts: &Texts) {
    for row in texts.rows.split('~') {
        let (text, tokens) = row
            .split_once('|')
            .expect(rt, "a bar stands before the tokens");
        compare_cut(rt, alloc, texts, text, tokens);
    }
}

fn compare_all(rt: &impl Abort, alloc: Global, table: &[Texts]) {
    for texts in table {
        compare_texts(rt, alloc, texts);
    }
}

#[test]
fn lexes_as_the_standard_says_whole_and_cut_at_each_place(rt: HostRuntime) {
    let alloc = rt.alloc();
    compare_all(&rt, alloc, CASES);
    compare_all(&rt, alloc, TAGS);
    compare_all(&rt, alloc, RAW);
    compare_all(&rt, alloc, MARKUP);
}
