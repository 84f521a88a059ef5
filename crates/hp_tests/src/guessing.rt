//! Guesses as an independent model makes them.

use crate::parts::chunk_of;
use hp_control::{Control, FactKind, FormattingEntry, OpenElements, Predictor, Question, Stack};
use hp_elements::{Mode, Rest};
use hp_predict::{Contrary, Prescan, Quiet};
use std::alloc::Global;
use std::mem;
use std::process::Abort;

/// How many bytes of a page stand before the chunk that is guessed for, the page, and the guess: the names of the open elements, the
/// current node first; the formatting list, its last entry first, with a star for a marker; the number of the form; mode; lexer.
type Guessed = (usize, &'static str, &'static str);

const GUESSES: &[Guessed] = &[
    (6, "<b><p>x</b>y", " p b body html; b;0;in body;data"),
    (
        15,
        "<table><tr><td>a</td></tr></table>b",
        " td tr tbody table body html; *;0;in cell;data",
    ),
    (
        14,
        "<template><td>a</template>b",
        " td template body html; * *;0;in cell;data",
    ),
    (2, "a\rb", " body html;;0;in body;data after CR"),
    (
        12,
        "<table><td>a<tr><th>b</table></ul></b>",
        " td tr tbody table ul b body html; * b;0;in cell;data",
    ),
    (
        33,
        "<DIV><Br><p class=\">\"><li</li><i>x",
        " i li p div body html; i;0;in body;data",
    ),
    (
        27,
        "<form><ul><form><li></form>x</p></li></ul>y</form>",
        " ul form p li ul form body html;;3;in body;data",
    ),
    (
        8,
        "<script>a<b</script>",
        " script body html;;0;text;script",
    ),
    (
        11,
        "<plaintext>a",
        " plaintext body html;;0;in body;plaintext",
    ),
    (
        10,
        "<textarea>a</textarea></blink></em>",
        " textarea blink em body html; em;0;text;rcdata",
    ),
    (
        33,
        "<my-tag><marquee><a href=x><nobr></MY></marquee></u>",
        " nobr a marquee my marquee u body html; nobr a * * u;0;in body;data",
    ),
    (
        35,
        "<select><template><table><template>é</template></table>",
        " template table template select body html; * *;0;in template;data",
    ),
    (0, "</b></i></b>x", " b i b body html; b i b;0;in body;data"),
];

fn put(rt: &impl Abort, line: &mut String, text: &str) {
    line.push_str(text).expect(rt, "there is memory");
}

fn put_names(rt: &impl Abort, line: &mut String, stack: &OpenElements) {
    for depth in 0..stack.len() {
        put(rt, line, " ");
        put(rt, line, stack.at(depth).name.as_str());
    }
}

fn put_entries(rt: &impl Abort, line: &mut String, list: &Stack<FormattingEntry>) {
    for depth in 0..list.len() {
        put(rt, line, " ");
        match list.at(depth) {
            FormattingEntry::Marker => put(rt, line, "*"),
            FormattingEntry::Element { tag, .. } => put(rt, line, tag.name.as_str()),
        }
    }
}

fn mode_word(mode: Mode) -> &'static str {
    match mode {
        Mode::InBody => "in body",
        Mode::InCell => "in cell",
        Mode::InTemplate => "in template",
        Mode::Text => "text",
        _ => "another mode",
    }
}

fn rest_word(rest: Option<Rest>) -> &'static str {
    match rest {
        Some(Rest::Data) => "data",
        Some(Rest::Rcdata) => "rcdata",
        Some(Rest::Script) => "script",
        Some(Rest::Plaintext) => "plaintext",
        _ => "another state",
    }
}

/// Puts a line about a guessed state.
fn describe(rt: &impl Abort, line: &mut String, state: &Control) {
    put_names(rt, line, &state.stack);
    put(rt, line, ";");
    put_entries(rt, line, &state.formatting);
    put(rt, line, ";");
    match state.form {
        None => put(rt, line, "0"),
        Some(3) => put(rt, line, "3"),
        Some(_) => put(rt, line, "another form"),
    }
    put(rt, line, ";");
    put(rt, line, mode_word(state.mode));
    put(rt, line, ";");
    put(rt, line, rest_word(state.lex.machine.state.rest()));
    if state.lex.machine.after_cr {
        put(rt, line, " after CR");
    }
}

/// Whether the guess of a row is the one that stands there. What is owned is kept to the end of the test.
fn is_guessed(rt: &impl Abort, alloc: Global, (before, text, wanted): Guessed) -> bool {
    let chunk = chunk_of(rt, text, before, text.len());
    let prescan = Prescan::new(alloc, &chunk).expect(rt, "there is memory");
    let mut line = String::new(alloc);
    describe(rt, &mut line, prescan.state());
    let well = line.as_str() == wanted;
    mem::forget(line);
    mem::forget(prescan);
    well
}

fn compare(rt: &impl Abort, alloc: Global, rows: &[Guessed]) {
    for row in rows {
        assert!(rt; is_guessed(rt, alloc, *row), "{}", row.1);
    }
}

#[test]
fn guesses_as_the_model(rt: HostRuntime) {
    compare(&rt, rt.alloc(), GUESSES);
}

/// What takes memory to say is the name of the last start tag.
#[test]
fn predictors_without_a_text_answer(rt: HostRuntime) {
    let question = Question::Fact {
        which: FactKind::LastTag,
    };
    let quiet = Quiet.say(rt.alloc(), &question);
    let contrary = Contrary.say(rt.alloc(), &question);
    let well = quiet.is_ok() && contrary.is_ok();
    mem::forget(question);
    mem::forget(quiet);
    mem::forget(contrary);
    assert!(rt; well);
}
