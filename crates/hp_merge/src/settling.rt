//! What a chunk changes of the state below it, once what it keeps of its own stands on top.
ghost use Rattle.std.specs.Prelude.{◌≡◌, ◌+◌, ◌<◌, ◌≤◌, ◌++◌, ◌&&◌, not, take, drop, length};
ghost use Rattle.hp_control.specs.Apply.{lex_after};
ghost use Rattle.hp_control.specs.Walks.{cleared, cleared_by};
ghost use Rattle.hp_merge.specs.Parts.{settled, form_over, IsFormCounted, IsPending};

use crate::parts::Parts;
use hp_control::{Change, FormChange, FormattingEntry, OpenElements, Stack};
use hp_elements::Text;
use hp_tokens::{LexState, Machine};

/// Takes off what the chunk took off, and sets what it set. The pending table characters are told, where the chunk has any of its own.
pub(crate) fn settle(
    change: Change,
    next: u64,
    pending: Option<Text<'static>>,
    parts: Parts,
) -> Parts
    requires next { next ≡ parts.next + change.made }
    requires pending { IsPending change.pending parts.pending pending }
    requires form { IsFormCounted parts.next change.form }
    requires stack { length change.stack ≤ length parts.stack }
    requires list { length change.formatting ≤ length parts.formatting }
    ensures { result ≡ settled change parts }
{
    let mut stack = parts.stack;
    take_popped(&mut stack, change.stack.len(), change.popped);
    let mut formatting = parts.formatting;
    clear_older(&mut formatting, change.formatting.len(), change.cuts);
    Parts {
        lex: lex_after(change.last_tag_set, change.lex, parts.lex),
        mode: change.mode,
        original: change.original,
        templates: parts.templates,
        stack,
        formatting,
        head: parts.head,
        form: form_after(change.form, parts.form, parts.next),
        frameset_ok: is_still_ok(parts.frameset_ok, change.frameset_off),
        quirks: parts.quirks,
        pending: pending.unwrap_or(parts.pending),
        skip_lf: change.skip_lf,
        next,
    }
}

/// Takes so many elements out from directly below the own ones; all where there are fewer.
fn take_popped(stack: &mut OpenElements, own: usize, popped: u64)
    requires { own ≤ length stack.old }
    ensures { stack.new ≡ take own stack.old ++ drop popped (drop own stack.old) }
{
    let gone = popped.min((stack.len() - own) as u64) as usize;
    stack.take_out_many(own, gone);
}

/// Clears the list below the own entries so many times.
fn clear_older(list: &mut Stack<FormattingEntry>, own: usize, cuts: u64)
    requires { own ≤ length list.old }
    ensures { list.new ≡ take own list.old ++ cleared_by cuts (drop own list.old) }
{
    let rest = rest_from(list, own, cuts);
    list.take_out_many(own, rest - own);
}

/// Where the list goes on that begins at a depth, after so many clearings.
fn rest_from(list: &Stack<FormattingEntry>, from: usize, cuts: u64) -> usize
    requires { from ≤ length list.now }
    ensures above { from ≤ result }
    ensures within { result ≤ length list.now }
    ensures cleared { drop result list.now ≡ cleared_by cuts (drop from list.now) }
{
    let mut rest = from;
    for _cut in 0..cuts {
        rest = next_cut(list, rest);
    }
    rest
}

/// Where the list goes on that begins at a depth, after one more clearing.
fn next_cut(list: &Stack<FormattingEntry>, from: usize) -> usize
    requires { from ≤ length list.now }
    ensures above { from ≤ result }
    ensures within { result ≤ length list.now }
    ensures cleared { drop result list.now ≡ cleared (drop from list.now) }
{
    for at in from..list.len() {
        if let FormattingEntry::Marker = list.at(at) {
            return at + 1;
        }
    }
    list.len()
}

/// The lexer's part: the chunk's, and where that told no start tag, the older last one.
fn lex_after(is_set: bool, own: LexState, older: LexState) -> LexState
    ensures { result ≡ lex_after is_set own older }
{
    if is_set {
        return own;
    }
    let LexState { machine, ahead } = own;
    let LexState {
        machine: before,
        ..
    } = older;
    let Machine { last_tag, .. } = before;
    let machine = Machine {
        last_tag,
        ..machine
    };
    LexState { machine, ahead }
}

/// The form pointer, where own elements count from `next` on.
fn form_after(change: FormChange, older: Option<u64>, next: u64) -> Option<u64>
    requires { IsFormCounted next change }
    ensures { result ≡ form_over next change older }
{
    match change {
        FormChange::Kept => older,
        FormChange::Cleared => None,
        FormChange::Own(number) => Some(next + number),
    }
}

fn is_still_ok(ok: bool, off: bool) -> bool
    ensures { result ≡ (ok && not off) }
{
    ok && !off
}
