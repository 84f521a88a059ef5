//! Runs of white space, read straight from the page.
ghost use Rattle.std.specs.Prelude.{◌≡◌, ◌≤◌, ◌<◌, [], map, length, true, IfSome, IfNone};
ghost use Rattle.std.specs.List.{list_all};
ghost use Rattle.hp_tokens.specs.Advancing.{held, lexing, Turned};
ghost use Rattle.hp_tokens.specs.Rows.{character, is_blank};
ghost use Rattle.hp_tokens.specs.declared.rows.Turn.TheVariants as turns;
ghost use Rattle.hp_tokens.specs.declared.state.State.TheVariants.{Data};
ghost use Rattle.hp_lexer.specs.Standing.{PlainStepped};
ghost use Rattle.hp_lexer.specs.Table.{table, part_of};

use hp_elements::Text;
use hp_lexer::{Asked, Cursor, LexState, Lexer};
use hp_names::Names;
use hp_tokens::State;

/// The run of white space at the front in the data state, where `rested` becomes the place of its start; otherwise `None`, and
/// nothing changes.
#[inline]
fn data_blanks<'p>(
    state: &LexState,
    input: &mut Cursor<'p>,
    names: &Names,
    rested: &mut u64,
) -> Option<Text<'p>>
    requires data { state.now.machine.state ≡ Data }
    requires held { held state.now ≤ input.old.place }
    ensures turn { IfSome result (λ text. Turned (table names.now) (part_of state.now.machine.state) (lexing state.now input.old rested.old) [] (lexing state.now input.new rested.new) (map character text) rested.new turns.Emitted) }
    ensures blank { IfSome result (λ text. list_all is_blank text ≡ true) }
    ensures long { IfSome result (λ text. 0 < length text) }
    ensures none { IfNone result ((input.new ≡ input.old) × (rested.new ≡ rested.old)) }
    ensures held { held state.now ≤ input.new.place }
{
    // The contract alone speaks of the names.
    let _names = names;
    if state.machine.after_cr || !state.ahead.is_empty() {
        return None;
    }
    let place = input.place();
    input.skip_pair_cr();
    let text = input.take_blanks();
    if text.is_empty() {
        return None;
    }
    *rested = place;
    Some(text)
}

/// The run of tabs, line feeds, form feeds and spaces at the front, in the data state, where a CR LF pair that comes first is LF;
/// otherwise `None`, and nothing changes. It is what the lexer's calls of `next` do there, with each code point in a token of its own.
#[inline]
pub(crate) fn next_blanks<'p>(lexer: &mut Lexer, input: &mut Cursor<'p>) -> Option<Text<'p>>
    requires held { held lexer.old.lex ≤ input.old.place }
    ensures text { IfSome result (λ text. PlainStepped lexer.old input.old lexer.new input.new text) }
    ensures blank { IfSome result (λ text. list_all is_blank text ≡ true) }
    ensures none { IfNone result ((lexer.new ≡ lexer.old) × (input.new ≡ input.old)) }
    ensures held { held lexer.new.lex ≤ input.new.place }
    ensures names { lexer.new.names ≡ lexer.old.names }
    ensures ahead { lexer.new.lex.ahead ≡ lexer.old.lex.ahead }
{
    match lexer.asked {
        Asked::Nothing => match lexer.lex.machine.state {
            State::Data => {
                let text = data_blanks(&lexer.lex, input, &lexer.names, &mut lexer.rested)?;
                Some(text)
            }
            _ => None,
        },
        _ => None,
    }
}
