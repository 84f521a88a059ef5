//! The run over a chunk behind a guessed state.
ghost use Rattle.std.specs.Prelude.{◌≡◌, false, length, take, IfOk, List, slice_range};
ghost use Rattle.std.specs.Str.{IsCharBoundary};
ghost use Rattle.hp_text.specs.Page.{text_of as page_text};
ghost use Rattle.hp_elements.specs.declared.token.Rest.TheVariants.{Data};
ghost use Rattle.hp_names.specs.BuiltIn.{built_in};
ghost use Rattle.hp_tokens.specs.Advancing.{rest_state};
ghost use Rattle.hp_control.specs.Guessing.{heard_by};
ghost use Rattle.hp_control.specs.Tree.{Tree as TreeOf};
ghost use Rattle.hp_control.specs.declared.edit.Edit.{Edit as EditOf};
ghost use Rattle.hp_pieces.specs.Guesses.{IsSound};
ghost use Rattle.hp_pieces.specs.Texts.{text_of};
ghost use Rattle.hp_views.specs.View.{split_of};
ghost use Rattle.hp_fragment.specs.Guessing.{made_of, CrossesAt, HasBegun, IsGuessBy, IsReached, IsTried};
ghost use Rattle.hp_fragment.specs.Making.{AllComeTo, IsSplitIn, IsSplitting};
ghost use Rattle.hp_fragment.specs.declared.sink.Splitting.{Splitting as SplittingOf};

use crate::NoMemory;
use crate::grown::grown_guess;
use crate::leaving::{leave_change, leave_edits, leave_guess, leave_lexer, leave_view};
use crate::parsing::Parsing;
use crate::reading::read_to_end;
use crate::sink::{Naming, Sink, Splitting, into_splitting};
use hp_control::{Answer, Guess, Predictor, Refusal};
use hp_elements::Rest;
use hp_lexer::{Cursor, Lexer};
use hp_pieces::{Fragment, Guessed};
use hp_text::Chunk;
use hp_tokens::{LexState, ORIGIN};
use hp_views::View;
use std::alloc::Global;

/// What came of a try.
#[derive(Drop)]
enum Tried<'p> {
    /// The text was read to its end.
    Reached(Guessed<'p>),
    /// A token touches what stood there before the chunk. Its group began there, in bytes from the text's start.
    Crossed { at: u64 },
}

/// What the chunk does to the parser, whatever the state before it, where that answers as the predictor says. Where it does so to all
/// that the run over the chunk asks of it, all is covered that can be: the chunk, or, where a token touches something that stood there
/// before, what comes before that token's group; nothing where the chunk begins within a token.
pub fn speculate<'p, P: Predictor + Copy + Drop>(
    alloc: Global,
    chunk: Chunk<'p>,
    predictor: P,
) -> Result<Fragment<'p>, NoMemory>
    ensures text { IfOk result (λ fragment. text_of fragment ≡ slice_range (page_text chunk.entry.page) chunk.entry.from chunk.entry.to) }
    ensures guess { IfOk result (IsGuessBy (P.says predictor)) }
{
    let guessed = guess(alloc, text_in(chunk), predictor)?;
    Ok(Fragment::Guessed(guessed))
}

/// The text of a chunk.
pub(crate) fn text_in<'p>(chunk: Chunk<'p>) -> &'p str
    ensures { result.now ≡ slice_range (page_text chunk.entry.page) chunk.entry.from chunk.entry.to }
{
    &chunk.page.as_str()[chunk.from as usize..chunk.to as usize]
}

/// The same of a text.
pub(crate) fn guess<'p, P: Predictor + Copy + Drop>(
    alloc: Global,
    text: &'p str,
    predictor: P,
) -> Result<Guessed<'p>, NoMemory>
    ensures { IfOk result (IsReached (P.says predictor) text.now text.now) }
{
    match try_front(alloc, text, text, predictor)? {
        Tried::Reached(guessed) => Ok(guessed),
        Tried::Crossed { at } => guess_before(alloc, text, at, predictor),
    }
}

/// What the text before that place does, where a token that touches something older began there. Where that isn't found out, it is
/// nothing, and what the predictor says isn't right.
fn guess_before<'p, P: Predictor + Copy + Drop>(
    alloc: Global,
    text: &'p str,
    at: u64,
    predictor: P,
) -> Result<Guessed<'p>, NoMemory>
    requires crosses { CrossesAt built_in (P.says predictor) text.now at }
    ensures { IfOk result (IsReached (P.says predictor) text.now text.now) }
{
    hp_asked::answers_are_right();
    hp_asked::readings_alike();
    hp_pieces::firsts();
    let front = front_of(text, at);
    match try_front(alloc, text, front, predictor)? {
        Tried::Reached(guessed) => Ok(guessed),
        Tried::Crossed { .. } => {
            let (view, _) = View::guessed(alloc, Guess::new(predictor))?;
            cover_nothing(alloc, text, view)
        }
    }
}

/// The text before that place; nothing where a code point doesn't begin there.
fn front_of(text: &str, at: u64) -> &str
    ensures front { result.now ≡ take (length result.now) text.now }
    ensures long { IsCharBoundary text.now at → length result.now ≡ at }
{
    match text.get(..at as usize) {
        Some(front) => front,
        None => "",
    }
}

/// Reads that front of the text behind the guess.
fn try_front<'p, P: Predictor + Copy + Drop>(
    alloc: Global,
    text: &'p str,
    front: &'p str,
    predictor: P,
) -> Result<Tried<'p>, NoMemory>
    requires front { front.now ≡ take (length front.now) text.now }
    ensures { IfOk result (IsTried (P.says predictor) text.now front.now) }
{
    hp_asked::answers_are_right();
    hp_asked::readings_alike();
    hp_control::laws::answers_tell();
    let (view, told) = View::guessed(alloc, Guess::new(predictor))?;
    match told {
        Answer::Resting { rest, after_cr, .. } => {
            let lexer = Lexer::at_rest(rest, after_cr);
            read_front(alloc, text, front, lexer, view)
        }
        _ => Ok(Tried::Reached(cover_nothing(alloc, text, view)?)),
    }
}

/// The same with the lexer and the view at the front's start.
fn read_front<'p, P: Predictor + Drop>(
    alloc: Global,
    text: &'p str,
    front: &'p str,
    lexer: Lexer,
    view: View<'p, Guess<P>>,
) -> Result<Tried<'p>, NoMemory>
    requires front { front.now ≡ take (length front.now) text.now }
    requires begun { HasBegun lexer (heard_by P.says view.below) (split_of view) }
    ensures { IfOk result (IsTried (P.says view.entry.below.predictor) text.now front.now) }
{
    hp_asked::answers_are_right();
    hp_asked::readings_alike();
    hp_control::laws::answers_tell();
    hp_growing::guesses_grow();
    hp_older::view_begins();
    hp_pieces::firsts();
    hp_runs::comes_on();
    let Ok(splitting) = Splitting::start(alloc, Naming::Numbers) else {
        leave_lexer(lexer);
        leave_view(view);
        return Err(NoMemory);
    };
    let mut parsing = Parsing {
        lexer,
        input: Cursor::of_str(front),
        view,
        sink: Sink::Splits(splitting),
    };
    match read_to_end(alloc, &mut parsing) {
        Ok(()) => {
            let guessed = cover(alloc, text, front.len() as u64, parsing)?;
            Ok(Tried::Reached(guessed))
        }
        Err(Refusal::Crossed(_)) => {
            let at = parsing.lexer.rested.saturating_sub(ORIGIN);
            leave_guess(parsing);
            Ok(Tried::Crossed { at })
        }
        Err(Refusal::NoMemory) => {
            leave_guess(parsing);
            Err(NoMemory)
        }
    }
}

/// What a parser that read the front of a text has made of the guess.
fn cover<'p, P: Predictor + Drop>(
    alloc: Global,
    text: &'p str,
    covered: u64,
    parsing: Parsing<'p, Guess<P>>,
) -> Result<Guessed<'p>, NoMemory>
    requires splits { IsSplitting parsing.sink }
    requires sound { (splitting : SplittingOf) (grove : TreeOf) (outer : List EditOf) → IsSplitIn parsing.sink splitting → AllComeTo splitting parsing.view.edits grove outer → IsSound (made_of text.now covered parsing.lexer.lex parsing.view grove outer) }
    ensures { IfOk result (λ guessed. guessed ≡ made_of text.now covered parsing.entry.lexer.lex parsing.entry.view guessed.grove guessed.outer) }
{
    let Parsing {
        lexer,
        view,
        sink,
        ..
    } = parsing;
    let splitting = into_splitting(sink);
    let Lexer { lex, .. } = lexer;
    let is_set = lex.machine.last_tag.is_some();
    let (change, kept, rest) = view.into_change(lex, is_set);
    grown_guess(alloc, text, covered, kept, change, splitting, rest)
}

/// A guess of which nothing was read.
fn cover_nothing<'p, P: Predictor + Drop>(
    alloc: Global,
    text: &'p str,
    view: View<'p, Guess<P>>,
) -> Result<Guessed<'p>, NoMemory>
    ensures { IfOk result (λ guessed. guessed ≡ made_of text.now 0 (rest_state Data false) view.entry guessed.grove guessed.outer) }
{
    let lex = LexState::at_rest(Rest::Data, false);
    let (change, kept, edits) = view.into_change(lex, false);
    match Splitting::start(alloc, Naming::Numbers) {
        Ok(splitting) => grown_guess(alloc, text, 0, kept, change, splitting, edits),
        Err(fault) => {
            leave_change(change, kept);
            leave_edits(edits);
            Err(fault)
        }
    }
}
