//! The acts of the rules, and what they test.

ghost use Rattle.std.specs.Prelude.{◌≡◌, [], slice_index_or};
ghost use Rattle.hp_elements.specs.Rules.{pieces};

use crate::known::Known;
use crate::sets::SetName;
use crate::token::{Mode, Rest};

/// The name that an act is about.
#[derive(Clone, Copy)]
pub enum Which {
    /// The token's own name.
    Its,
    Named(Known),
}

/// A scope (13.2.4.2), by the elements that end it.
#[derive(Clone, Copy)]
pub enum Scope {
    Default,
    ListItem,
    Button,
    Table,
    Select,
}

/// What a row of the rules asks of the state or of the token.
#[derive(Clone, Copy)]
pub enum Test {
    /// An HTML element of that name is in that scope.
    InScope(Scope, Which),
    /// An element of the set is in that scope.
    OneInScope(Scope, SetName),
    TemplateInStack,
    HasTemplateModes,
    /// The second element of the stack is an HTML `body`.
    SecondIsBody,
    FramesetOk,
    IsQuirks,
    HasForm,
    /// The current node is an HTML element of that name.
    CurrentIs(Known),
    CurrentIsIn(SetName),
    /// The element next below the current node is an HTML element of that name.
    BelowIs(Known),
    /// The formatting list has an entry of that name after its last marker.
    Listed(Known),
    /// The token has an attribute `type` that equals `hidden` without ASCII case.
    TypeIsHidden,
    /// The mode is in table, in caption, in table body, in row or in cell.
    InTableModes,
    /// The token has an attribute `color`, `face` or `size`.
    HasFontAttribute,
    /// A foreign element of the token's name, without ASCII case, stands above the nearest HTML element.
    NamesForeign,
}

/// One thing that a row of the rules does. A row is a list of acts, carried out in order.
#[derive(Clone, Copy)]
pub enum Act {
    /// Where the test fails, the row goes on at that place.
    If { test: Test, otherwise: u8 },
    /// Where the test holds, the row goes on at that place.
    Unless { test: Test, otherwise: u8 },
    /// The row ends here.
    Done,
    /// The token is handled again, with dispatch.
    Again,
    /// The token is handled again as a start tag of that name.
    AgainAs(Known),
    /// The rules of that mode are used.
    As(Mode),
    /// The rules of that mode are used, with fostering on.
    AsFostered(Mode),
    /// The rules of the present mode are used, without dispatch.
    AsPresent,
    /// Parsing stops.
    Stop,

    /// Inserts the token's characters.
    Characters,
    /// Inserts U+FFFD for each U+0000 of the token.
    Replacement,
    Comment,
    CommentIntoDocument,
    CommentIntoFirst,
    PutDoctype,
    QuirksOfDoctype,
    Quirks,
    AddMissingToFirst,
    AddMissingToBody,

    /// Inserts an HTML element for the token and pushes it.
    Insert,
    /// Inserts an HTML element of that name without attributes and pushes it.
    InsertBare(Known),
    /// Inserts an element of the namespace that its name says; pops it where the tag is self-closing.
    InsertForeign,
    /// Inserts an element of the adjusted current node's namespace; pops it where the tag is self-closing.
    InsertAsCurrent,
    /// Puts an HTML element for the token into the document and pushes it.
    InsertHtml,
    /// Puts an HTML `html` element without attributes into the document and pushes it.
    InsertBareHtml,
    /// Pushes the head element onto the stack again.
    PushHead,
    Reconstruct,
    Pop,
    /// Pops while the current node isn't in the set.
    PopTo(SetName),
    /// Pops all but the first element.
    PopToFirst,
    /// Pops while the current node is neither an HTML element nor an integration point.
    PopToPoint,
    /// Pops up to and with the nearest HTML element of that name.
    Through(Which),
    /// Pops up to and with the nearest element of the set.
    ThroughFirstOf(SetName),
    /// Pops up to and with the nearest foreign element of the token's name, without ASCII case.
    ThroughForeign,
    Implied,
    ImpliedExcept(Which),
    ImpliedThoroughly,
    CloseParagraph,
    CloseItem,
    CloseDescription,
    /// What the rules do at an end tag that no row names.
    Walk,
    DetachBody,
    /// Takes the head element off the stack.
    TakeHeadOff,
    EndForm,
    /// Where the formatting list has an `a` after its last marker: adopts `a`, and then takes the element of that entry off list
    /// and stack. Nothing where there is none.
    CloseLink,
    AppendToList,
    Adopt(Which),
    Marker,
    ClearToMarker,

    FramesetNotOk,
    SkipLineFeed,
    /// Switches the lexer.
    Lexer(Rest),
    HeadPointer,
    FormPointer,
    Reset,
    KeepOriginal,
    ToOriginal,
    Switch(Mode),
    PushTemplateMode(Mode),
    ReplaceTemplateMode(Mode),
    PopTemplateMode,
    EmptyPending,
    AppendPending,
    Flush,
}

/// The acts of the row of that number, where the acts of all rows stand one row after the other; none past the last row.
/// The starts are where each row begins, and behind them where the last one ends.
pub fn acts_in(acts: &'static [Act], starts: &[u8], row: u16) -> &'static [Act]
    ensures { result.now ≡ slice_index_or (pieces acts.now starts.now) row [] }
{
    let at = usize::from(row);
    match starts.get(at + 1) {
        Some(end) => acts
            .get(usize::from(starts[at])..usize::from(*end))
            .unwrap_or(&[]),
        None => &[],
    }
}
