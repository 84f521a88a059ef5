//! The acts of the rows, flat: a test names the later place where the row goes on where it fails.
//! `tools/row_tables.py` prints the rows from specs/.
ghost use Rattle.std.specs.Prelude.{◌≡◌};
ghost use Rattle.hp_elements.specs.Rules.{acts_numbered};
ghost use Rattle.hp_rules_body.specs.Table.{all_rows};

use hp_elements::Act::{self, *};
use hp_elements::{Known, Mode, Rest, Scope, SetName, Test, Which, acts_in};

/// The acts of the rows, one row after the other; each row stands behind its number.
static ACTS: [Act; 181] = [
    // in body, from 0
    // 1
    Reconstruct,
    Characters,
    // 2
    Reconstruct,
    Characters,
    FramesetNotOk,
    // 3
    Comment,
    // 4
    // 5
    Unless {
        test: Test::TemplateInStack,
        otherwise: 2,
    },
    AddMissingToFirst,
    // 6
    As(Mode::InHead),
    // 7
    If {
        test: Test::SecondIsBody,
        otherwise: 4,
    },
    Unless {
        test: Test::TemplateInStack,
        otherwise: 4,
    },
    FramesetNotOk,
    AddMissingToBody,
    // 8
    If {
        test: Test::SecondIsBody,
        otherwise: 6,
    },
    If {
        test: Test::FramesetOk,
        otherwise: 6,
    },
    DetachBody,
    PopToFirst,
    Insert,
    Switch(Mode::InFrameset),
    // 9
    If {
        test: Test::HasTemplateModes,
        otherwise: 3,
    },
    As(Mode::InTemplate),
    Done,
    Stop,
    // 10
    If {
        test: Test::InScope(Scope::Default, Which::Named(Known::BODY)),
        otherwise: 2,
    },
    Switch(Mode::AfterBody),
    // 11
    If {
        test: Test::InScope(Scope::Default, Which::Named(Known::BODY)),
        otherwise: 3,
    },
    Switch(Mode::AfterBody),
    Again,
    // 12
    CloseParagraph,
    Insert,
    // 13
    CloseParagraph,
    If {
        test: Test::CurrentIsIn(SetName::Headings),
        otherwise: 3,
    },
    Pop,
    Insert,
    // 14
    CloseParagraph,
    Insert,
    SkipLineFeed,
    FramesetNotOk,
    // 15
    If {
        test: Test::HasForm,
        otherwise: 3,
    },
    Unless {
        test: Test::TemplateInStack,
        otherwise: 3,
    },
    Done,
    CloseParagraph,
    Insert,
    Unless {
        test: Test::TemplateInStack,
        otherwise: 7,
    },
    FormPointer,
    // 16
    FramesetNotOk,
    CloseItem,
    CloseParagraph,
    Insert,
    // 17
    FramesetNotOk,
    CloseDescription,
    CloseParagraph,
    Insert,
    // 18
    CloseParagraph,
    Insert,
    Lexer(Rest::Plaintext),
    // 19
    If {
        test: Test::InScope(Scope::Default, Which::Named(Known::BUTTON)),
        otherwise: 3,
    },
    Implied,
    Through(Which::Named(Known::BUTTON)),
    Reconstruct,
    Insert,
    FramesetNotOk,
    // 20
    If {
        test: Test::InScope(Scope::Default, Which::Its),
        otherwise: 3,
    },
    Implied,
    Through(Which::Its),
    // 21
    If {
        test: Test::TemplateInStack,
        otherwise: 5,
    },
    If {
        test: Test::InScope(Scope::Default, Which::Named(Known::FORM)),
        otherwise: 4,
    },
    Implied,
    Through(Which::Named(Known::FORM)),
    Done,
    EndForm,
    // 22
    Unless {
        test: Test::InScope(Scope::Button, Which::Named(Known::P)),
        otherwise: 2,
    },
    InsertBare(Known::P),
    CloseParagraph,
    // 23
    If {
        test: Test::InScope(Scope::ListItem, Which::Named(Known::LI)),
        otherwise: 3,
    },
    ImpliedExcept(Which::Named(Known::LI)),
    Through(Which::Named(Known::LI)),
    // 24
    If {
        test: Test::InScope(Scope::Default, Which::Its),
        otherwise: 3,
    },
    ImpliedExcept(Which::Its),
    Through(Which::Its),
    // 25
    If {
        test: Test::OneInScope(Scope::Default, SetName::Headings),
        otherwise: 3,
    },
    Implied,
    ThroughFirstOf(SetName::Headings),
    // 26
    CloseLink,
    Reconstruct,
    Insert,
    AppendToList,
    // 27
    Reconstruct,
    If {
        test: Test::InScope(Scope::Default, Which::Named(Known::NOBR)),
        otherwise: 4,
    },
    Adopt(Which::Named(Known::NOBR)),
    Reconstruct,
    Insert,
    AppendToList,
    // 28
    Reconstruct,
    Insert,
    AppendToList,
    // 29
    Adopt(Which::Its),
    // 30
    Reconstruct,
    Insert,
    Marker,
    FramesetNotOk,
    // 31
    If {
        test: Test::InScope(Scope::Default, Which::Its),
        otherwise: 4,
    },
    Implied,
    Through(Which::Its),
    ClearToMarker,
    // 32
    Unless {
        test: Test::IsQuirks,
        otherwise: 2,
    },
    CloseParagraph,
    Insert,
    FramesetNotOk,
    Switch(Mode::InTable),
    // 33
    Reconstruct,
    InsertBare(Known::BR),
    Pop,
    FramesetNotOk,
    // 34
    Reconstruct,
    Insert,
    Pop,
    FramesetNotOk,
    // 35
    Reconstruct,
    Insert,
    Pop,
    Unless {
        test: Test::TypeIsHidden,
        otherwise: 5,
    },
    FramesetNotOk,
    // 36
    Insert,
    Pop,
    // 37
    CloseParagraph,
    Insert,
    Pop,
    FramesetNotOk,
    // 38
    AgainAs(Known::IMG),
    // 39
    Insert,
    Lexer(Rest::Rcdata),
    KeepOriginal,
    Switch(Mode::Text),
    SkipLineFeed,
    FramesetNotOk,
    // 40
    CloseParagraph,
    Reconstruct,
    FramesetNotOk,
    Insert,
    Lexer(Rest::Rawtext),
    KeepOriginal,
    Switch(Mode::Text),
    // 41
    FramesetNotOk,
    Insert,
    Lexer(Rest::Rawtext),
    KeepOriginal,
    Switch(Mode::Text),
    // 42
    Insert,
    Lexer(Rest::Rawtext),
    KeepOriginal,
    Switch(Mode::Text),
    // 43
    Reconstruct,
    Insert,
    FramesetNotOk,
    If {
        test: Test::InTableModes,
        otherwise: 6,
    },
    Switch(Mode::InSelectInTable),
    Done,
    Switch(Mode::InSelect),
    // 44
    If {
        test: Test::CurrentIs(Known::OPTION),
        otherwise: 2,
    },
    Pop,
    Reconstruct,
    Insert,
    // 45
    If {
        test: Test::InScope(Scope::Default, Which::Named(Known::RUBY)),
        otherwise: 2,
    },
    Implied,
    Insert,
    // 46
    If {
        test: Test::InScope(Scope::Default, Which::Named(Known::RUBY)),
        otherwise: 2,
    },
    ImpliedExcept(Which::Named(Known::RTC)),
    Insert,
    // 47
    Reconstruct,
    InsertForeign,
    // 48
    // 49
    Reconstruct,
    Insert,
    // 50
    Walk,
    // text, from 51
    Characters,
    // 52
    Comment,
    // 53
    Pop,
    ToOriginal,
    Again,
    // 54
    Pop,
    ToOriginal,
    // 55
];

/// Where each row begins among the acts, and behind them where the last one ends.
static STARTS: [u8; 57] = [
    0, 0, 2, 5, 6, 6, 8, 9, 13, 19, 23, 25, 28, 30, 34, 38, 45, 49, 53, 56, 62, 65, 71, 74, 77, 80,
    83, 87, 93, 96, 97, 101, 105, 110, 114, 118, 123, 125, 129, 130, 136, 143, 148, 152, 159, 163,
    166, 169, 171, 171, 173, 174, 175, 176, 179, 181, 181,
];

/// The acts of the row of that number, and none past the last row.
pub fn acts_numbered(row: u16) -> &'static [Act]
    ensures { result.now ≡ acts_numbered all_rows row }
{
    acts_in(&ACTS, &STARTS, row)
}
