//! The acts of the rows, flat: a test names the later place where the row goes on where it fails.
//! `tools/row_tables.py` prints the rows from specs/.
ghost use Rattle.std.specs.Prelude.{◌≡◌};
ghost use Rattle.hp_elements.specs.Rules.{acts_numbered};
ghost use Rattle.hp_rules_page.specs.Table.{all_rows};

use hp_elements::Act::{self, *};
use hp_elements::{Known, Mode, Rest, Scope, SetName, Test, Which, acts_in};

/// The acts of the rows, one row after the other; each row stands behind its number.
static ACTS: [Act; 112] = [
    // initial, from 0
    // 1
    CommentIntoDocument,
    // 2
    PutDoctype,
    QuirksOfDoctype,
    Switch(Mode::BeforeHtml),
    // 3
    Quirks,
    Switch(Mode::BeforeHtml),
    Again,
    // before html, from 4
    // 5
    CommentIntoDocument,
    // 6
    InsertHtml,
    Switch(Mode::BeforeHead),
    // 7
    // 8
    InsertBareHtml,
    Switch(Mode::BeforeHead),
    Again,
    // before head, from 9
    // 10
    Comment,
    // 11
    As(Mode::InBody),
    // 12
    Insert,
    HeadPointer,
    Switch(Mode::InHead),
    // 13
    // 14
    InsertBare(Known::HEAD),
    HeadPointer,
    Switch(Mode::InHead),
    Again,
    // in head, from 15
    Characters,
    // 16
    Comment,
    // 17
    // 18
    As(Mode::InBody),
    // 19
    Insert,
    Pop,
    // 20
    Insert,
    Lexer(Rest::Rcdata),
    KeepOriginal,
    Switch(Mode::Text),
    // 21
    Insert,
    Lexer(Rest::Rawtext),
    KeepOriginal,
    Switch(Mode::Text),
    // 22
    Insert,
    Switch(Mode::InHeadNoscript),
    // 23
    Insert,
    Lexer(Rest::Script),
    KeepOriginal,
    Switch(Mode::Text),
    // 24
    Pop,
    Switch(Mode::AfterHead),
    // 25
    Insert,
    Marker,
    FramesetNotOk,
    Switch(Mode::InTemplate),
    PushTemplateMode(Mode::InTemplate),
    // 26
    If {
        test: Test::TemplateInStack,
        otherwise: 6,
    },
    ImpliedThoroughly,
    Through(Which::Named(Known::TEMPLATE)),
    ClearToMarker,
    PopTemplateMode,
    Reset,
    // 27
    // 28
    Pop,
    Switch(Mode::AfterHead),
    Again,
    // in head noscript, from 29
    // 30
    As(Mode::InBody),
    // 31
    Pop,
    Switch(Mode::InHead),
    // 32
    As(Mode::InHead),
    // 33
    // 34
    Pop,
    Switch(Mode::InHead),
    Again,
    // after head, from 35
    Characters,
    // 36
    Comment,
    // 37
    // 38
    As(Mode::InBody),
    // 39
    Insert,
    FramesetNotOk,
    Switch(Mode::InBody),
    // 40
    Insert,
    Switch(Mode::InFrameset),
    // 41
    PushHead,
    As(Mode::InHead),
    TakeHeadOff,
    // 42
    As(Mode::InHead),
    // 43
    // 44
    InsertBare(Known::BODY),
    Switch(Mode::InBody),
    Again,
    // after body, from 45
    As(Mode::InBody),
    // 46
    CommentIntoFirst,
    // 47
    // 48
    Switch(Mode::AfterAfterBody),
    // 49
    Stop,
    // 50
    Switch(Mode::InBody),
    Again,
    // in frameset, from 51
    Characters,
    // 52
    Comment,
    // 53
    // 54
    As(Mode::InBody),
    // 55
    Insert,
    // 56
    Unless {
        test: Test::CurrentIs(Known::HTML),
        otherwise: 4,
    },
    Pop,
    Unless {
        test: Test::CurrentIs(Known::FRAMESET),
        otherwise: 4,
    },
    Switch(Mode::AfterFrameset),
    // 57
    Insert,
    Pop,
    // 58
    As(Mode::InHead),
    // 59
    Stop,
    // 60
    // after frameset, from 61
    Characters,
    // 62
    Comment,
    // 63
    // 64
    As(Mode::InBody),
    // 65
    Switch(Mode::AfterAfterFrameset),
    // 66
    As(Mode::InHead),
    // 67
    Stop,
    // 68
    // after after body, from 69
    CommentIntoDocument,
    // 70
    // 71
    As(Mode::InBody),
    // 72
    Stop,
    // 73
    Switch(Mode::InBody),
    Again,
    // after after frameset, from 74
    CommentIntoDocument,
    // 75
    // 76
    As(Mode::InBody),
    // 77
    Stop,
    // 78
    As(Mode::InHead),
    // 79
];

/// Where each row begins among the acts, and behind them where the last one ends.
static STARTS: [u8; 81] = [
    0, 0, 1, 4, 7, 7, 8, 10, 10, 13, 13, 14, 15, 18, 18, 22, 23, 24, 24, 25, 27, 31, 35, 37, 41,
    43, 48, 54, 54, 57, 57, 58, 60, 61, 61, 64, 65, 66, 66, 67, 70, 72, 75, 76, 76, 79, 80, 81, 81,
    82, 83, 85, 86, 87, 87, 88, 89, 93, 95, 96, 97, 97, 98, 99, 99, 100, 101, 102, 103, 103, 104,
    104, 105, 106, 108, 109, 109, 110, 111, 112, 112,
];

/// The acts of the row of that number, and none past the last row.
pub fn acts_numbered(row: u16) -> &'static [Act]
    ensures { result.now ≡ acts_numbered all_rows row }
{
    acts_in(&ACTS, &STARTS, row)
}
