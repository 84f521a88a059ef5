//! The acts of the rows, flat: a test names the later place where the row goes on where it fails.
//! `tools/row_tables.py` prints the rows from specs/.
ghost use Rattle.std.specs.Prelude.{◌≡◌};
ghost use Rattle.hp_elements.specs.Rules.{acts_numbered};
ghost use Rattle.hp_rules_rest.specs.Table.{all_rows};

use hp_elements::Act::{self, *};
use hp_elements::{Known, Mode, Rest, Scope, SetName, Test, Which, acts_in};

/// The acts of the rows, one row after the other; each row stands behind its number.
static ACTS: [Act; 83] = [
    // in select, from 0
    // 1
    Characters,
    // 2
    Comment,
    // 3
    // 4
    As(Mode::InBody),
    // 5
    If {
        test: Test::CurrentIs(Known::OPTION),
        otherwise: 2,
    },
    Pop,
    Insert,
    // 6
    If {
        test: Test::CurrentIs(Known::OPTION),
        otherwise: 2,
    },
    Pop,
    If {
        test: Test::CurrentIs(Known::OPTGROUP),
        otherwise: 4,
    },
    Pop,
    Insert,
    // 7
    If {
        test: Test::CurrentIs(Known::OPTION),
        otherwise: 2,
    },
    Pop,
    If {
        test: Test::CurrentIs(Known::OPTGROUP),
        otherwise: 4,
    },
    Pop,
    Insert,
    Pop,
    // 8
    If {
        test: Test::CurrentIs(Known::OPTION),
        otherwise: 3,
    },
    If {
        test: Test::BelowIs(Known::OPTGROUP),
        otherwise: 3,
    },
    Pop,
    If {
        test: Test::CurrentIs(Known::OPTGROUP),
        otherwise: 5,
    },
    Pop,
    // 9
    If {
        test: Test::CurrentIs(Known::OPTION),
        otherwise: 2,
    },
    Pop,
    // 10
    If {
        test: Test::InScope(Scope::Select, Which::Named(Known::SELECT)),
        otherwise: 3,
    },
    Through(Which::Named(Known::SELECT)),
    Reset,
    // 11
    If {
        test: Test::InScope(Scope::Select, Which::Named(Known::SELECT)),
        otherwise: 4,
    },
    Through(Which::Named(Known::SELECT)),
    Reset,
    Again,
    // 12
    As(Mode::InHead),
    // 13
    As(Mode::InBody),
    // 14
    // in select in table, from 15
    Through(Which::Named(Known::SELECT)),
    Reset,
    Again,
    // 16
    If {
        test: Test::InScope(Scope::Table, Which::Its),
        otherwise: 4,
    },
    Through(Which::Named(Known::SELECT)),
    Reset,
    Again,
    // 17
    As(Mode::InSelect),
    // in template, from 18
    As(Mode::InBody),
    // 19
    As(Mode::InHead),
    // 20
    ReplaceTemplateMode(Mode::InTable),
    Switch(Mode::InTable),
    Again,
    // 21
    ReplaceTemplateMode(Mode::InColumnGroup),
    Switch(Mode::InColumnGroup),
    Again,
    // 22
    ReplaceTemplateMode(Mode::InTableBody),
    Switch(Mode::InTableBody),
    Again,
    // 23
    ReplaceTemplateMode(Mode::InRow),
    Switch(Mode::InRow),
    Again,
    // 24
    ReplaceTemplateMode(Mode::InBody),
    Switch(Mode::InBody),
    Again,
    // 25
    // 26
    If {
        test: Test::TemplateInStack,
        otherwise: 7,
    },
    Through(Which::Named(Known::TEMPLATE)),
    ClearToMarker,
    PopTemplateMode,
    Reset,
    Again,
    Done,
    Stop,
    // foreign, from 27
    Replacement,
    // 28
    Characters,
    // 29
    Characters,
    FramesetNotOk,
    // 30
    Comment,
    // 31
    // 32
    PopToPoint,
    AsPresent,
    // 33
    If {
        test: Test::HasFontAttribute,
        otherwise: 4,
    },
    PopToPoint,
    AsPresent,
    Done,
    InsertAsCurrent,
    // 34
    InsertAsCurrent,
    // 35
    If {
        test: Test::NamesForeign,
        otherwise: 3,
    },
    ThroughForeign,
    Done,
    AsPresent,
    // 36
];

/// Where each row begins among the acts, and behind them where the last one ends.
static STARTS: [u8; 38] = [
    0, 0, 1, 2, 2, 3, 6, 11, 17, 22, 24, 27, 31, 32, 33, 33, 36, 40, 41, 42, 43, 46, 49, 52, 55,
    58, 58, 66, 67, 68, 70, 71, 71, 73, 78, 79, 83, 83,
];

/// The acts of the row of that number, and none past the last row.
pub fn acts_numbered(row: u16) -> &'static [Act]
    ensures { result.now ≡ acts_numbered all_rows row }
{
    acts_in(&ACTS, &STARTS, row)
}
