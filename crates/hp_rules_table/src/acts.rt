//! The acts of the rows, flat: a test names the later place where the row goes on where it fails.
//! `tools/row_tables.py` prints the rows from specs/.
ghost use Rattle.std.specs.Prelude.{◌≡◌};
ghost use Rattle.hp_elements.specs.Rules.{acts_numbered};
ghost use Rattle.hp_rules_table.specs.Table.{all_rows};

use hp_elements::Act::{self, *};
use hp_elements::{Known, Mode, Rest, Scope, SetName, Test, Which, acts_in};

/// The acts of the rows, one row after the other; each row stands behind its number.
static ACTS: [Act; 131] = [
    // in table, from 0
    If {
        test: Test::CurrentIsIn(SetName::TableTextParents),
        otherwise: 6,
    },
    EmptyPending,
    KeepOriginal,
    Switch(Mode::InTableText),
    Again,
    Done,
    AsFostered(Mode::InBody),
    // 1
    Comment,
    // 2
    // 3
    PopTo(SetName::TableContext),
    Marker,
    Insert,
    Switch(Mode::InCaption),
    // 4
    PopTo(SetName::TableContext),
    Insert,
    Switch(Mode::InColumnGroup),
    // 5
    PopTo(SetName::TableContext),
    InsertBare(Known::COLGROUP),
    Switch(Mode::InColumnGroup),
    Again,
    // 6
    PopTo(SetName::TableContext),
    Insert,
    Switch(Mode::InTableBody),
    // 7
    PopTo(SetName::TableContext),
    InsertBare(Known::TBODY),
    Switch(Mode::InTableBody),
    Again,
    // 8
    If {
        test: Test::InScope(Scope::Table, Which::Named(Known::TABLE)),
        otherwise: 4,
    },
    Through(Which::Named(Known::TABLE)),
    Reset,
    Again,
    // 9
    If {
        test: Test::InScope(Scope::Table, Which::Named(Known::TABLE)),
        otherwise: 3,
    },
    Through(Which::Named(Known::TABLE)),
    Reset,
    // 10
    // 11
    As(Mode::InHead),
    // 12
    If {
        test: Test::TypeIsHidden,
        otherwise: 4,
    },
    Insert,
    Pop,
    Done,
    AsFostered(Mode::InBody),
    // 13
    Unless {
        test: Test::TemplateInStack,
        otherwise: 5,
    },
    Unless {
        test: Test::HasForm,
        otherwise: 5,
    },
    Insert,
    FormPointer,
    Pop,
    // 14
    As(Mode::InBody),
    // 15
    AsFostered(Mode::InBody),
    // in table text, from 16
    // 17
    AppendPending,
    // 18
    Flush,
    ToOriginal,
    Again,
    // in caption, from 19
    If {
        test: Test::InScope(Scope::Table, Which::Named(Known::CAPTION)),
        otherwise: 5,
    },
    Implied,
    Through(Which::Named(Known::CAPTION)),
    ClearToMarker,
    Switch(Mode::InTable),
    // 20
    If {
        test: Test::InScope(Scope::Table, Which::Named(Known::CAPTION)),
        otherwise: 6,
    },
    Implied,
    Through(Which::Named(Known::CAPTION)),
    ClearToMarker,
    Switch(Mode::InTable),
    Again,
    // 21
    // 22
    As(Mode::InBody),
    // in column group, from 23
    Characters,
    // 24
    Comment,
    // 25
    // 26
    As(Mode::InBody),
    // 27
    Insert,
    Pop,
    // 28
    If {
        test: Test::CurrentIs(Known::COLGROUP),
        otherwise: 3,
    },
    Pop,
    Switch(Mode::InTable),
    // 29
    // 30
    As(Mode::InHead),
    // 31
    As(Mode::InBody),
    // 32
    If {
        test: Test::CurrentIs(Known::COLGROUP),
        otherwise: 4,
    },
    Pop,
    Switch(Mode::InTable),
    Again,
    // in table body, from 33
    PopTo(SetName::TableBodyContext),
    Insert,
    Switch(Mode::InRow),
    // 34
    PopTo(SetName::TableBodyContext),
    InsertBare(Known::TR),
    Switch(Mode::InRow),
    Again,
    // 35
    If {
        test: Test::InScope(Scope::Table, Which::Its),
        otherwise: 4,
    },
    PopTo(SetName::TableBodyContext),
    Pop,
    Switch(Mode::InTable),
    // 36
    If {
        test: Test::OneInScope(Scope::Table, SetName::TableSections),
        otherwise: 5,
    },
    PopTo(SetName::TableBodyContext),
    Pop,
    Switch(Mode::InTable),
    Again,
    // 37
    // 38
    As(Mode::InTable),
    // in row, from 39
    PopTo(SetName::TableRowContext),
    Insert,
    Switch(Mode::InCell),
    Marker,
    // 40
    If {
        test: Test::InScope(Scope::Table, Which::Named(Known::TR)),
        otherwise: 4,
    },
    PopTo(SetName::TableRowContext),
    Pop,
    Switch(Mode::InTableBody),
    // 41
    If {
        test: Test::InScope(Scope::Table, Which::Named(Known::TR)),
        otherwise: 5,
    },
    PopTo(SetName::TableRowContext),
    Pop,
    Switch(Mode::InTableBody),
    Again,
    // 42
    If {
        test: Test::InScope(Scope::Table, Which::Its),
        otherwise: 6,
    },
    If {
        test: Test::InScope(Scope::Table, Which::Named(Known::TR)),
        otherwise: 6,
    },
    PopTo(SetName::TableRowContext),
    Pop,
    Switch(Mode::InTableBody),
    Again,
    // 43
    // 44
    As(Mode::InTable),
    // in cell, from 45
    If {
        test: Test::InScope(Scope::Table, Which::Its),
        otherwise: 5,
    },
    Implied,
    Through(Which::Its),
    ClearToMarker,
    Switch(Mode::InRow),
    // 46
    If {
        test: Test::OneInScope(Scope::Table, SetName::Cells),
        otherwise: 6,
    },
    Implied,
    ThroughFirstOf(SetName::Cells),
    ClearToMarker,
    Switch(Mode::InRow),
    Again,
    // 47
    // 48
    If {
        test: Test::InScope(Scope::Table, Which::Its),
        otherwise: 6,
    },
    Implied,
    ThroughFirstOf(SetName::Cells),
    ClearToMarker,
    Switch(Mode::InRow),
    Again,
    // 49
    As(Mode::InBody),
];

/// Where each row begins among the acts, and behind them where the last one ends.
static STARTS: [u8; 51] = [
    0, 7, 8, 8, 12, 15, 19, 22, 26, 30, 33, 33, 34, 39, 44, 45, 46, 46, 47, 50, 55, 61, 61, 62, 63,
    64, 64, 65, 67, 70, 70, 71, 72, 76, 79, 83, 87, 92, 92, 93, 97, 101, 106, 112, 112, 113, 118,
    124, 124, 130, 131,
];

/// The acts of the row of that number, and none past the last row.
pub fn acts_numbered(row: u16) -> &'static [Act]
    ensures { result.now ≡ acts_numbered all_rows row }
{
    acts_in(&ACTS, &STARTS, row)
}
