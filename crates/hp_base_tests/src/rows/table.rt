//! What an independent reading of the rules does in in table, in table text, in caption, in column group, in table body, in row, in cell.
//! `tools/rule_table.py` prints this file, and without a crate the same as text to be read.
use super::Step::{self, Asked, Does};
use hp_elements::{Act, Known, Mode, Rest, Scope, SetName, Test, Which};

/// The known names whose tag has another group than the tag of another name: the column of the mode, whether it is
/// a start tag, the number of the name, the group.
pub(super) static NAMED: [(usize, bool, usize, u8); 118] = [
    (0, true, 22, 1), // caption
    (0, true, 26, 2), // col
    (0, true, 27, 3), // colgroup
    (0, true, 69, 4), // form
    (0, true, 88, 5), // input
    (0, true, 126, 6), // script
    (0, true, 135, 6), // style
    (0, true, 140, 7), // table
    (0, true, 141, 8), // tbody
    (0, true, 142, 9), // td
    (0, true, 143, 6), // template
    (0, true, 146, 8), // tfoot
    (0, true, 147, 9), // th
    (0, true, 148, 8), // thead
    (0, true, 150, 9), // tr
    (0, false, 19, 10), // body
    (0, false, 22, 10), // caption
    (0, false, 26, 10), // col
    (0, false, 27, 10), // colgroup
    (0, false, 83, 10), // html
    (0, false, 140, 11), // table
    (0, false, 141, 10), // tbody
    (0, false, 142, 10), // td
    (0, false, 143, 6), // template
    (0, false, 146, 10), // tfoot
    (0, false, 147, 10), // th
    (0, false, 148, 10), // thead
    (0, false, 150, 10), // tr
    (2, true, 22, 1), // caption
    (2, true, 26, 2), // col
    (2, true, 27, 2), // colgroup
    (2, true, 141, 2), // tbody
    (2, true, 142, 2), // td
    (2, true, 146, 2), // tfoot
    (2, true, 147, 2), // th
    (2, true, 148, 2), // thead
    (2, true, 150, 2), // tr
    (2, false, 19, 3), // body
    (2, false, 22, 4), // caption
    (2, false, 26, 3), // col
    (2, false, 27, 3), // colgroup
    (2, false, 83, 3), // html
    (2, false, 140, 2), // table
    (2, false, 141, 3), // tbody
    (2, false, 142, 3), // td
    (2, false, 146, 3), // tfoot
    (2, false, 147, 3), // th
    (2, false, 148, 3), // thead
    (2, false, 150, 3), // tr
    (3, true, 26, 1), // col
    (3, true, 83, 2), // html
    (3, true, 143, 3), // template
    (3, false, 26, 4), // col
    (3, false, 27, 5), // colgroup
    (3, false, 143, 3), // template
    (4, true, 22, 1), // caption
    (4, true, 26, 1), // col
    (4, true, 27, 1), // colgroup
    (4, true, 141, 1), // tbody
    (4, true, 142, 2), // td
    (4, true, 146, 1), // tfoot
    (4, true, 147, 2), // th
    (4, true, 148, 1), // thead
    (4, true, 150, 3), // tr
    (4, false, 19, 4), // body
    (4, false, 22, 4), // caption
    (4, false, 26, 4), // col
    (4, false, 27, 4), // colgroup
    (4, false, 83, 4), // html
    (4, false, 140, 1), // table
    (4, false, 141, 5), // tbody
    (4, false, 142, 4), // td
    (4, false, 146, 5), // tfoot
    (4, false, 147, 4), // th
    (4, false, 148, 5), // thead
    (4, false, 150, 4), // tr
    (5, true, 22, 1), // caption
    (5, true, 26, 1), // col
    (5, true, 27, 1), // colgroup
    (5, true, 141, 1), // tbody
    (5, true, 142, 2), // td
    (5, true, 146, 1), // tfoot
    (5, true, 147, 2), // th
    (5, true, 148, 1), // thead
    (5, true, 150, 3), // tr
    (5, false, 19, 4), // body
    (5, false, 22, 4), // caption
    (5, false, 26, 4), // col
    (5, false, 27, 4), // colgroup
    (5, false, 83, 4), // html
    (5, false, 140, 1), // table
    (5, false, 141, 5), // tbody
    (5, false, 142, 4), // td
    (5, false, 146, 5), // tfoot
    (5, false, 147, 4), // th
    (5, false, 148, 5), // thead
    (5, false, 150, 6), // tr
    (6, true, 22, 1), // caption
    (6, true, 26, 1), // col
    (6, true, 27, 1), // colgroup
    (6, true, 141, 1), // tbody
    (6, true, 142, 1), // td
    (6, true, 146, 1), // tfoot
    (6, true, 147, 1), // th
    (6, true, 148, 1), // thead
    (6, true, 150, 1), // tr
    (6, false, 19, 2), // body
    (6, false, 22, 2), // caption
    (6, false, 26, 2), // col
    (6, false, 27, 2), // colgroup
    (6, false, 83, 2), // html
    (6, false, 140, 3), // table
    (6, false, 141, 3), // tbody
    (6, false, 142, 4), // td
    (6, false, 146, 3), // tfoot
    (6, false, 147, 4), // th
    (6, false, 148, 3), // thead
    (6, false, 150, 3), // tr
];

/// The groups of what has no known name, a row for each and a column a mode: other start, other end, white, nul, other, comment, doctype, end of input.
pub(super) static NAMELESS: [&[u8]; 8] = [
    &[0, 0, 0, 0, 0, 0, 0],
    &[0, 0, 0, 0, 0, 0, 0],
    &[12, 1, 0, 6, 0, 0, 0],
    &[12, 2, 0, 0, 0, 0, 0],
    &[12, 1, 0, 0, 0, 0, 0],
    &[13, 0, 0, 7, 0, 0, 0],
    &[10, 0, 0, 4, 0, 0, 0],
    &[14, 0, 0, 2, 0, 0, 0],
];

/// The steps of the ways.
pub(super) static STEPS: [Step; 55] = [
    Does(Act::AsFostered(Mode::InBody)),
    Does(Act::PopTo(SetName::TableContext)),
    Does(Act::Marker),
    Does(Act::Insert),
    Does(Act::Switch(Mode::InCaption)),
    Does(Act::InsertBare(Known::COLGROUP)),
    Does(Act::Switch(Mode::InColumnGroup)),
    Does(Act::Again),
    Asked(Test::TemplateInStack, true),
    Asked(Test::TemplateInStack, false),
    Asked(Test::HasForm, true),
    Asked(Test::HasForm, false),
    Does(Act::FormPointer),
    Does(Act::Pop),
    Asked(Test::TypeIsHidden, true),
    Asked(Test::TypeIsHidden, false),
    Does(Act::As(Mode::InHead)),
    Asked(Test::InScope(Scope::Table, Which::Its), true),
    Does(Act::Through(Which::Its)),
    Does(Act::Reset),
    Asked(Test::InScope(Scope::Table, Which::Its), false),
    Does(Act::Switch(Mode::InTableBody)),
    Does(Act::InsertBare(Known::TBODY)),
    Asked(Test::CurrentIsIn(SetName::TableTextParents), true),
    Does(Act::EmptyPending),
    Does(Act::KeepOriginal),
    Does(Act::Switch(Mode::InTableText)),
    Asked(Test::CurrentIsIn(SetName::TableTextParents), false),
    Does(Act::Comment),
    Does(Act::As(Mode::InBody)),
    Does(Act::Flush),
    Does(Act::ToOriginal),
    Does(Act::AppendPending),
    Does(Act::Implied),
    Does(Act::ClearToMarker),
    Does(Act::Switch(Mode::InTable)),
    Asked(
        Test::InScope(Scope::Table, Which::Named(Known::CAPTION)),
        true,
    ),
    Does(Act::Through(Which::Named(Known::CAPTION))),
    Asked(
        Test::InScope(Scope::Table, Which::Named(Known::CAPTION)),
        false,
    ),
    Asked(Test::CurrentIs(Known::COLGROUP), true),
    Asked(Test::CurrentIs(Known::COLGROUP), false),
    Does(Act::Characters),
    Does(Act::As(Mode::InTable)),
    Asked(Test::OneInScope(Scope::Table, SetName::TableSections), true),
    Does(Act::PopTo(SetName::TableBodyContext)),
    Asked(
        Test::OneInScope(Scope::Table, SetName::TableSections),
        false,
    ),
    Does(Act::InsertBare(Known::TR)),
    Does(Act::Switch(Mode::InRow)),
    Asked(Test::InScope(Scope::Table, Which::Named(Known::TR)), true),
    Does(Act::PopTo(SetName::TableRowContext)),
    Asked(Test::InScope(Scope::Table, Which::Named(Known::TR)), false),
    Does(Act::Switch(Mode::InCell)),
    Asked(Test::OneInScope(Scope::Table, SetName::Cells), true),
    Does(Act::ThroughFirstOf(SetName::Cells)),
    Asked(Test::OneInScope(Scope::Table, SetName::Cells), false),
];

/// Each way: the column of its mode, its group, and from where to where the places of its steps stand in `PLACES`.
pub(super) static WAYS: [(usize, u8, usize, usize); 70] = [
    (0, 0, 0, 1),
    (0, 1, 1, 5),
    (0, 2, 5, 9),
    (0, 3, 9, 12),
    (0, 4, 12, 13),
    (0, 4, 13, 15),
    (0, 4, 15, 20),
    (0, 5, 20, 23),
    (0, 5, 23, 25),
    (0, 6, 25, 26),
    (0, 7, 26, 30),
    (0, 7, 30, 31),
    (0, 8, 31, 34),
    (0, 9, 34, 38),
    (0, 10, 38, 38),
    (0, 11, 38, 41),
    (0, 11, 41, 42),
    (0, 12, 42, 47),
    (0, 12, 47, 49),
    (0, 13, 49, 50),
    (0, 14, 50, 51),
    (1, 0, 51, 54),
    (1, 1, 54, 55),
    (1, 2, 55, 55),
    (2, 0, 55, 56),
    (2, 1, 56, 62),
    (2, 1, 62, 63),
    (2, 2, 63, 69),
    (2, 2, 69, 70),
    (2, 3, 70, 70),
    (2, 4, 70, 75),
    (2, 4, 75, 76),
    (3, 0, 76, 80),
    (3, 0, 80, 81),
    (3, 1, 81, 83),
    (3, 2, 83, 84),
    (3, 3, 84, 85),
    (3, 4, 85, 85),
    (3, 5, 85, 88),
    (3, 5, 88, 89),
    (3, 6, 89, 90),
    (3, 7, 90, 91),
    (4, 0, 91, 92),
    (4, 1, 92, 97),
    (4, 1, 97, 98),
    (4, 2, 98, 102),
    (4, 3, 102, 105),
    (4, 4, 105, 105),
    (4, 5, 105, 109),
    (4, 5, 109, 110),
    (5, 0, 110, 111),
    (5, 1, 111, 116),
    (5, 1, 116, 117),
    (5, 2, 117, 121),
    (5, 3, 121, 126),
    (5, 3, 126, 127),
    (5, 4, 127, 127),
    (5, 5, 127, 133),
    (5, 5, 133, 135),
    (5, 5, 135, 136),
    (5, 6, 136, 140),
    (5, 6, 140, 141),
    (6, 0, 141, 142),
    (6, 1, 142, 148),
    (6, 1, 148, 149),
    (6, 2, 149, 149),
    (6, 3, 149, 155),
    (6, 3, 155, 156),
    (6, 4, 156, 161),
    (6, 4, 161, 162),
];

/// The places in `STEPS` of the ways' steps, way after way.
pub(super) static PLACES: [u8; 162] = [
    0, 1, 2, 3, 4, 1, 5, 6, 7, 1, 3, 6, 8, 9, 10, 9, 11, 3, 12, 13, 14, 3, 13, 15, 0, 16, 17, 18,
    19, 7, 20, 1, 3, 21, 1, 22, 21, 7, 17, 18, 19, 20, 23, 24, 25, 26, 7, 27, 0, 28, 29, 30, 31, 7,
    32, 29, 17, 33, 18, 34, 35, 7, 20, 36, 33, 37, 34, 35, 7, 38, 17, 33, 18, 34, 35, 20, 39, 13,
    35, 7, 40, 3, 13, 29, 16, 39, 13, 35, 40, 41, 28, 42, 43, 44, 13, 35, 7, 45, 44, 46, 47, 7, 44,
    3, 47, 17, 44, 13, 35, 20, 42, 48, 49, 13, 21, 7, 50, 49, 3, 51, 2, 17, 49, 13, 21, 7, 20, 17,
    48, 49, 13, 21, 7, 17, 50, 20, 17, 49, 13, 21, 20, 29, 52, 33, 53, 34, 47, 7, 54, 17, 33, 53,
    34, 47, 7, 20, 17, 33, 18, 34, 47, 20,
];
