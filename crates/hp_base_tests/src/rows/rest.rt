//! What an independent reading of the rules does in in select, in select in table, in template, foreign.
//! `tools/rule_table.py` prints this file, and without a crate the same as text to be read.
use super::Step::{self, Asked, Does};
use hp_elements::{Act, Known, Mode, Rest, Scope, SetName, Test, Which};

/// The known names whose tag has another group than the tag of another name: the column of the mode, whether it is
/// a start tag, the number of the name, the group.
pub(super) static NAMED: [(usize, bool, usize, u8); 97] = [
    (0, true, 82, 1), // hr
    (0, true, 83, 2), // html
    (0, true, 88, 3), // input
    (0, true, 89, 3), // keygen
    (0, true, 113, 4), // optgroup
    (0, true, 114, 5), // option
    (0, true, 126, 6), // script
    (0, true, 129, 7), // select
    (0, true, 143, 6), // template
    (0, true, 145, 3), // textarea
    (0, false, 113, 8), // optgroup
    (0, false, 114, 9), // option
    (0, false, 129, 7), // select
    (0, false, 143, 6), // template
    (1, true, 22, 1), // caption
    (1, true, 140, 1), // table
    (1, true, 141, 1), // tbody
    (1, true, 142, 1), // td
    (1, true, 146, 1), // tfoot
    (1, true, 147, 1), // th
    (1, true, 148, 1), // thead
    (1, true, 150, 1), // tr
    (1, false, 22, 2), // caption
    (1, false, 140, 2), // table
    (1, false, 141, 2), // tbody
    (1, false, 142, 2), // td
    (1, false, 146, 2), // tfoot
    (1, false, 147, 2), // th
    (1, false, 148, 2), // thead
    (1, false, 150, 2), // tr
    (2, true, 14, 1), // base
    (2, true, 15, 1), // basefont
    (2, true, 16, 1), // bgsound
    (2, true, 22, 2), // caption
    (2, true, 26, 3), // col
    (2, true, 27, 2), // colgroup
    (2, true, 92, 1), // link
    (2, true, 99, 1), // meta
    (2, true, 109, 1), // noframes
    (2, true, 126, 1), // script
    (2, true, 135, 1), // style
    (2, true, 141, 2), // tbody
    (2, true, 142, 4), // td
    (2, true, 143, 1), // template
    (2, true, 146, 2), // tfoot
    (2, true, 147, 4), // th
    (2, true, 148, 2), // thead
    (2, true, 149, 1), // title
    (2, true, 150, 5), // tr
    (2, false, 143, 1), // template
    (3, true, 13, 1), // b
    (3, true, 17, 1), // big
    (3, true, 18, 1), // blockquote
    (3, true, 19, 1), // body
    (3, true, 20, 1), // br
    (3, true, 23, 1), // center
    (3, true, 25, 1), // code
    (3, true, 28, 1), // dd
    (3, true, 33, 1), // div
    (3, true, 34, 1), // dl
    (3, true, 35, 1), // dt
    (3, true, 36, 1), // em
    (3, true, 37, 1), // embed
    (3, true, 66, 2), // font
    (3, true, 73, 1), // h1
    (3, true, 74, 1), // h2
    (3, true, 75, 1), // h3
    (3, true, 76, 1), // h4
    (3, true, 77, 1), // h5
    (3, true, 78, 1), // h6
    (3, true, 79, 1), // head
    (3, true, 82, 1), // hr
    (3, true, 84, 1), // i
    (3, true, 87, 1), // img
    (3, true, 90, 1), // li
    (3, true, 93, 1), // listing
    (3, true, 98, 1), // menu
    (3, true, 99, 1), // meta
    (3, true, 107, 1), // nobr
    (3, true, 112, 1), // ol
    (3, true, 115, 1), // p
    (3, true, 118, 1), // pre
    (3, true, 124, 1), // ruby
    (3, true, 125, 1), // s
    (3, true, 130, 1), // small
    (3, true, 132, 1), // span
    (3, true, 133, 1), // strike
    (3, true, 134, 1), // strong
    (3, true, 136, 1), // sub
    (3, true, 138, 1), // sup
    (3, true, 140, 1), // table
    (3, true, 152, 1), // tt
    (3, true, 153, 1), // u
    (3, true, 154, 1), // ul
    (3, true, 155, 1), // var
    (3, false, 20, 1), // br
    (3, false, 115, 1), // p
];

/// The groups of what has no known name, a row for each and a column a mode: other start, other end, white, nul, other, comment, doctype, end of input.
pub(super) static NAMELESS: [&[u8]; 8] = [
    &[0, 0, 0, 0],
    &[0, 0, 6, 3],
    &[10, 0, 7, 4],
    &[0, 0, 7, 5],
    &[10, 0, 7, 6],
    &[11, 0, 7, 7],
    &[0, 0, 7, 8],
    &[2, 0, 8, 8],
];

/// The steps of the ways.
pub(super) static STEPS: [Step; 51] = [
    Asked(Test::CurrentIs(Known::OPTION), true),
    Does(Act::Pop),
    Asked(Test::CurrentIs(Known::OPTGROUP), true),
    Does(Act::Pop),
    Does(Act::Insert),
    Does(Act::Pop),
    Asked(Test::CurrentIs(Known::OPTGROUP), false),
    Asked(Test::CurrentIs(Known::OPTION), false),
    Does(Act::As(Mode::InBody)),
    Asked(
        Test::InScope(Scope::Select, Which::Named(Known::SELECT)),
        true,
    ),
    Does(Act::Through(Which::Named(Known::SELECT))),
    Does(Act::Reset),
    Does(Act::Again),
    Asked(
        Test::InScope(Scope::Select, Which::Named(Known::SELECT)),
        false,
    ),
    Does(Act::As(Mode::InHead)),
    Asked(Test::InScope(Scope::Select, Which::Its), true),
    Does(Act::Through(Which::Its)),
    Asked(Test::InScope(Scope::Select, Which::Its), false),
    Asked(Test::BelowIs(Known::OPTGROUP), true),
    Asked(Test::BelowIs(Known::OPTGROUP), false),
    Does(Act::Characters),
    Does(Act::Comment),
    Does(Act::As(Mode::InSelect)),
    Asked(Test::InScope(Scope::Table, Which::Its), true),
    Asked(Test::InScope(Scope::Table, Which::Its), false),
    Does(Act::ReplaceTemplateMode(Mode::InBody)),
    Does(Act::Switch(Mode::InBody)),
    Does(Act::ReplaceTemplateMode(Mode::InTable)),
    Does(Act::Switch(Mode::InTable)),
    Does(Act::ReplaceTemplateMode(Mode::InColumnGroup)),
    Does(Act::Switch(Mode::InColumnGroup)),
    Does(Act::ReplaceTemplateMode(Mode::InRow)),
    Does(Act::Switch(Mode::InRow)),
    Does(Act::ReplaceTemplateMode(Mode::InTableBody)),
    Does(Act::Switch(Mode::InTableBody)),
    Asked(Test::TemplateInStack, true),
    Does(Act::Through(Which::Named(Known::TEMPLATE))),
    Does(Act::ClearToMarker),
    Does(Act::PopTemplateMode),
    Asked(Test::TemplateInStack, false),
    Does(Act::Stop),
    Does(Act::InsertAsCurrent),
    Does(Act::PopToPoint),
    Does(Act::AsPresent),
    Asked(Test::HasFontAttribute, true),
    Asked(Test::HasFontAttribute, false),
    Asked(Test::NamesForeign, true),
    Does(Act::ThroughForeign),
    Asked(Test::NamesForeign, false),
    Does(Act::Replacement),
    Does(Act::FramesetNotOk),
];

/// Each way: the column of its mode, its group, and from where to where the places of its steps stand in `PLACES`.
pub(super) static WAYS: [(usize, u8, usize, usize); 52] = [
    (0, 0, 0, 0),
    (0, 1, 0, 6),
    (0, 1, 6, 11),
    (0, 1, 11, 16),
    (0, 1, 16, 20),
    (0, 2, 20, 21),
    (0, 3, 21, 25),
    (0, 3, 25, 26),
    (0, 4, 26, 31),
    (0, 4, 31, 35),
    (0, 4, 35, 39),
    (0, 4, 39, 42),
    (0, 5, 42, 45),
    (0, 5, 45, 47),
    (0, 6, 47, 48),
    (0, 7, 48, 51),
    (0, 7, 51, 52),
    (0, 8, 52, 57),
    (0, 8, 57, 61),
    (0, 8, 61, 65),
    (0, 8, 65, 68),
    (0, 8, 68, 71),
    (0, 8, 71, 73),
    (0, 9, 73, 75),
    (0, 9, 75, 76),
    (0, 10, 76, 77),
    (0, 11, 77, 78),
    (1, 0, 78, 79),
    (1, 1, 79, 82),
    (1, 2, 82, 86),
    (1, 2, 86, 87),
    (2, 0, 87, 90),
    (2, 1, 90, 91),
    (2, 2, 91, 94),
    (2, 3, 94, 97),
    (2, 4, 97, 100),
    (2, 5, 100, 103),
    (2, 6, 103, 103),
    (2, 7, 103, 104),
    (2, 8, 104, 110),
    (2, 8, 110, 112),
    (3, 0, 112, 113),
    (3, 1, 113, 115),
    (3, 2, 115, 118),
    (3, 2, 118, 120),
    (3, 3, 120, 122),
    (3, 3, 122, 124),
    (3, 4, 124, 125),
    (3, 5, 125, 126),
    (3, 6, 126, 128),
    (3, 7, 128, 129),
    (3, 8, 129, 129),
];

/// The places in `STEPS` of the ways' steps, way after way.
pub(super) static PLACES: [u8; 129] = [
    0, 1, 2, 1, 4, 1, 0, 1, 6, 4, 1, 7, 2, 1, 4, 1, 7, 6, 4, 1, 8, 9, 10, 11, 12, 13, 0, 1, 2, 1,
    4, 0, 1, 6, 4, 7, 2, 1, 4, 7, 6, 4, 0, 1, 4, 7, 4, 14, 15, 16, 11, 17, 0, 18, 1, 2, 1, 0, 18,
    1, 6, 0, 19, 2, 1, 0, 19, 6, 7, 2, 1, 7, 6, 0, 1, 7, 20, 21, 22, 10, 11, 12, 23, 10, 11, 12,
    24, 25, 26, 12, 14, 27, 28, 12, 29, 30, 12, 31, 32, 12, 33, 34, 12, 8, 35, 36, 37, 38, 11, 12,
    39, 40, 41, 42, 43, 44, 42, 43, 45, 41, 46, 47, 48, 43, 20, 49, 20, 50, 21,
];
