//! What an independent reading of the rules does in initial, before html, before head, in head, in head noscript, after head, after body, in frameset, after frameset, after after body, after after frameset.
//! `tools/rule_table.py` prints this file, and without a crate the same as text to be read.
use super::Step::{self, Asked, Does};
use hp_elements::{Act, Known, Mode, Rest, Scope, SetName, Test, Which};

/// The known names whose tag has another group than the tag of another name: the column of the mode, whether it is
/// a start tag, the number of the name, the group.
pub(super) static NAMED: [(usize, bool, usize, u8); 71] = [
    (1, true, 83, 1), // html
    (1, false, 19, 0), // body
    (1, false, 20, 0), // br
    (1, false, 79, 0), // head
    (1, false, 83, 0), // html
    (2, true, 79, 1), // head
    (2, true, 83, 2), // html
    (2, false, 19, 0), // body
    (2, false, 20, 0), // br
    (2, false, 79, 0), // head
    (2, false, 83, 0), // html
    (3, true, 14, 1), // base
    (3, true, 15, 1), // basefont
    (3, true, 16, 1), // bgsound
    (3, true, 79, 2), // head
    (3, true, 83, 3), // html
    (3, true, 92, 1), // link
    (3, true, 99, 1), // meta
    (3, true, 109, 4), // noframes
    (3, true, 110, 5), // noscript
    (3, true, 126, 6), // script
    (3, true, 135, 4), // style
    (3, true, 143, 7), // template
    (3, true, 149, 8), // title
    (3, false, 19, 0), // body
    (3, false, 20, 0), // br
    (3, false, 79, 9), // head
    (3, false, 83, 0), // html
    (3, false, 143, 10), // template
    (4, true, 15, 1), // basefont
    (4, true, 16, 1), // bgsound
    (4, true, 79, 2), // head
    (4, true, 83, 3), // html
    (4, true, 92, 1), // link
    (4, true, 99, 1), // meta
    (4, true, 109, 1), // noframes
    (4, true, 110, 2), // noscript
    (4, true, 135, 1), // style
    (4, false, 20, 0), // br
    (4, false, 110, 4), // noscript
    (5, true, 14, 1), // base
    (5, true, 15, 1), // basefont
    (5, true, 16, 1), // bgsound
    (5, true, 19, 2), // body
    (5, true, 71, 3), // frameset
    (5, true, 79, 4), // head
    (5, true, 83, 5), // html
    (5, true, 92, 1), // link
    (5, true, 99, 1), // meta
    (5, true, 109, 1), // noframes
    (5, true, 126, 1), // script
    (5, true, 135, 1), // style
    (5, true, 143, 1), // template
    (5, true, 149, 1), // title
    (5, false, 19, 0), // body
    (5, false, 20, 0), // br
    (5, false, 83, 0), // html
    (5, false, 143, 6), // template
    (6, true, 83, 1), // html
    (6, false, 83, 2), // html
    (7, true, 70, 1), // frame
    (7, true, 71, 2), // frameset
    (7, true, 83, 3), // html
    (7, true, 109, 4), // noframes
    (7, false, 71, 5), // frameset
    (8, true, 83, 1), // html
    (8, true, 109, 2), // noframes
    (8, false, 83, 3), // html
    (9, true, 83, 1), // html
    (10, true, 83, 1), // html
    (10, true, 109, 2), // noframes
];

/// The groups of what has no known name, a row for each and a column a mode: other start, other end, white, nul, other, comment, doctype, end of input.
pub(super) static NAMELESS: [&[u8]; 8] = [
    &[0, 0, 0, 0, 0, 0, 0, 0, 0, 0, 0],
    &[0, 2, 3, 2, 2, 4, 0, 0, 0, 0, 0],
    &[1, 2, 3, 11, 1, 7, 1, 6, 4, 1, 1],
    &[0, 0, 0, 0, 0, 0, 0, 0, 0, 0, 0],
    &[0, 0, 0, 0, 0, 0, 0, 0, 0, 0, 0],
    &[2, 3, 4, 12, 1, 8, 3, 7, 5, 2, 3],
    &[3, 2, 3, 2, 2, 4, 4, 0, 0, 3, 0],
    &[0, 0, 0, 0, 0, 0, 5, 8, 6, 4, 4],
];

/// The steps of the ways.
pub(super) static STEPS: [Step; 50] = [
    Does(Act::Quirks),
    Does(Act::Switch(Mode::BeforeHtml)),
    Does(Act::Again),
    Does(Act::CommentIntoDocument),
    Does(Act::PutDoctype),
    Does(Act::QuirksOfDoctype),
    Does(Act::InsertBareHtml),
    Does(Act::Switch(Mode::BeforeHead)),
    Does(Act::InsertHtml),
    Does(Act::InsertBare(Known::HEAD)),
    Does(Act::HeadPointer),
    Does(Act::Switch(Mode::InHead)),
    Does(Act::Insert),
    Does(Act::As(Mode::InBody)),
    Does(Act::Comment),
    Does(Act::Pop),
    Does(Act::Switch(Mode::AfterHead)),
    Does(Act::Lexer(Rest::Rawtext)),
    Does(Act::KeepOriginal),
    Does(Act::Switch(Mode::Text)),
    Does(Act::Switch(Mode::InHeadNoscript)),
    Does(Act::Lexer(Rest::Script)),
    Does(Act::Marker),
    Does(Act::FramesetNotOk),
    Does(Act::Switch(Mode::InTemplate)),
    Does(Act::PushTemplateMode(Mode::InTemplate)),
    Does(Act::Lexer(Rest::Rcdata)),
    Asked(Test::TemplateInStack, true),
    Does(Act::ImpliedThoroughly),
    Does(Act::Through(Which::Its)),
    Does(Act::ClearToMarker),
    Does(Act::PopTemplateMode),
    Does(Act::Reset),
    Asked(Test::TemplateInStack, false),
    Does(Act::Characters),
    Does(Act::As(Mode::InHead)),
    Does(Act::InsertBare(Known::BODY)),
    Does(Act::Switch(Mode::InBody)),
    Does(Act::PushHead),
    Does(Act::TakeHeadOff),
    Does(Act::Switch(Mode::InFrameset)),
    Does(Act::Switch(Mode::AfterAfterBody)),
    Does(Act::CommentIntoFirst),
    Does(Act::Stop),
    Asked(Test::CurrentIs(Known::HTML), true),
    Asked(Test::CurrentIs(Known::HTML), false),
    Asked(Test::CurrentIs(Known::FRAMESET), true),
    Asked(Test::CurrentIs(Known::FRAMESET), false),
    Does(Act::Switch(Mode::AfterFrameset)),
    Does(Act::Switch(Mode::AfterAfterFrameset)),
];

/// Each way: the column of its mode, its group, and from where to where the places of its steps stand in `PLACES`.
pub(super) static WAYS: [(usize, u8, usize, usize); 75] = [
    (0, 0, 0, 3),
    (0, 1, 3, 3),
    (0, 2, 3, 4),
    (0, 3, 4, 7),
    (1, 0, 7, 10),
    (1, 1, 10, 12),
    (1, 2, 12, 12),
    (1, 3, 12, 13),
    (2, 0, 13, 17),
    (2, 1, 17, 20),
    (2, 2, 20, 21),
    (2, 3, 21, 21),
    (2, 4, 21, 22),
    (3, 0, 22, 25),
    (3, 1, 25, 27),
    (3, 2, 27, 27),
    (3, 3, 27, 28),
    (3, 4, 28, 32),
    (3, 5, 32, 34),
    (3, 6, 34, 38),
    (3, 7, 38, 43),
    (3, 8, 43, 47),
    (3, 9, 47, 49),
    (3, 10, 49, 55),
    (3, 10, 55, 56),
    (3, 11, 56, 57),
    (3, 12, 57, 58),
    (4, 0, 58, 61),
    (4, 1, 61, 62),
    (4, 2, 62, 62),
    (4, 3, 62, 63),
    (4, 4, 63, 65),
    (5, 0, 65, 68),
    (5, 1, 68, 71),
    (5, 2, 71, 74),
    (5, 3, 74, 76),
    (5, 4, 76, 76),
    (5, 5, 76, 77),
    (5, 6, 77, 78),
    (5, 7, 78, 79),
    (5, 8, 79, 80),
    (6, 0, 80, 82),
    (6, 1, 82, 83),
    (6, 2, 83, 84),
    (6, 3, 84, 85),
    (6, 4, 85, 85),
    (6, 5, 85, 86),
    (7, 0, 86, 86),
    (7, 1, 86, 88),
    (7, 2, 88, 89),
    (7, 3, 89, 90),
    (7, 4, 90, 91),
    (7, 5, 91, 92),
    (7, 5, 92, 95),
    (7, 5, 95, 99),
    (7, 6, 99, 100),
    (7, 7, 100, 101),
    (7, 8, 101, 102),
    (8, 0, 102, 102),
    (8, 1, 102, 103),
    (8, 2, 103, 104),
    (8, 3, 104, 105),
    (8, 4, 105, 106),
    (8, 5, 106, 107),
    (8, 6, 107, 108),
    (9, 0, 108, 110),
    (9, 1, 110, 111),
    (9, 2, 111, 112),
    (9, 3, 112, 112),
    (9, 4, 112, 113),
    (10, 0, 113, 113),
    (10, 1, 113, 114),
    (10, 2, 114, 115),
    (10, 3, 115, 116),
    (10, 4, 116, 117),
];

/// The places in `STEPS` of the ways' steps, way after way.
pub(super) static PLACES: [u8; 117] = [
    0, 1, 2, 3, 4, 5, 1, 6, 7, 2, 8, 7, 3, 9, 10, 11, 2, 12, 10, 11, 13, 14, 15, 16, 2, 12, 15, 13,
    12, 17, 18, 19, 12, 20, 12, 21, 18, 19, 12, 22, 23, 24, 25, 12, 26, 18, 19, 15, 16, 27, 28, 29,
    30, 31, 32, 33, 34, 14, 15, 11, 2, 35, 13, 15, 11, 36, 37, 2, 38, 35, 39, 12, 23, 37, 12, 40,
    13, 35, 34, 14, 37, 2, 13, 41, 42, 43, 12, 15, 12, 13, 35, 44, 45, 15, 46, 45, 15, 47, 48, 34,
    14, 43, 13, 35, 49, 34, 14, 43, 37, 2, 13, 3, 43, 13, 35, 3, 43,
];
