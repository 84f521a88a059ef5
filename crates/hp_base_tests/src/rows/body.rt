//! What an independent reading of the rules does in in body, text.
//! `tools/rule_table.py` prints this file, and without a crate the same as text to be read.
use super::Step::{self, Asked, Does};
use hp_elements::{Act, Known, Mode, Rest, Scope, SetName, Test, Which};

/// The known names whose tag has another group than the tag of another name: the column of the mode, whether it is
/// a start tag, the number of the name, the group.
pub(super) static NAMED: [(usize, bool, usize, u8); 165] = [
    (0, true, 0, 0), // a
    (0, true, 1, 1), // address
    (0, true, 9, 3), // applet
    (0, true, 10, 4), // area
    (0, true, 11, 1), // article
    (0, true, 12, 1), // aside
    (0, true, 13, 5), // b
    (0, true, 14, 6), // base
    (0, true, 15, 6), // basefont
    (0, true, 16, 6), // bgsound
    (0, true, 17, 5), // big
    (0, true, 18, 1), // blockquote
    (0, true, 19, 7), // body
    (0, true, 20, 4), // br
    (0, true, 21, 8), // button
    (0, true, 22, 9), // caption
    (0, true, 23, 1), // center
    (0, true, 25, 5), // code
    (0, true, 26, 9), // col
    (0, true, 27, 9), // colgroup
    (0, true, 28, 10), // dd
    (0, true, 30, 1), // details
    (0, true, 31, 1), // dialog
    (0, true, 32, 1), // dir
    (0, true, 33, 1), // div
    (0, true, 34, 1), // dl
    (0, true, 35, 10), // dt
    (0, true, 36, 5), // em
    (0, true, 37, 4), // embed
    (0, true, 63, 1), // fieldset
    (0, true, 64, 1), // figcaption
    (0, true, 65, 1), // figure
    (0, true, 66, 5), // font
    (0, true, 67, 1), // footer
    (0, true, 69, 11), // form
    (0, true, 70, 9), // frame
    (0, true, 71, 12), // frameset
    (0, true, 73, 13), // h1
    (0, true, 74, 13), // h2
    (0, true, 75, 13), // h3
    (0, true, 76, 13), // h4
    (0, true, 77, 13), // h5
    (0, true, 78, 13), // h6
    (0, true, 79, 9), // head
    (0, true, 80, 1), // header
    (0, true, 81, 1), // hgroup
    (0, true, 82, 14), // hr
    (0, true, 83, 15), // html
    (0, true, 84, 5), // i
    (0, true, 85, 16), // iframe
    (0, true, 86, 17), // image
    (0, true, 87, 4), // img
    (0, true, 88, 18), // input
    (0, true, 89, 4), // keygen
    (0, true, 90, 19), // li
    (0, true, 92, 6), // link
    (0, true, 93, 20), // listing
    (0, true, 94, 1), // main
    (0, true, 96, 3), // marquee
    (0, true, 97, 21), // math
    (0, true, 98, 1), // menu
    (0, true, 99, 6), // meta
    (0, true, 106, 1), // nav
    (0, true, 107, 22), // nobr
    (0, true, 108, 23), // noembed
    (0, true, 109, 6), // noframes
    (0, true, 111, 3), // object
    (0, true, 112, 1), // ol
    (0, true, 113, 24), // optgroup
    (0, true, 114, 24), // option
    (0, true, 115, 1), // p
    (0, true, 116, 25), // param
    (0, true, 117, 26), // plaintext
    (0, true, 118, 20), // pre
    (0, true, 120, 27), // rb
    (0, true, 121, 28), // rp
    (0, true, 122, 28), // rt
    (0, true, 123, 27), // rtc
    (0, true, 125, 5), // s
    (0, true, 126, 6), // script
    (0, true, 127, 1), // search
    (0, true, 128, 1), // section
    (0, true, 129, 29), // select
    (0, true, 130, 5), // small
    (0, true, 131, 25), // source
    (0, true, 133, 5), // strike
    (0, true, 134, 5), // strong
    (0, true, 135, 6), // style
    (0, true, 137, 1), // summary
    (0, true, 139, 21), // svg
    (0, true, 140, 30), // table
    (0, true, 141, 9), // tbody
    (0, true, 142, 9), // td
    (0, true, 143, 6), // template
    (0, true, 145, 31), // textarea
    (0, true, 146, 9), // tfoot
    (0, true, 147, 9), // th
    (0, true, 148, 9), // thead
    (0, true, 149, 6), // title
    (0, true, 150, 9), // tr
    (0, true, 151, 25), // track
    (0, true, 152, 5), // tt
    (0, true, 153, 5), // u
    (0, true, 154, 1), // ul
    (0, true, 156, 4), // wbr
    (0, true, 157, 32), // xmp
    (0, false, 0, 33), // a
    (0, false, 1, 34), // address
    (0, false, 9, 36), // applet
    (0, false, 11, 34), // article
    (0, false, 12, 34), // aside
    (0, false, 13, 33), // b
    (0, false, 17, 33), // big
    (0, false, 18, 34), // blockquote
    (0, false, 19, 37), // body
    (0, false, 20, 38), // br
    (0, false, 21, 34), // button
    (0, false, 23, 34), // center
    (0, false, 25, 33), // code
    (0, false, 28, 39), // dd
    (0, false, 30, 34), // details
    (0, false, 31, 34), // dialog
    (0, false, 32, 34), // dir
    (0, false, 33, 34), // div
    (0, false, 34, 34), // dl
    (0, false, 35, 39), // dt
    (0, false, 36, 33), // em
    (0, false, 63, 34), // fieldset
    (0, false, 64, 34), // figcaption
    (0, false, 65, 34), // figure
    (0, false, 66, 33), // font
    (0, false, 67, 34), // footer
    (0, false, 69, 40), // form
    (0, false, 73, 41), // h1
    (0, false, 74, 41), // h2
    (0, false, 75, 41), // h3
    (0, false, 76, 41), // h4
    (0, false, 77, 41), // h5
    (0, false, 78, 41), // h6
    (0, false, 80, 34), // header
    (0, false, 81, 34), // hgroup
    (0, false, 83, 42), // html
    (0, false, 84, 33), // i
    (0, false, 90, 43), // li
    (0, false, 93, 34), // listing
    (0, false, 94, 34), // main
    (0, false, 96, 36), // marquee
    (0, false, 98, 34), // menu
    (0, false, 106, 34), // nav
    (0, false, 107, 33), // nobr
    (0, false, 111, 36), // object
    (0, false, 112, 34), // ol
    (0, false, 115, 44), // p
    (0, false, 118, 34), // pre
    (0, false, 125, 33), // s
    (0, false, 127, 34), // search
    (0, false, 128, 34), // section
    (0, false, 130, 33), // small
    (0, false, 133, 33), // strike
    (0, false, 134, 33), // strong
    (0, false, 137, 34), // summary
    (0, false, 143, 6), // template
    (0, false, 152, 33), // tt
    (0, false, 153, 33), // u
    (0, false, 154, 34), // ul
];

/// The groups of what has no known name, a row for each and a column a mode: other start, other end, white, nul, other, comment, doctype, end of input.
pub(super) static NAMELESS: [&[u8]; 8] = [
    &[2, 0],
    &[35, 1],
    &[45, 2],
    &[9, 2],
    &[46, 2],
    &[47, 3],
    &[9, 0],
    &[48, 4],
];

/// The steps of the ways.
pub(super) static STEPS: [Step; 78] = [
    Does(Act::CloseLink),
    Does(Act::Reconstruct),
    Does(Act::Insert),
    Does(Act::AppendToList),
    Does(Act::CloseParagraph),
    Does(Act::Marker),
    Does(Act::FramesetNotOk),
    Does(Act::Pop),
    Does(Act::As(Mode::InHead)),
    Asked(Test::SecondIsBody, true),
    Asked(Test::TemplateInStack, true),
    Asked(Test::TemplateInStack, false),
    Does(Act::AddMissingToBody),
    Asked(Test::SecondIsBody, false),
    Asked(Test::InScope(Scope::Default, Which::Its), true),
    Does(Act::Implied),
    Does(Act::Through(Which::Its)),
    Asked(Test::InScope(Scope::Default, Which::Its), false),
    Does(Act::CloseDescription),
    Asked(Test::HasForm, true),
    Does(Act::FormPointer),
    Asked(Test::HasForm, false),
    Asked(Test::FramesetOk, true),
    Does(Act::DetachBody),
    Does(Act::PopToFirst),
    Does(Act::Switch(Mode::InFrameset)),
    Asked(Test::FramesetOk, false),
    Asked(Test::CurrentIsIn(SetName::Headings), true),
    Asked(Test::CurrentIsIn(SetName::Headings), false),
    Does(Act::AddMissingToFirst),
    Does(Act::Lexer(Rest::Rawtext)),
    Does(Act::KeepOriginal),
    Does(Act::Switch(Mode::Text)),
    Does(Act::AgainAs(Known::IMG)),
    Asked(Test::TypeIsHidden, true),
    Asked(Test::TypeIsHidden, false),
    Does(Act::CloseItem),
    Does(Act::SkipLineFeed),
    Does(Act::InsertForeign),
    Does(Act::Adopt(Which::Its)),
    Asked(Test::CurrentIs(Known::OPTION), true),
    Asked(Test::CurrentIs(Known::OPTION), false),
    Does(Act::Lexer(Rest::Plaintext)),
    Asked(
        Test::InScope(Scope::Default, Which::Named(Known::RUBY)),
        true,
    ),
    Asked(
        Test::InScope(Scope::Default, Which::Named(Known::RUBY)),
        false,
    ),
    Does(Act::ImpliedExcept(Which::Named(Known::RTC))),
    Asked(Test::InTableModes, true),
    Does(Act::Switch(Mode::InSelectInTable)),
    Asked(Test::InTableModes, false),
    Does(Act::Switch(Mode::InSelect)),
    Asked(Test::IsQuirks, true),
    Does(Act::Switch(Mode::InTable)),
    Asked(Test::IsQuirks, false),
    Does(Act::Lexer(Rest::Rcdata)),
    Does(Act::Walk),
    Does(Act::ClearToMarker),
    Does(Act::Switch(Mode::AfterBody)),
    Does(Act::InsertBare(Known::BR)),
    Does(Act::ImpliedExcept(Which::Its)),
    Does(Act::EndForm),
    Asked(Test::OneInScope(Scope::Default, SetName::Headings), true),
    Does(Act::ThroughFirstOf(SetName::Headings)),
    Asked(Test::OneInScope(Scope::Default, SetName::Headings), false),
    Asked(
        Test::InScope(Scope::Default, Which::Named(Known::BODY)),
        true,
    ),
    Does(Act::Again),
    Asked(
        Test::InScope(Scope::Default, Which::Named(Known::BODY)),
        false,
    ),
    Asked(Test::InScope(Scope::ListItem, Which::Its), true),
    Asked(Test::InScope(Scope::ListItem, Which::Its), false),
    Asked(Test::InScope(Scope::Button, Which::Its), true),
    Asked(Test::InScope(Scope::Button, Which::Its), false),
    Does(Act::InsertBare(Known::P)),
    Does(Act::Characters),
    Does(Act::Comment),
    Asked(Test::HasTemplateModes, true),
    Does(Act::As(Mode::InTemplate)),
    Asked(Test::HasTemplateModes, false),
    Does(Act::Stop),
    Does(Act::ToOriginal),
];

/// Each way: the column of its mode, its group, and from where to where the places of its steps stand in `PLACES`.
pub(super) static WAYS: [(usize, u8, usize, usize); 83] = [
    (0, 0, 0, 4),
    (0, 1, 4, 6),
    (0, 2, 6, 8),
    (0, 3, 8, 12),
    (0, 4, 12, 16),
    (0, 5, 16, 19),
    (0, 6, 19, 20),
    (0, 7, 20, 22),
    (0, 7, 22, 26),
    (0, 7, 26, 27),
    (0, 8, 27, 33),
    (0, 8, 33, 37),
    (0, 9, 37, 37),
    (0, 10, 37, 41),
    (0, 11, 41, 46),
    (0, 11, 46, 52),
    (0, 11, 52, 54),
    (0, 11, 54, 58),
    (0, 11, 58, 63),
    (0, 12, 63, 69),
    (0, 12, 69, 71),
    (0, 12, 71, 72),
    (0, 13, 72, 76),
    (0, 13, 76, 79),
    (0, 14, 79, 83),
    (0, 15, 83, 84),
    (0, 15, 84, 86),
    (0, 16, 86, 91),
    (0, 17, 91, 92),
    (0, 18, 92, 96),
    (0, 18, 96, 101),
    (0, 19, 101, 105),
    (0, 20, 105, 109),
    (0, 21, 109, 111),
    (0, 22, 111, 117),
    (0, 22, 117, 121),
    (0, 23, 121, 125),
    (0, 24, 125, 129),
    (0, 24, 129, 132),
    (0, 25, 132, 134),
    (0, 26, 134, 137),
    (0, 27, 137, 140),
    (0, 27, 140, 142),
    (0, 28, 142, 145),
    (0, 28, 145, 147),
    (0, 29, 147, 152),
    (0, 29, 152, 157),
    (0, 30, 157, 161),
    (0, 30, 161, 166),
    (0, 31, 166, 172),
    (0, 32, 172, 179),
    (0, 33, 179, 180),
    (0, 34, 180, 183),
    (0, 34, 183, 184),
    (0, 35, 184, 185),
    (0, 36, 185, 189),
    (0, 36, 189, 190),
    (0, 37, 190, 192),
    (0, 37, 192, 193),
    (0, 38, 193, 197),
    (0, 39, 197, 200),
    (0, 39, 200, 201),
    (0, 40, 201, 205),
    (0, 40, 205, 207),
    (0, 40, 207, 209),
    (0, 41, 209, 212),
    (0, 41, 212, 213),
    (0, 42, 213, 216),
    (0, 42, 216, 217),
    (0, 43, 217, 220),
    (0, 43, 220, 221),
    (0, 44, 221, 223),
    (0, 44, 223, 226),
    (0, 45, 226, 228),
    (0, 46, 228, 231),
    (0, 47, 231, 232),
    (0, 48, 232, 234),
    (0, 48, 234, 236),
    (1, 0, 236, 236),
    (1, 1, 236, 238),
    (1, 2, 238, 239),
    (1, 3, 239, 240),
    (1, 4, 240, 243),
];

/// The places in `STEPS` of the ways' steps, way after way.
pub(super) static PLACES: [u8; 243] = [
    0, 1, 2, 3, 4, 2, 1, 2, 1, 2, 5, 6, 1, 2, 7, 6, 1, 2, 3, 8, 9, 10, 9, 11, 6, 12, 13, 14, 15,
    16, 1, 2, 6, 17, 1, 2, 6, 6, 18, 4, 2, 19, 10, 4, 2, 10, 19, 10, 4, 2, 11, 20, 19, 11, 21, 4,
    2, 10, 21, 4, 2, 11, 20, 9, 22, 23, 24, 2, 25, 9, 26, 13, 4, 27, 7, 2, 4, 28, 2, 4, 2, 7, 6,
    10, 11, 29, 6, 2, 30, 31, 32, 33, 1, 2, 7, 34, 1, 2, 7, 35, 6, 6, 36, 4, 2, 4, 2, 37, 6, 1, 38,
    1, 14, 39, 1, 2, 3, 1, 17, 2, 3, 2, 30, 31, 32, 40, 7, 1, 2, 41, 1, 2, 2, 7, 4, 2, 42, 43, 15,
    2, 44, 2, 43, 45, 2, 44, 2, 1, 2, 6, 46, 47, 1, 2, 6, 48, 49, 50, 2, 6, 51, 52, 4, 2, 6, 51, 2,
    53, 31, 32, 37, 6, 4, 1, 6, 2, 30, 31, 32, 39, 14, 15, 16, 17, 54, 14, 15, 16, 55, 17, 14, 56,
    17, 1, 57, 7, 6, 14, 58, 16, 17, 10, 14, 15, 16, 10, 17, 11, 59, 60, 15, 61, 62, 63, 56, 64,
    65, 66, 58, 16, 67, 68, 4, 69, 70, 4, 1, 71, 1, 71, 6, 72, 73, 74, 75, 76, 7, 77, 71, 72, 7,
    77, 64,
];
