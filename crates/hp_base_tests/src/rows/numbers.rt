//! Acts and tests as numbers, by which they are compared.
use hp_elements::{Act, Known, Test, Which};

/// The number of an act's kind; 0 where it asks a test.
fn kind_of(act: Act) -> usize {
    match act {
        Act::If { .. } | Act::Unless { .. } => 0,
        Act::Done => 1,
        Act::Again => 2,
        Act::AgainAs(_) => 3,
        Act::As(_) => 4,
        Act::AsFostered(_) => 5,
        Act::AsPresent => 6,
        Act::Stop => 7,
        Act::Characters => 8,
        Act::Replacement => 9,
        Act::Comment => 10,
        Act::CommentIntoDocument => 11,
        Act::CommentIntoFirst => 12,
        Act::PutDoctype => 13,
        Act::QuirksOfDoctype => 14,
        Act::Quirks => 15,
        Act::AddMissingToFirst => 16,
        Act::AddMissingToBody => 17,
        Act::Insert => 18,
        Act::InsertBare(_) => 19,
        Act::InsertForeign => 20,
        Act::InsertAsCurrent => 21,
        Act::InsertHtml => 22,
        Act::InsertBareHtml => 23,
        Act::PushHead => 24,
        Act::Reconstruct => 25,
        Act::Pop => 26,
        Act::PopTo(_) => 27,
        Act::PopToFirst => 28,
        Act::PopToPoint => 29,
        Act::Through(_) => 30,
        Act::ThroughFirstOf(_) => 31,
        Act::ThroughForeign => 32,
        Act::Implied => 33,
        Act::ImpliedExcept(_) => 34,
        Act::ImpliedThoroughly => 35,
        Act::CloseParagraph => 36,
        Act::CloseItem => 37,
        Act::CloseDescription => 38,
        Act::Walk => 39,
        Act::DetachBody => 40,
        Act::TakeHeadOff => 41,
        Act::EndForm => 42,
        Act::CloseLink => 43,
        Act::AppendToList => 44,
        Act::Adopt(_) => 45,
        Act::Marker => 46,
        Act::ClearToMarker => 47,
        Act::FramesetNotOk => 48,
        Act::SkipLineFeed => 49,
        Act::Lexer(_) => 50,
        Act::HeadPointer => 51,
        Act::FormPointer => 52,
        Act::Reset => 53,
        Act::KeepOriginal => 54,
        Act::ToOriginal => 55,
        Act::Switch(_) => 56,
        Act::PushTemplateMode(_) => 57,
        Act::ReplaceTemplateMode(_) => 58,
        Act::PopTemplateMode => 59,
        Act::EmptyPending => 60,
        Act::AppendPending => 61,
        Act::Flush => 62,
    }
}

/// The number of a test's kind.
fn kind_of_test(test: Test) -> usize {
    match test {
        Test::InScope(..) => 0,
        Test::OneInScope(..) => 1,
        Test::TemplateInStack => 2,
        Test::HasTemplateModes => 3,
        Test::SecondIsBody => 4,
        Test::FramesetOk => 5,
        Test::IsQuirks => 6,
        Test::HasForm => 7,
        Test::CurrentIs(..) => 8,
        Test::CurrentIsIn(..) => 9,
        Test::BelowIs(..) => 10,
        Test::Listed(..) => 11,
        Test::TypeIsHidden => 12,
        Test::InTableModes => 13,
        Test::HasFontAttribute => 14,
        Test::NamesForeign => 15,
    }
}

/// The number of a name: 240 for the token's own, also where it is told by that name.
fn number_of(which: Which, own: Option<Known>) -> usize {
    match which {
        Which::Named(known) if Some(known) != own => known.index(),
        _ => 240,
    }
}

/// The number of what an act is about, among all that such an act may be about; 0 where it is about nothing.
fn subject_of(act: Act, own: Option<Known>) -> usize {
    match act {
        Act::AgainAs(known) | Act::InsertBare(known) => known.index(),
        Act::As(mode)
        | Act::AsFostered(mode)
        | Act::Switch(mode)
        | Act::PushTemplateMode(mode)
        | Act::ReplaceTemplateMode(mode) => mode as usize,
        Act::PopTo(set) | Act::ThroughFirstOf(set) => set as usize,
        Act::Through(which) | Act::ImpliedExcept(which) | Act::Adopt(which) => {
            number_of(which, own)
        }
        Act::Lexer(rest) => rest as usize,
        _ => 0,
    }
}

/// The numbers of the scope that a test is about, if it is, and of what else it is about.
fn subject_of_test(test: Test, own: Option<Known>) -> (usize, usize) {
    match test {
        Test::InScope(scope, which) => (scope as usize, number_of(which, own)),
        Test::OneInScope(scope, set) => (scope as usize, set as usize),
        Test::CurrentIs(known) | Test::BelowIs(known) | Test::Listed(known) => (0, known.index()),
        Test::CurrentIsIn(set) => (0, set as usize),
        _ => (0, 0),
    }
}

/// Whether an act of a row is that of the reading, which asks no test. The token's own name is told as such in the reading.
pub(super) fn is_act(found: Act, own: Option<Known>, wanted: Act) -> bool {
    kind_of(found) == kind_of(wanted) && subject_of(found, own) == subject_of(wanted, None)
}

/// Whether a test of a row is that of the reading.
pub(super) fn is_test(found: Test, own: Option<Known>, wanted: Test) -> bool {
    let (scope, subject) = subject_of_test(found, own);
    let (wanted_scope, wanted_subject) = subject_of_test(wanted, None);
    kind_of_test(found) == kind_of_test(wanted)
        && scope == wanted_scope
        && subject == wanted_subject
}
