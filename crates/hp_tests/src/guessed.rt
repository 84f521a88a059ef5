//! Steps over the guess of a prescan: each comes out, and what was asked is true of the guessed state.
ghost use Rattle.std.specs.Prelude.{◌≡◌};

use crate::carrying::Step::{
    self, Crosses, Does, Fails, Fosters, Handles, Holds, IsHtml, LastTag, Notes, Puts, Reads,
    ReadsBelow,
};
use crate::carrying::count_of;
use crate::parts::chunk_of;
use hp_control::{Assumptions, Control, Guess, truth};
use hp_elements::{Act, Known, Mode, Scope, SetName, Test, Which};
use hp_predict::Prescan;
use hp_steps::Steps;
use hp_views::View;
use std::alloc::Global;
use std::marker::Brand;
use std::mem;
use std::process::Abort;
use std::sync::ledger::{Blank, Ledger};

const PARAGRAPH: Test = Test::InScope(Scope::Button, Which::Its);

const CELL: Test = Test::OneInScope(Scope::Table, SetName::Cells);

/// A text, steps over the state that a prescan reads off it, and how many own elements are open then and how many older ones are gone.
struct Case {
    before: &'static str,
    steps: &'static [Step],
    open: usize,
    gone: u64,
}

static CASES: &[Case] = &[
    Case {
        before: "<ul><li><dl><dt><p>",
        steps: &[
            Holds(Known::P, PARAGRAPH),
            Does(Known::P, Act::CloseParagraph),
            Fails(Known::P, PARAGRAPH),
            Does(Known::P, Act::Insert),
            Holds(Known::P, PARAGRAPH),
            Does(Known::DD, Act::CloseDescription),
            Does(Known::DL, Act::Through(Which::Its)),
            Does(Known::LI, Act::CloseItem),
            Does(Known::UL, Act::Walk),
        ],
        open: 0,
        gone: 5,
    },
    Case {
        before: "<form>",
        steps: &[
            Fails(Known::FORM, Test::TemplateInStack),
            Holds(Known::FORM, Test::HasForm),
            Does(Known::FORM, Act::EndForm),
            Does(Known::FORM, Act::InsertBare(Known::FORM)),
            Does(Known::FORM, Act::FormPointer),
            Does(Known::DIV, Act::Insert),
            Does(Known::FORM, Act::EndForm),
        ],
        open: 1,
        gone: 1,
    },
    Case {
        before: "<form><div>",
        steps: &[Crosses(Known::FORM, Act::EndForm)],
        open: 0,
        gone: 0,
    },
    Case {
        before: "<template><form>",
        steps: &[Does(Known::FORM, Act::EndForm)],
        open: 0,
        gone: 1,
    },
    Case {
        before: "<table><tr><td><p>",
        steps: &[
            Holds(Known::TD, CELL),
            Holds(Known::TD, Test::InTableModes),
            Does(Known::TD, Act::Implied),
            Holds(Known::TD, Test::CurrentIsIn(SetName::Cells)),
            Does(Known::TD, Act::ThroughFirstOf(SetName::Cells)),
            Does(Known::TD, Act::PopTo(SetName::TableContext)),
            Does(Known::TD, Act::Pop),
            Does(Known::TD, Act::Reset),
            Does(Known::TD, Act::Pop),
            Does(Known::TD, Act::Pop),
            IsHtml,
        ],
        open: 0,
        gone: 7,
    },
    Case {
        before: "<table><tbody>",
        steps: &[
            Fosters(Known::B, Act::Insert),
            Does(Known::B, Act::KeepOriginal),
            Does(Known::B, Act::Switch(Mode::InTableText)),
            Puts(Act::EmptyPending),
            Puts(Act::AppendPending),
            Puts(Act::Flush),
            Does(Known::B, Act::ToOriginal),
        ],
        open: 1,
        gone: 0,
    },
    Case {
        before: "<b><i>",
        steps: &[
            Does(Known::A, Act::Reconstruct),
            Holds(Known::A, Test::Listed(Known::B)),
            Does(Known::A, Act::CloseLink),
            Does(Known::A, Act::Insert),
            Does(Known::A, Act::AppendToList),
            Does(Known::A, Act::CloseLink),
            Does(Known::U, Act::Insert),
            Does(Known::U, Act::AppendToList),
            Does(Known::P, Act::Insert),
            Does(Known::U, Act::Adopt(Which::Its)),
            Does(Known::A, Act::Marker),
            Does(Known::A, Act::ClearToMarker),
            Crosses(Known::B, Act::Adopt(Which::Its)),
        ],
        open: 1,
        gone: 0,
    },
    Case {
        before: "<a><b><b><b>",
        steps: &[
            Does(Known::B, Act::Insert),
            Crosses(Known::B, Act::AppendToList),
            Crosses(Known::A, Act::CloseLink),
            Does(Known::B, Act::Pop),
            Does(Known::B, Act::Pop),
            Crosses(Known::P, Act::Reconstruct),
        ],
        open: 0,
        gone: 1,
    },
    Case {
        before: "<div>",
        steps: &[
            Fails(Known::SVG, Test::NamesForeign),
            Does(Known::SVG, Act::InsertForeign),
            Does(Known::A, Act::InsertAsCurrent),
            Holds(Known::A, Test::NamesForeign),
            Does(Known::A, Act::ThroughForeign),
            Does(Known::A, Act::PopToPoint),
            Puts(Act::Characters),
            Puts(Act::Replacement),
            Notes(Act::Comment),
            Notes(Act::CommentIntoFirst),
            IsHtml,
            LastTag,
            Handles(Known::P),
            Reads,
            Does(Known::P, Act::FramesetNotOk),
            Does(Known::P, Act::SkipLineFeed),
        ],
        open: 1,
        gone: 0,
    },
    Case {
        before: "<div>",
        steps: &[
            ReadsBelow,
            Handles(Known::LI),
            Reads,
            Does(Known::LI, Act::CloseItem),
            ReadsBelow,
        ],
        open: 0,
        gone: 0,
    },
    Case {
        before: "<template>",
        steps: &[
            Holds(Known::BODY, Test::SecondIsBody),
            Fails(Known::BODY, Test::IsQuirks),
            Fails(Known::BODY, Test::FramesetOk),
            Fails(Known::INPUT, Test::TypeIsHidden),
            Fails(Known::FONT, Test::HasFontAttribute),
            Holds(Known::BODY, Test::CurrentIs(Known::TEMPLATE)),
            Holds(Known::BODY, Test::BelowIs(Known::BODY)),
            Holds(Known::TEMPLATE, Test::TemplateInStack),
            Does(Known::TEMPLATE, Act::PushTemplateMode(Mode::InTable)),
            Does(Known::TEMPLATE, Act::ReplaceTemplateMode(Mode::InRow)),
            Holds(Known::TEMPLATE, Test::HasTemplateModes),
            Does(Known::TEMPLATE, Act::PopTemplateMode),
            Does(Known::TEMPLATE, Act::ImpliedThoroughly),
            Does(Known::TEMPLATE, Act::ImpliedExcept(Which::Its)),
            Does(Known::TEMPLATE, Act::ClearToMarker),
            Crosses(Known::TEMPLATE, Act::PopTemplateMode),
            Crosses(Known::TEMPLATE, Act::ReplaceTemplateMode(Mode::InRow)),
            Does(Known::BODY, Act::Insert),
            Holds(Known::BODY, Test::SecondIsBody),
        ],
        open: 1,
        gone: 0,
    },
    Case {
        before: "",
        steps: &[
            Crosses(Known::HTML, Act::AddMissingToFirst),
            Crosses(Known::BODY, Act::AddMissingToBody),
            Crosses(Known::HTML, Act::Quirks),
            Crosses(Known::HTML, Act::QuirksOfDoctype),
            Crosses(Known::HEAD, Act::HeadPointer),
            Crosses(Known::TITLE, Act::PushHead),
            Crosses(Known::TITLE, Act::TakeHeadOff),
            Crosses(Known::FRAMESET, Act::DetachBody),
            Crosses(Known::FRAMESET, Act::PopToFirst),
        ],
        open: 0,
        gone: 0,
    },
];

/// Whether each answer that was kept is true of the state.
fn are_true(state: &Control, kept: &Assumptions) -> bool {
    are_true_by::<Brand>(state, kept, Blank::new(1))
}

/// The same by a counter of that ledger.
fn are_true_by<L: Ledger>(state: &Control, kept: &Assumptions, blank: Blank) -> bool
    requires name { blank.name ≡ L.name }
    requires parts { blank.parts ≡ L.parts }
    requires one { blank.parts ≡ 1 }
{
    let mut steps = Steps::<L>::start(blank);
    for pair in kept.as_slice() {
        if !truth(state, &pair.question, &pair.answer, &mut steps) {
            return false;
        }
    }
    true
}

/// A view over what a prescan guesses behind that text.
fn over<'p>(rt: &impl Abort, alloc: Global, before: &'static str) -> View<'p, Guess<Prescan>> {
    let chunk = chunk_of(rt, before, before.len(), before.len());
    let prescan = Prescan::new(alloc, &chunk).expect(rt, "there is memory");
    let (view, answer) = View::guessed(alloc, Guess::new(prescan)).expect(rt, "there is memory");
    mem::forget(answer);
    view
}

/// Whether each step of the case comes out, so many own elements are open then, so many older ones are gone, and what was asked is true.
fn passes(rt: &impl Abort, alloc: Global, case: &Case) -> bool {
    let mut view = over(rt, alloc, case.before);
    let count = count_of(alloc, &mut view, case.steps);
    let well = count == case.steps.len()
        && view.change.stack.len() == case.open
        && view.change.popped == case.gone
        && are_true(view.below.predictor().state(), view.below.kept());
    mem::forget(view);
    well
}

fn all_pass(rt: &impl Abort, alloc: Global, cases: &[Case]) {
    for case in cases {
        assert!(rt; passes(rt, alloc, case), "behind {}", case.before);
    }
}

#[test]
fn acts_are_carried_out_over_a_guess(rt: HostRuntime) {
    all_pass(&rt, rt.alloc(), CASES);
}
