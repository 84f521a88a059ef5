//! Steps over a known state: those that a guess would have to cross, among others.
use crate::carrying::Step::{self, Does, EmptiesForm, Fails, Holds, Notes};
use crate::carrying::count_of;
use hp_control::Control;
use hp_elements::{Act, Known, Test, Which};
use hp_views::View;
use std::alloc::Global;
use std::mem;
use std::process::Abort;

/// How the head and the body of a page are opened.
static OPENING: &[Step] = &[
    Does(Known::HTML, Act::PutDoctype),
    Does(Known::HTML, Act::QuirksOfDoctype),
    Does(Known::HTML, Act::InsertBareHtml),
    Does(Known::HEAD, Act::Insert),
    Does(Known::HEAD, Act::HeadPointer),
    Does(Known::HEAD, Act::Pop),
    Does(Known::BODY, Act::Insert),
];

/// Steps after that, and how many elements are open then and how many edits there are.
struct Case {
    steps: &'static [Step],
    open: usize,
    edits: usize,
}

static CASES: &[Case] = &[
    Case {
        steps: &[
            Holds(Known::BODY, Test::SecondIsBody),
            Does(Known::BODY, Act::AddMissingToBody),
            Does(Known::HTML, Act::AddMissingToFirst),
            Does(Known::HTML, Act::Quirks),
            Holds(Known::HTML, Test::IsQuirks),
            Does(Known::FRAMESET, Act::DetachBody),
            Does(Known::FRAMESET, Act::PopToFirst),
            Does(Known::TITLE, Act::PushHead),
            Does(Known::TITLE, Act::InsertHtml),
            Does(Known::TITLE, Act::TakeHeadOff),
        ],
        open: 2,
        edits: 12,
    },
    Case {
        steps: &[
            Notes(Act::Comment),
            Notes(Act::CommentIntoDocument),
            Notes(Act::CommentIntoFirst),
        ],
        open: 2,
        edits: 10,
    },
    Case {
        steps: &[
            Does(Known::B, Act::Insert),
            Does(Known::B, Act::AppendToList),
            Does(Known::P, Act::Insert),
            Does(Known::B, Act::Adopt(Which::Its)),
            Does(Known::I, Act::Insert),
            Does(Known::I, Act::AppendToList),
            Does(Known::I, Act::Pop),
            Does(Known::I, Act::Reconstruct),
            Does(Known::FORM, Act::FormPointer),
            EmptiesForm,
            Fails(Known::FORM, Test::HasForm),
        ],
        open: 4,
        edits: 19,
    },
];

/// Whether each step comes out from the state before the first token on, and so many elements are open then and so many edits made.
fn passes(alloc: Global, case: &Case) -> bool {
    let mut view = View::whole(Control::start());
    let opened = count_of(alloc, &mut view, OPENING);
    let count = count_of(alloc, &mut view, case.steps);
    let well = opened == OPENING.len()
        && count == case.steps.len()
        && view.change.stack.len() == case.open
        && view.edits.len() == case.edits;
    mem::forget(view);
    well
}

fn all_pass(rt: &impl Abort, alloc: Global, cases: &[Case]) {
    for (number, case) in cases.iter().enumerate() {
        assert!(rt; passes(alloc, case), "case {number}");
    }
}

#[test]
fn acts_are_carried_out_over_a_known_state(rt: HostRuntime) {
    all_pass(&rt, rt.alloc(), CASES);
}
