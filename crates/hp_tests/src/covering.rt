//! Guesses by what a stored state answers itself: how much of the second part of a page they cover.
ghost use Rattle.std.specs.Prelude.{◌≡◌, IfOk};
ghost use Rattle.hp_control.specs.Truth.{answer_of};

use crate::parts::{chunk_of, run_part};
use hp_control::{Answer, Control, Predictor, Question, answer};
use hp_elements::NoMemory;
use hp_fragment::speculate;
use hp_pieces::Fragment;
use std::alloc::Global;
use std::mem;
use std::process::Abort;

/// Says what this state is.
#[derive(Clone, Copy)]
struct Truth<'s> {
    state: &'s Control,
}

impl Predictor for Truth<'_> {
    ghost says = { λ truth. answer_of truth.state.now };

    fn say(&self, alloc: Global, question: &Question) -> Result<Answer, NoMemory> {
        answer(alloc, self.state, question)
    }
}

/// How many bytes of the part of the page behind the cut are covered by a guess that is right. What is owned is kept to the end of the
/// test.
fn covered_behind(rt: &impl Abort, alloc: Global, page: &str, cut: usize) -> u64 {
    let first = chunk_of(rt, page, 0, cut);
    let (state, _) = run_part(rt, alloc, first, Control::start());
    let second = chunk_of(rt, page, cut, page.len());
    let fragment = speculate(alloc, second, Truth { state: &state });
    let Fragment::Guessed(guessed) = fragment.expect(rt, "there is memory") else {
        panic!(rt; "what is speculated is a guess");
    };
    let covered = guessed.covered();
    mem::forget(guessed);
    mem::forget(state);
    covered
}

/// A page, a cut, and how many bytes behind it can be covered. In some an element closes what the first part opened; an adoption, a
/// template and the modes before the body touch it; the name of the last start tag is asked.
type Covered = (&'static str, usize, u64);

const COVERED: &[Covered] = &[
    ("<p>one two", 6, 4),
    ("<b><p>x</b>y", 7, 0),
    ("<table><tr><td>a</td></tr></table>b", 16, 19),
    ("<template><td>a</template>b", 15, 0),
    ("<textarea>ab</textarea>c", 11, 13),
    ("  x", 1, 0),
];

#[test]
fn right_guesses_cover_what_can_be_covered(rt: HostRuntime) {
    let alloc = rt.alloc();
    for (page, cut, covered) in COVERED {
        assert!(rt;
            covered_behind(&rt, alloc, page, *cut) == *covered,
            "over {page}"
        );
    }
}

const DEPTH: usize = 40;

const OPENS: &str = "<table><tr><td>";

const CLOSES: &str = "</td></tr></table>";

/// Tables within tables, which the second part closes one by one.
#[test]
fn a_right_guess_covers_the_ends_of_deep_tables(rt: HostRuntime) {
    let alloc = rt.alloc();
    let mut page = String::new(alloc);
    for _ in 0..DEPTH {
        page.push_str(OPENS).expect(&rt, "there is memory");
    }
    let cut = page.len();
    for _ in 0..DEPTH {
        page.push_str(CLOSES).expect(&rt, "there is memory");
    }
    let covered = covered_behind(&rt, alloc, page.as_str(), cut);
    mem::forget(page);
    assert!(rt; covered == (DEPTH * CLOSES.len()) as u64);
}
