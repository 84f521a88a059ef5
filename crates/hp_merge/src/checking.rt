//! Whether a fragment may be joined to a state.
ghost use Rattle.std.specs.Prelude.{◌≡◌, ◌+◌, ◌≤◌, MatchOption, length};
ghost use Rattle.hp_control.specs.Holds.{Holds};
ghost use Rattle.hp_names.specs.BuiltIn.{built_in};
ghost use Rattle.hp_pieces.specs.Guesses.{IsSound};

use hp_control::{Answer, Control, Kept, Question, truth};
use hp_pieces::{Fragment, Guessed};
use hp_steps::Steps;
use std::sync::ledger::Ledger;

/// What comes of looking at a fragment over a known state.
#[derive(Clone, Copy)]
pub enum Checked<'f> {
    /// What it assumes is true.
    Holds,
    /// This is the first answer that it assumes and that isn't the true one.
    Fails {
        question: &'f Question,
        answer: &'f Answer,
    },
    /// It is exact from another state.
    OtherEntry,
}

/// The same, where the first wrong answer is told by its place.
#[derive(Clone, Copy)]
pub enum Looked {
    /// What it assumes is true.
    Holds,
    /// The answer at this place among those that it assumes, counted from 0, is the first that isn't the true one.
    Fails { place: usize },
    /// It is exact from another state.
    OtherEntry,
}

ghost use Rattle.hp_merge.specs.Checked.{IsChecked, IsFirstFalseAt, IsLooked};
ghost use Rattle.hp_merge.specs.Cost.{check_cost};
ghost use Rattle.hp_merge.specs.Sound.{IsSoundFragment};

/// Each fragment is sound over the built-in names: this hands the fact to whoever has one.
pub fn is_sound(fragment: &Fragment<'_>)
    ensures { IsSoundFragment fragment.now }
{
    match fragment {
        Fragment::Exact(exact) => {
            let _text = exact.text();
        }
        Fragment::Guessed(guessed) => is_sound_guess(guessed),
    }
}

/// The same of a guess.
pub(crate) fn is_sound_guess(guessed: &Guessed<'_>)
    ensures sound { IsSound guessed.now }
    ensures names { guessed.now.names ≡ built_in }
{
    let _text = guessed.text();
}

/// What comes of looking at a fragment over this state. It takes no memory, and a step for each answer that is looked at.
pub(crate) fn check<'f, L: Ledger>(
    control: &Control,
    fragment: &'f Fragment<'_>,
    steps: &mut Steps<L>,
) -> Checked<'f>
    ensures checked { IsChecked control.now fragment.now result }
    ensures cost { steps.new ≤ steps.old + check_cost fragment.now }
{
    match (look(control, fragment, steps), fragment) {
        (Looked::Holds, _) => Checked::Holds,
        (Looked::Fails { place }, Fragment::Guessed(guessed)) => {
            let Kept { question, answer } = &guessed.assumptions().as_slice()[place];
            Checked::Fails { question, answer }
        }
        _ => Checked::OtherEntry,
    }
}

/// The same, where the first wrong answer is told by its place.
pub(crate) fn look<L: Ledger>(
    control: &Control,
    fragment: &Fragment<'_>,
    steps: &mut Steps<L>,
) -> Looked
    ensures looked { IsLooked control.now fragment.now result }
    ensures cost { steps.new ≤ steps.old + check_cost fragment.now }
{
    match fragment {
        Fragment::Exact(exact) => {
            if exact.entry().same(control) {
                Looked::Holds
            } else {
                Looked::OtherEntry
            }
        }
        Fragment::Guessed(guessed) => {
            match first_false(control, guessed.assumptions().as_slice(), steps) {
                None => Looked::Holds,
                Some(place) => Looked::Fails { place },
            }
        }
    }
}

/// The place of the first pair of which the answer isn't the true one.
fn first_false<L: Ledger>(control: &Control, kept: &[Kept], steps: &mut Steps<L>) -> Option<usize>
    ensures first { MatchOption result (Holds kept.now control.now) (IsFirstFalseAt control.now kept.now) }
    ensures cost { steps.new ≤ steps.old + length kept.now }
{
    for (place, pair) in kept.iter().enumerate() {
        if !truth(control, &pair.question, &pair.answer, steps) {
            return Some(place);
        }
    }
    None
}
