//! Pairs of a question and an answer among those that a fragment assumes.
ghost use Rattle.std.specs.Prelude.{◌≡◌, drop};
ghost use Rattle.hp_control.specs.declared.question.Answer.{Answer};
ghost use Rattle.hp_control.specs.declared.question.Question.{Question};
ghost use Rattle.hp_board.specs.Calls.{IsAssumedAt};

use hp_control::{Kept, Question};
use hp_elements::ListIntoIter;
use hp_pieces::Fragment;
use std::alloc::Global;

/// The question that the fragment assumes at that place.
pub(crate) fn question_at<'f>(fragment: &'f Fragment<'_>, place: usize) -> &'f Question
    requires assumed { (question : Question) × (answer : Answer) × IsAssumedAt fragment.now place question answer }
    ensures { (answer : Answer) × IsAssumedAt fragment.now place result.now answer }
{
    let Fragment::Guessed(guessed) = fragment else {
        unreachable!()
    };
    &guessed.assumptions().as_slice()[place].question
}

/// Takes so many pairs, and answers them as far as there is memory for them; the others of them are given up.
pub(crate) fn take_pairs(alloc: Global, pairs: &mut ListIntoIter<Kept>, count: usize) -> Vec<Kept>
    ensures { pairs.new ≡ drop count pairs.old }
{
    let mut taken = Vec::with_capacity(alloc, count).unwrap_or(Vec::new(alloc));
    for _turn in 0..count {
        take_pair(pairs, &mut taken);
    }
    taken
}

/// Moves the next pair, if there is one, behind those that were taken. For want of memory it is given up.
fn take_pair(pairs: &mut ListIntoIter<Kept>, taken: &mut Vec<Kept>)
    ensures { pairs.new ≡ drop 1 pairs.old }
{
    if let Some(pair) = pairs.next() {
        match taken.push(pair) {
            Ok(()) => {}
            Err(failed) => {
                let _ = failed;
            }
        }
    }
}
