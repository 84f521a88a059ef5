//! An older state that is guessed.
ghost use Rattle.std.specs.Prelude.{◌≡◌, ◌<◌, false, [], Ok, IfOk, OnErr};
ghost use Rattle.hp_control.specs.Guessing.{AreDistinct, AreSaid, heard_by};
ghost use Rattle.hp_control.specs.Hashing.{hash_of as spec_hash_of};
ghost use Rattle.hp_control.specs.Plan.{Runs, asks, gives, is_asked};
ghost use Rattle.hp_control.specs.Remembering.{WasAsked, question_of};

use crate::below::{Below, Predictor};
use crate::hashing::{hash_of, hash_of_same};
use crate::items::lose;
use crate::pairs::Pairs;
use crate::question::{Answer, Assumptions, Kept, Question};
use crate::recurring::{Recurring, Remembered};
use crate::sought::Sought;
use hp_elements::{Kinds, NoMemory, Tag};
use std::alloc::Global;
use std::marker::Model;

/// How many sorts of questions there are, of each of which the last one is remembered.
const SORTS: usize = 8;

/// The sort of `Same`.
const SAME: usize = 4;

/// An older state that is guessed: it answers as the predictor, and keeps each question that it was asked once, with its answer.
#[derive(Drop)]
pub struct Guess<P: Predictor + Drop> {
    predictor: P,
    pairs: Pairs,
    /// Where the last question of each sort stands. Asked again, it is answered by one comparison.
    last: [usize; SORTS],
    /// What is answered without a search.
    remembered: Remembered,
}

impl<P: Predictor + Drop> Model for Guess<P> {
    ghost use Rattle.hp_control.specs.Guessing.{AreSaid, Guessing};
    ghost use Rattle.hp_control.specs.Remembering.{WereAsked};

    ghost Value = { Guessing P };

    ghost view = { λ g. record { predictor = g.predictor; kept = g.pairs } };

    ghost invariant = { λ g. AreSaid (P.says g.predictor) g.pairs × WereAsked (P.says g.predictor) g.pairs g.remembered };
}

/// The sort of a question: those that texts and tags ask again and again are apart.
#[inline]
fn sort_of(question: &Question) -> usize
    ensures { result < 8 }
{
    match question {
        Question::Seen {
            goals: Kinds::AnyHtml,
            ..
        } => 0,
        Question::Seen { .. } => 1,
        Question::Quiet { .. } => 2,
        Question::Listed { .. } => 3,
        Question::Same { .. } => SAME,
        Question::Reach { .. } => 5,
        Question::Elem { .. } => 6,
        _ => 7,
    }
}

/// A copy of an answer, which is mostly a count.
#[inline(always)]
fn copied_count(alloc: Global, answer: &Answer) -> Result<Answer, NoMemory>
    ensures { IfOk result (λ copy. copy ≡ answer.now) }
{
    match answer {
        Answer::Count(count) => Ok(Answer::Count(*count)),
        _ => answer.copy(alloc),
    }
}

impl<P: Predictor + Drop> Guess<P> {
    /// The guesses of that predictor, of which none was made yet.
    pub fn new(predictor: P) -> Guess<P>
        ensures { result ≡ record { predictor = predictor; kept = [] } }
    {
        Guess {
            predictor,
            pairs: Pairs::new(),
            last: [0; SORTS],
            remembered: Remembered::new(),
        }
    }

    /// Who answers.
    pub fn predictor(&self) -> &P
        ensures { result.now ≡ self.now.predictor }
    {
        &self.predictor
    }

    /// What was asked and answered, in the order in which it was first asked. No question stands twice.
    pub fn kept(&self) -> &Assumptions
        ensures same { result.now ≡ self.now.kept }
        ensures distinct { AreDistinct self.now.kept }
        ensures said { AreSaid (P.says self.now.predictor) self.now.kept }
    {
        self.pairs.kept()
    }

    /// The same, alone.
    pub fn into_kept(self) -> Assumptions
        ensures same { result ≡ self.kept }
        ensures distinct { AreDistinct self.kept }
        ensures said { AreSaid (P.says self.predictor) self.kept }
    {
        let Guess { pairs, .. } = self;
        pairs.into_kept()
    }
}

impl<P: Predictor + Drop> Guess<P> {
    /// Asks what wasn't asked before.
    #[inline(always)]
    fn ask_first(
        &mut self,
        alloc: Global,
        hash: u64,
        question: Question,
        sort: usize,
    ) -> Result<Answer, NoMemory>
        requires hash { hash ≡ spec_hash_of question }
        requires sort { sort < 8 }
        requires new { is_asked self.old.kept question ≡ false }
        ensures asked { IfOk result (λ answer. Runs (heard_by P.says self.old) (heard_by P.says self.new) (asks question gives) (Ok answer)) }
        ensures unchanged { OnErr result (self.new ≡ self.old) }
    {
        let answer = self.predictor.say(alloc, &question)?;
        let copy = copied_count(alloc, &answer)?;
        let place = self.pairs.kept().len();
        self.pairs.add(alloc, hash, Kept { question, answer })?;
        self.last[sort] = place;
        Ok(copy)
    }
}

impl<P: Predictor + Drop> Guess<P> {
    /// Asks, and says that it was asked.
    fn ask_plainly(&mut self, alloc: Global, question: Question) -> Result<Answer, NoMemory>
        ensures asked { IfOk result (λ answer. Runs (heard_by P.says self.old) (heard_by P.says self.new) (asks question gives) (Ok answer)) }
        ensures was_asked { IfOk result (WasAsked (P.says self.new.predictor) self.new.kept question) }
        ensures unchanged { OnErr result (heard_by P.says self.new ≡ heard_by P.says self.old) }
    {
        self.ask(alloc, question)
    }

    /// Asks a question that comes again and again, and remembers its usual answer.
    #[inline(never)]
    fn learn(&mut self, alloc: Global, question: Recurring) -> Result<Answer, NoMemory>
        ensures asked { IfOk result (λ answer. Runs (heard_by P.says self.old) (heard_by P.says self.new) (asks (question_of question) gives) (Ok answer)) }
        ensures unchanged { OnErr result (heard_by P.says self.new ≡ heard_by P.says self.old) }
    {
        let answer = self.ask_plainly(alloc, question.question())?;
        if question.is_usual(&answer) {
            self.remembered.put(question);
        }
        Ok(answer)
    }
}

impl<P: Predictor + Drop> Below for Guess<P> {
    ghost heard = { heard_by P.says };

    fn ask(&mut self, alloc: Global, question: Question) -> Result<Answer, NoMemory> {
        let sort = sort_of(&question);
        if let Some(pair) = self.pairs.at(self.last[sort], &question) {
            let answer = pair.answer.copy(alloc);
            lose(question);
            return answer;
        }
        let hash = hash_of(&question);
        match self.pairs.find(hash, Sought::Made(&question)) {
            Some((place, pair)) => {
                let answer = pair.answer.copy(alloc);
                self.last[sort] = place;
                lose(question);
                answer
            }
            None => self.ask_first(alloc, hash, question, sort),
        }
    }

    #[inline(always)]
    fn ask_recurring(&mut self, alloc: Global, question: Recurring) -> Result<Answer, NoMemory> {
        if self.remembered.has(question) {
            return Ok(question.usual());
        }
        self.learn(alloc, question)
    }

    fn ask_same(&mut self, alloc: Global, cuts: u64, tag: &Tag) -> Result<Answer, NoMemory> {
        let hash = hash_of_same(cuts, tag);
        match self.pairs.find(hash, Sought::Same { cuts, tag }) {
            Some((_, pair)) => copied_count(alloc, &pair.answer),
            None => {
                let tag = tag.copy(alloc)?;
                self.ask_first(alloc, hash, Question::Same { cuts, tag }, SAME)
            }
        }
    }
}
