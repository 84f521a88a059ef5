//! Questions with their answers, each question once, in the order in which they came, and found by the question.
ghost use Rattle.std.specs.Prelude.{◌≡◌, ◌≢◌, ◌<◌, false, [], ◌∷◌, ◌++◌, length, slice_get, Some, OnOk, OnErr, IfSome, IfNone, IsSome, None};
ghost use Rattle.hp_control.specs.Guessing.{AreDistinct, IsIndexed, noted, sought};
ghost use Rattle.hp_control.specs.Hashing.{hash_of};
ghost use Rattle.hp_control.specs.Plan.{is_asked};
ghost use Rattle.hp_control.specs.declared.question.Kept.{Kept};

use crate::items::lose;
use crate::places::Places;
use crate::question::{Assumptions, Kept, Question};
use crate::sought::Sought;
use hp_elements::{List, NoMemory};
use std::alloc::{AllocError, Global};
use std::marker::Model;

/// Pairs of questions and answers.
#[derive(Drop)]
pub(crate) struct Pairs {
    kept: Assumptions,
    /// Where they stand, by the hashes of the questions. There is none before the first pair.
    places: Option<Places>,
}

impl Model for Pairs {
    ghost use Rattle.std.specs.Prelude.{List};
    ghost use Rattle.hp_control.specs.declared.question.Kept.{Kept};

    ghost Value = { List Kept };

    ghost view = { λ p. p.kept };

    ghost use Rattle.hp_control.specs.Guessing.{AreDistinct, IsIndexed};

    ghost invariant = { λ p. IsIndexed p.kept p.places × AreDistinct p.kept };
}

/// Makes the places, where there are none yet.
#[inline(never)]
fn begin(alloc: Global, places: &mut Option<Places>) -> Result<(), NoMemory>
    requires { places.old ≡ None }
    ensures made { OnOk result (IsSome places.new) }
    ensures same { noted places.new ≡ noted places.old }
{
    *places = Some(Places::new(alloc)?);
    Ok(())
}

/// Notes one more hash, where there may be none yet. At an `Err` the hashes are as before.
#[inline(always)]
fn note(alloc: Global, places: &mut Option<Places>, hash: u64) -> Result<(), NoMemory>
    ensures ok { OnOk result (noted places.new ≡ noted places.old ++ hash ∷ []) }
    ensures err { OnErr result (noted places.new ≡ noted places.old) }
{
    if places.is_none() {
        begin(alloc, places)?;
    }
    match places {
        Some(places) => places.push(alloc, hash),
        None => unreachable!(),
    }
}

/// The pair at an index, where it is of that question, whose hash is given too.
#[inline]
fn pair_at<'a>(
    kept: &'a Assumptions,
    places: &Places,
    index: usize,
    hash: u64,
    question: Sought<'_>,
) -> Option<&'a Kept>
    requires indexed { IsIndexed kept.now (Some places.now) }
    requires within { index < length kept.now }
    requires hash { hash ≡ hash_of (sought question) }
    ensures found { IfSome result (λ pair. (slice_get kept.now index ≡ Some pair.now) × (pair.now.question ≡ sought question.entry)) }
    ensures none { IfNone result ((pair : Kept) → slice_get kept.now index ≡ Some pair → pair.question ≢ sought question.entry) }
{
    if places.at(index) != hash {
        return None;
    }
    let pair = &kept.as_slice()[index];
    if question.is(&pair.question) {
        return Some(pair);
    }
    None
}

/// The pair of that question, whose hash is given too, and where it stands.
fn pair_of<'a>(
    kept: &'a Assumptions,
    places: &Places,
    hash: u64,
    question: Sought<'_>,
) -> Option<(usize, &'a Kept)>
    requires indexed { IsIndexed kept.now (Some places.now) }
    requires hash { hash ≡ hash_of (sought question) }
    ensures found { IfSome result (λ p. (slice_get kept.now p.0 ≡ Some p.1.now) × (p.1.now.question ≡ sought question.entry)) }
    ensures none { IfNone result (is_asked kept.now (sought question.entry) ≡ false) }
{
    let mut place = places.last(hash);
    while place != 0 {
        if let Some(pair) = pair_at(kept, places, place - 1, hash, question) {
            return Some((place - 1, pair));
        }
        place = places.before(place - 1);
    }
    None
}

impl Pairs {
    /// No pair.
    pub(crate) fn new() -> Pairs
        ensures { result ≡ [] }
    {
        Pairs {
            kept: List::new(),
            places: None,
        }
    }

    /// All pairs.
    #[inline]
    pub(crate) fn kept(&self) -> &Assumptions
        ensures same { result.now ≡ self.now }
        ensures distinct { AreDistinct self.now }
    {
        &self.kept
    }

    /// All pairs, alone.
    pub(crate) fn into_kept(self) -> Assumptions
        ensures same { result ≡ self }
        ensures distinct { AreDistinct self }
    {
        let Pairs { kept, .. } = self;
        kept
    }

    /// The pair at a place, where it is one of that question.
    pub(crate) fn at(&self, place: usize, question: &Question) -> Option<&Kept>
        ensures found { IfSome result (λ pair. (slice_get self.now place ≡ Some pair.now) × (pair.now.question ≡ question.now)) }
    {
        match self.kept.as_slice().get(place) {
            Some(pair) if pair.question.same(question) => Some(pair),
            _ => None,
        }
    }

    /// Where the question stands, whose hash is given too, and the pair; `None` where it doesn't stand.
    pub(crate) fn find(&self, hash: u64, question: Sought<'_>) -> Option<(usize, &Kept)>
        requires { hash ≡ hash_of (sought question) }
        ensures found { IfSome result (λ p. (slice_get self.now p.0 ≡ Some p.1.now) × (p.1.now.question ≡ sought question.entry)) }
        ensures none { IfNone result (is_asked self.now (sought question.entry) ≡ false) }
    {
        match &self.places {
            None => None,
            Some(places) => pair_of(&self.kept, places, hash, question),
        }
    }

    /// Appends a pair whose question doesn't stand here yet. At an `Err` the pairs are as before.
    #[inline(always)]
    pub(crate) fn add(&mut self, alloc: Global, hash: u64, pair: Kept) -> Result<(), NoMemory>
        requires hash { hash ≡ hash_of pair.question }
        requires new { is_asked self.old pair.question ≡ false }
        ensures ok { OnOk result (self.new ≡ self.old ++ pair ∷ []) }
        ensures err { OnErr result (self.new ≡ self.old) }
    {
        if let Err(failed) = self.kept.push(alloc, pair) {
            lose(failed);
            return Err(AllocError);
        }
        match note(alloc, &mut self.places, hash) {
            Ok(()) => Ok(()),
            Err(failed) => {
                lose(self.kept.pop());
                Err(failed)
            }
        }
    }
}
