//! A number for each question, by which it is found among many.
ghost use Rattle.std.specs.Prelude.{◌≡◌};
ghost use Rattle.std.specs.Str.{chars};
ghost use Rattle.hp_control.specs.Hashing.{mixed, mixed_text, mixed_name, mixed_kinds, mixed_attributes, hash_of};
ghost use Rattle.hp_control.specs.declared.question.Question.TheVariants.{Same};

use crate::asked::{fact_place, set_place};
use crate::question::Question;
use hp_elements::{Attribute, Chain, Kinds, Name, Tag};
use std::hash::{FoldHasher, Hasher};

/// The hash with one number more.
#[inline]
#[tactic(auto, unfolding(crate::specs::Hashing::mixed))]
fn mixed(hash: u64, number: u64) -> u64
    ensures { result ≡ mixed hash number }
{
    (hash ^ number).wrapping_mul(0x517c_c1b7_2722_0a95)
}

/// The hash with a text more.
fn mixed_text(hash: u64, text: &str) -> u64
    ensures { result ≡ mixed_text hash (chars text.now) }
{
    let mut hasher = FoldHasher::default();
    hasher.write(text.as_bytes());
    mixed(hash, hasher.finish())
}

/// The hash with a name more.
fn mixed_name(hash: u64, name: &Name) -> u64
    ensures { result ≡ mixed_name hash name.now }
{
    match name.known() {
        Some(known) => mixed(hash, known.index() as u64),
        None => mixed_text(hash, name.as_str()),
    }
}

fn mixed_kinds(hash: u64, kinds: &Kinds) -> u64
    ensures { result ≡ mixed_kinds hash kinds.now }
{
    match kinds {
        Kinds::Nothing => mixed(hash, 0),
        Kinds::All => mixed(hash, 1),
        Kinds::AnyHtml => mixed(hash, 2),
        Kinds::HtmlOrPoint => mixed(hash, 3),
        Kinds::Html(name) => mixed_name(mixed(hash, 4), name),
        Kinds::Foreign(name) => mixed_name(mixed(hash, 5), name),
        Kinds::Set(set) => mixed(mixed(hash, 6), set_place(*set)),
    }
}

fn mixed_attributes(hash: u64, attributes: &Chain<Attribute>) -> u64
    ensures { result ≡ mixed_attributes hash attributes.now }
{
    let mut mix = hash;
    for attribute in attributes.iter() {
        mix = mixed_text(mixed_name(mix, &attribute.name), attribute.value.as_str());
    }
    mix
}

/// The hash of the question how many entries equal the tag.
pub(crate) fn hash_of_same(cuts: u64, tag: &Tag) -> u64
    ensures { result ≡ hash_of (Same cuts tag.now) }
{
    let name = mixed_name(mixed(9, cuts), &tag.name);
    mixed_attributes(name, &tag.attributes)
}

/// The hash of a question.
pub(crate) fn hash_of(question: &Question) -> u64
    ensures { result ≡ hash_of question.now }
{
    match question {
        Question::Entry => 0,
        Question::Elem { depth } => mixed(1, *depth),
        Question::Seen {
            depth,
            goals,
            stops,
        } => mixed_kinds(mixed_kinds(mixed(2, *depth), goals), stops),
        Question::Reach {
            depth,
            goals,
            stops,
        } => mixed_kinds(mixed_kinds(mixed(3, *depth), goals), stops),
        Question::RunOf { depth, names } => mixed_kinds(mixed(4, *depth), names),
        Question::HasTemplate { depth } => mixed(5, *depth),
        Question::ResetFrom { depth } => mixed(6, *depth),
        Question::Quiet { depth, cuts } => mixed(mixed(7, *depth), *cuts),
        Question::Listed { depth, cuts, name } => {
            mixed_name(mixed(mixed(8, *depth), *cuts), name)
        }
        Question::Same { cuts, tag } => hash_of_same(*cuts, tag),
        Question::Pointer { depth } => mixed(10, *depth),
        Question::Fact { which } => mixed(11, fact_place(*which)),
        Question::Whole { depth } => mixed(12, *depth),
    }
}
