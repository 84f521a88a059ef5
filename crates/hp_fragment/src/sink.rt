//! Where the edits of a parser go.
ghost use Rattle.std.specs.Prelude.{◌≡◌, [], List, IfOk, OnOk};
ghost use Rattle.hp_control.specs.States.{ControlState};
ghost use Rattle.hp_control.specs.declared.edit.Edit.{Edit as EditOf};
ghost use Rattle.hp_growth.specs.Growing.{IsGrown};
ghost use Rattle.hp_fragment.specs.Making.{kind_of, Amounts, HasGrown, HasSplit, IsSplitIn, IsSplitting, SinkKind};

use crate::NoMemory;
use hp_arena::Tree;
use hp_control::Edits;
use hp_growth::Growing;
use std::alloc::Global;

/// How many edits are made before they are applied to a tree, or split. So many stay in the processor's nearest memory.
const BATCH: usize = 128;

/// Where the edits of a parser go.
#[derive(Drop)]
pub(crate) enum Sink<'p> {
    /// They stay where they are made.
    Keeps,
    /// They grow the page's tree.
    Grows(Tree<'p>),
    /// They are split as they come.
    Splits(Splitting<'p>),
}

/// Edits that are split as they come.
#[derive(Drop)]
pub(crate) struct Splitting<'p> {
    /// What those come to that were split.
    pub growing: Growing<'p>,
    pub naming: Naming,
}

/// How own elements are named where edits are split.
#[derive(Clone, Copy)]
pub(crate) enum Naming {
    /// By their numbers, behind a guess.
    Numbers,
    /// By their ids, which are those from `next` on, behind a known state.
    Ids { next: u64 },
}

impl<'p> Splitting<'p> {
    /// Nothing was split yet.
    pub fn start(alloc: Global, naming: Naming) -> Result<Splitting<'p>, NoMemory>
        ensures growing { IfOk result (λ splitting. IsGrown [] splitting.growing) }
        ensures naming { IfOk result (λ splitting. splitting.naming ≡ naming) }
    {
        let growing = Growing::start(alloc)?;
        Ok(Splitting { growing, naming })
    }
}

impl<'p> Sink<'p> {
    /// Takes the edits that were made, where they are many and don't stay.
    #[inline(always)]
    pub fn take(&mut self, alloc: Global, edits: &mut Edits<'p>) -> Result<(), NoMemory>
        ensures kind { OnOk result (kind_of self.new ≡ kind_of self.old) }
        ensures amounts { OnOk result ((kind : SinkKind) (s : ControlState) (es : List EditOf) → Amounts kind self.old s edits.old es → Amounts kind self.new s edits.new es) }
    {
        match self {
            Sink::Keeps => Ok(()),
            Sink::Grows(tree) => {
                if edits.len() < BATCH {
                    return Ok(());
                }
                grow(alloc, tree, edits)
            }
            Sink::Splits(splitting) => {
                if edits.len() < BATCH {
                    return Ok(());
                }
                split(alloc, splitting, edits)
            }
        }
    }
}

/// Applies the edits to the tree.
#[inline(never)]
pub(crate) fn grow<'p>(
    alloc: Global,
    tree: &mut Tree<'p>,
    edits: &mut Edits<'p>,
) -> Result<(), NoMemory>
    ensures grown { OnOk result (HasGrown tree.old.branches edits.old tree.new.branches) }
    ensures edits { OnOk result (edits.new ≡ []) }
{
    tree.grow(alloc, edits)
}

/// Splits the edits.
#[inline(never)]
pub(crate) fn split<'p>(
    alloc: Global,
    splitting: &mut Splitting<'p>,
    edits: &mut Edits<'p>,
) -> Result<(), NoMemory>
    ensures split { OnOk result (HasSplit splitting.old edits.old splitting.new) }
    ensures edits { OnOk result (edits.new ≡ []) }
{
    match splitting.naming {
        Naming::Numbers => splitting.growing.put_all(alloc, edits),
        Naming::Ids { next } => splitting.growing.put_all_told(alloc, next, edits),
    }
}

/// The edits that were split.
pub(crate) fn into_splitting<'p>(sink: Sink<'p>) -> Splitting<'p>
    requires splits { IsSplitting sink }
    ensures { IsSplitIn sink.entry result }
{
    match sink {
        Sink::Splits(splitting) => splitting,
        Sink::Keeps | Sink::Grows(_) => unreachable!(),
    }
}
