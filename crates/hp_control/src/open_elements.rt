//! The stack of open elements (13.2.4.2), which knows at each element whether a p element is in button scope, and the highest id
//! from there down.
ghost use Rattle.std.specs.Prelude.{◌≡◌, ◌+◌, ◌-◌, ◌<◌, ◌≤◌, ◌==◌, true, [], ◌∷◌, ◌++◌, length, take, drop, is_some, OnOk, OnErr, IfOk, IfErr, MatchOption, slice_index_or};
ghost use Rattle.hp_control.specs.Ends.{paragraph_from, paragraph_end};
ghost use Rattle.hp_control.specs.Standings.{elements_of, summaries_of, highest_id, summary_from, AreSummaries, first_summary};
ghost use Rattle.hp_control.specs.Walks.{open_at};

use crate::element::OpenElement;
use crate::kinds::is_within;
use crate::stack::Stack;
use hp_elements::{Kinds, Known, List, Name, Namespace, NoMemory, Point, SetName};
use hp_steps::Steps;
use std::alloc::{AllocFailed, Global};
use std::marker::Model;
use std::sync::ledger::Ledger;

/// Where a walk down a stack ends: at a goal, at a stop, or below the last element.
#[derive(Clone, Copy)]
pub enum WalkEnd {
    Goal,
    Stop,
    BelowAll,
}

/// How many elements are looked at one by one before a deep stack is searched by halving.
const NEAR: usize = 16;

/// What is known at an element of it and all below.
#[derive(Clone, Copy)]
struct Summary {
    /// Where the walk from it down ends that looks for a p element in button scope.
    end: WalkEnd,
    /// The highest id.
    highest: u64,
}

/// An element on the stack.
#[derive(Drop)]
struct Standing {
    element: OpenElement,
    summary: Summary,
}

/// The stack of open elements. A contract sees it as a list with the current node first.
#[derive(Drop)]
pub struct OpenElements {
    standing: Stack<Standing>,
}

impl Model for OpenElements {
    ghost use Rattle.std.specs.Prelude.{List};
    ghost use Rattle.hp_control.specs.declared.element.OpenElement.{OpenElement};
    ghost use Rattle.hp_control.specs.Standings.{elements_of, summaries_of, AreSummaries};

    ghost Value = { List OpenElement };

    ghost view = { λ s. elements_of s.standing };

    ghost invariant = { λ s. AreSummaries (elements_of s.standing) (summaries_of s.standing) };
}

/// Where the walk from an element ends, by where that from the next below it ends.
#[tactic(auto, unfolding(crate::specs::Ends::paragraph_from))]
fn paragraph_from(element: &OpenElement, below: WalkEnd) -> WalkEnd
    ensures { result ≡ paragraph_from element.now below }
{
    if is_within(&Kinds::Html(Name::of_known(Known::P)), element) {
        WalkEnd::Goal
    } else if is_within(&Kinds::Set(SetName::ButtonScopeEnds), element) {
        WalkEnd::Stop
    } else {
        below
    }
}

/// What is known at an element, by what is known at the next below it.
#[inline(always)]
fn summary_from(element: &OpenElement, below: Summary) -> Summary
    ensures { result ≡ summary_from element.now below }
{
    Summary {
        end: paragraph_from(element, below.end),
        highest: element.id.max(below.highest),
    }
}

/// What is known at the element at a depth.
#[tactic(auto, using(crate::proofs::StandingLemmas::summary_first, crate::proofs::StandingLemmas::summary_none))]
#[inline(always)]
fn summary_at(standing: &Stack<Standing>, depth: usize) -> Summary
    ensures { result ≡ first_summary (drop depth (summaries_of standing.now)) }
{
    if depth < standing.len() {
        standing.at(depth).summary
    } else {
        Summary {
            end: WalkEnd::BelowAll,
            highest: 0,
        }
    }
}

/// Finds out anew what is known at the element directly above a depth. Another one stands there meanwhile, so that it can be
/// written.
fn renew_above(standing: &mut Stack<Standing>, depth: usize)
    requires positive { 0 < depth }
    requires within { depth ≤ length standing.old }
    requires below { AreSummaries (drop depth (elements_of standing.old)) (drop depth (summaries_of standing.old)) }
    ensures elements { elements_of standing.new ≡ elements_of standing.old }
    ensures summaries { AreSummaries (drop (depth - 1) (elements_of standing.new)) (drop (depth - 1) (summaries_of standing.new)) }
{
    let above = depth - 1;
    let summary = summary_from(&standing.at(above).element, summary_at(standing, depth));
    let another = OpenElement {
        id: 0,
        namespace: Namespace::Html,
        name: Name::of_known(Known::P),
        point: Point::No,
    };
    let old = standing.replace(
        above,
        Standing {
            element: another,
            summary,
        },
    );
    let _ = standing.replace(
        above,
        Standing {
            element: old.element,
            summary,
        },
    );
}

/// Finds out anew what is known at the top elements.
fn renew(standing: &mut Stack<Standing>, count: usize)
    requires count { count ≤ length standing.old }
    requires below { AreSummaries (drop count (elements_of standing.old)) (drop count (summaries_of standing.old)) }
    ensures elements { elements_of standing.new ≡ elements_of standing.old }
    ensures summaries { AreSummaries (elements_of standing.new) (summaries_of standing.new) }
{
    for turn in 0..count {
        renew_above(standing, count - turn);
    }
}

impl OpenElements {
    /// A stack without elements.
    pub fn new() -> OpenElements
        ensures { result ≡ [] }
    {
        OpenElements {
            standing: Stack::new(),
        }
    }

    /// The number of elements.
    #[inline(always)]
    pub fn len(&self) -> usize
        ensures { result ≡ length self.now }
    {
        self.standing.len()
    }

    /// Whether there is no element.
    #[inline(always)]
    pub fn is_empty(&self) -> bool
        ensures { result ≡ (length self.now == 0) }
    {
        self.standing.is_empty()
    }

    /// The element at a depth; the current node is at 0.
    #[inline(always)]
    pub fn at(&self, depth: usize) -> &OpenElement
        requires { depth < length self.now }
        ensures { result.now ≡ slice_index_or self.now depth result.now }
    {
        &self.standing.at(depth).element
    }

    /// Whether a p element is in button scope, as far as these elements tell.
    #[inline]
    pub fn paragraph(&self) -> WalkEnd
        ensures { result ≡ paragraph_end self.now }
    {
        summary_at(&self.standing, 0).end
    }

    /// The highest id from a depth down; 0 where no element stands there.
    #[inline(always)]
    pub fn highest_from(&self, depth: usize) -> u64
        ensures { result ≡ highest_id (drop depth self.now) }
    {
        summary_at(&self.standing, depth).highest
    }

    /// Whether an element of this id stands on the stack. Where none can stand further down the walk ends, and from so many
    /// elements on it is looked for by halving: as a rule ids rise from the bottom up.
    pub fn is_open(&self, id: u64) -> bool
        ensures { result ≡ is_some (open_at id self.now) }
    {
        for depth in 0..self.len() {
            if self.highest_from(depth) < id {
                return false;
            }
            if self.at(depth).id == id || depth == NEAR && self.is_in_order(id) {
                return true;
            }
        }
        false
    }

    /// Looks for an element of this id where it stands if all ids below it are lower. Answers `true` only where it is there.
    #[inline(never)]
    fn is_in_order(&self, id: u64) -> bool
        ensures { result ≡ true → is_some (open_at id self.now) ≡ true }
    {
        let mut from = 0;
        let mut to = self.len();
        while from < to {
            let middle = from + (to - from) / 2;
            if self.highest_from(middle) < id {
                to = middle;
            } else {
                from = middle + 1;
            }
        }
        from > 0 && self.at(from - 1).id == id
    }

    /// Puts an element on top. At an `Err`, which comes only for want of memory, the stack is as before.
    #[inline(always)]
    pub fn push(&mut self, alloc: Global, element: OpenElement) -> Result<(), NoMemory>
        ensures ok { OnOk result (self.new ≡ element ∷ self.old) }
        ensures err { OnErr result (self.new ≡ self.old) }
    {
        let summary = summary_from(&element, summary_at(&self.standing, 0));
        self.standing.add(alloc, Standing { element, summary })
    }

    /// Takes the top `count` elements off.
    #[inline(always)]
    pub fn drop_top(&mut self, count: usize)
        requires { count ≤ length self.old }
        ensures { self.new ≡ drop count self.old }
    {
        self.standing.drop_top(count);
    }

    /// Takes the top element off; `None` where there is none.
    pub fn pop(&mut self) -> Option<OpenElement>
        ensures { MatchOption result ((self.old ≡ []) × (self.new ≡ [])) (λ element. self.old ≡ element ∷ self.new) }
    {
        match self.standing.pop() {
            Some(standing) => Some(standing.element),
            None => None,
        }
    }

    /// Takes the element at a depth out; the top is at 0.
    pub fn take_out(&mut self, depth: usize)
        requires { depth < length self.old }
        ensures { self.new ≡ take depth self.old ++ drop (depth + 1) self.old }
    {
        self.standing.take_out(depth);
        renew(&mut self.standing, depth);
    }

    /// Takes so many elements from a depth on out; the top is at 0. It takes no memory.
    pub fn take_out_many(&mut self, depth: usize, count: usize)
        requires { depth + count ≤ length self.old }
        ensures { self.new ≡ take depth self.old ++ drop (depth + count) self.old }
    {
        let standing = &mut self.standing;
        standing.take_out_many(depth, count);
        renew(standing, depth);
    }

    /// Takes the top `count` elements off; they come with the topmost first. At an `Err`, which comes only for want of memory,
    /// the stack is spent.
    pub fn lift(&mut self, alloc: Global, count: usize) -> Result<List<OpenElement>, NoMemory>
        requires { count ≤ length self.old }
        ensures top { IfOk result (λ top. top ≡ take count self.old) }
        ensures rest { IfOk result (λ _. self.new ≡ drop count self.old) }
    {
        let mut top = List::new();
        for _turn in 0..count {
            match self.pop() {
                Some(item) => top.push(alloc, item)?,
                None => unreachable!(),
            }
        }
        Ok(top)
    }

    /// Puts elements on top, the first of them topmost. At an `Err`, which comes only for want of memory, the stack is spent.
    pub fn pile(&mut self, alloc: Global, items: List<OpenElement>) -> Result<(), NoMemory>
        ensures { IfOk result (λ _. self.new ≡ items ++ self.old) }
    {
        let mut rest = items;
        while let Some(item) = rest.pop() {
            self.push(alloc, item)?;
        }
        Ok(())
    }
}

/// Puts an element on top of the stack, by one step. At an `Err`, which comes only for want of memory, the stack is as before and the
/// element comes back.
pub fn put_open<L: Ledger>(
    alloc: Global,
    stack: &mut OpenElements,
    element: OpenElement,
    steps: &mut Steps<L>,
) -> Result<(), AllocFailed<OpenElement>>
    ensures ok { OnOk result (stack.new ≡ element ∷ stack.old) }
    ensures err { OnErr result (stack.new ≡ stack.old) }
    ensures returned { IfErr result (λ failed. failed.value ≡ element) }
    ensures steps { steps.new ≡ steps.old + 1 }
{
    steps.tick();
    put_on_top(alloc, stack, element)
}

/// The same by no count.
fn put_on_top(
    alloc: Global,
    stack: &mut OpenElements,
    element: OpenElement,
) -> Result<(), AllocFailed<OpenElement>>
    ensures ok { OnOk result (stack.new ≡ element ∷ stack.old) }
    ensures err { OnErr result (stack.new ≡ stack.old) }
    ensures returned { IfErr result (λ failed. failed.value ≡ element) }
{
    let summary = summary_from(&element, summary_at(&stack.standing, 0));
    match stack.standing.push(alloc, Standing { element, summary }) {
        Ok(()) => Ok(()),
        Err(failed) => Err(AllocFailed {
            value: failed.value.element,
        }),
    }
}
