//! One call for each kind of question: it asks, and reads the answer.
ghost use Rattle.std.specs.Prelude.{◌≡◌, ◌+◌, ◌<◌, ◌^◌, IfOk, IfSome};
ghost use Rattle.hp_views.specs.Asking.{ask_seen, ask_reach, ask_run, ask_template, ask_reset, ask_quiet, ask_listed, ask_same, ask_pointer, ask_quirks, ask_last_tag, ask_body, ask_frameset};
ghost use Rattle.hp_views.specs.Asking.{IsShort, ask_foreign, ask_html, ask_paragraph, ask_there};
ghost use Rattle.hp_views.specs.View.{Learns};

use hp_control::{Answer, Below, EntryKind, FactKind, Question, Recurring};
use hp_elements::{Kinds, Mode, Name, Namespace, NoMemory, Tag};
use std::alloc::Global;

/// An older stack is shorter.
const LIMIT: u64 = 1 << 60;

/// How the last entry of a name stands in the older list, and whether the element at the depth has an entry.
#[derive(Clone, Copy)]
pub struct Standing {
    pub kind: EntryKind,
    pub top: bool,
}

/// Where the older form pointer points.
#[derive(Clone, Copy)]
pub enum Pointed {
    /// It is empty.
    Nowhere,
    /// To an element that isn't in scope.
    Away,
    /// To an element so many below the depth.
    Here(u64),
}

ghost use Rattle.std.specs.Prelude.{Some, None, ◌-◌, ◌&&◌, nat_le, nat_lt, if◌then◌else◌};

/// How far below the depth a found one is.
fn below_of(depth: u64, found: u64) -> Option<u64>
    ensures found { result ≡ (if nat_le depth found && nat_lt found (2 ^ 60) then Some (found - depth) else None) }
    ensures short { IfSome result (λ k. depth + k < 2 ^ 60) }
{
    if depth <= found && found < LIMIT {
        Some(found - depth)
    } else {
        None
    }
}

ghost use Rattle.hp_views.specs.Asking.{is_yes as spec_is_yes, count_in as spec_count_in};

/// Whether the answer to the question is yes.
#[inline(always)]
fn asked_yes<B: Below>(below: &mut B, alloc: Global, question: Question) -> Result<bool, NoMemory>
    ensures { Learns result (B.heard below.old) (B.heard below.new) (asks question (λ a. gives (spec_is_yes a))) }
{
    match below.ask(alloc, question)? {
        Answer::Yes => Ok(true),
        _ => Ok(false),
    }
}

/// The same of a question that comes again and again.
#[inline(always)]
fn recurring_yes<B: Below>(
    below: &mut B,
    alloc: Global,
    question: Recurring,
) -> Result<bool, NoMemory>
    ensures { Learns result (B.heard below.old) (B.heard below.new) (asks (question_of question) (λ a. gives (spec_is_yes a))) }
{
    match below.ask_recurring(alloc, question)? {
        Answer::Yes => Ok(true),
        _ => Ok(false),
    }
}

/// The number that is answered to the question.
#[inline(always)]
fn asked_count<B: Below>(below: &mut B, alloc: Global, question: Question) -> Result<u64, NoMemory>
    ensures learns { Learns result (B.heard below.old) (B.heard below.new) (asks question (λ a. gives (spec_count_in a))) }
    ensures short { IfOk result (λ count. count < 2 ^ 60) }
{
    match below.ask(alloc, question)? {
        Answer::Count(count) if count < LIMIT => Ok(count),
        _ => Ok(0),
    }
}

ghost use Rattle.hp_control.specs.Plan.{asks, gives};
ghost use Rattle.hp_control.specs.Remembering.{question_of};

/// Whether a goal stands above each stop, from this depth downward.
#[inline(never)]
pub fn older_seen<B: Below>(
    below: &mut B,
    alloc: Global,
    depth: u64,
    goals: Kinds,
    stops: Kinds,
) -> Result<bool, NoMemory>
    ensures { Learns result (B.heard below.old) (B.heard below.new) (ask_seen depth goals stops) }
{
    let question = Question::Seen {
        depth,
        goals,
        stops,
    };
    asked_yes(below, alloc, question)
}

/// Whether the element at this depth is an HTML one.
#[inline(always)]
pub fn older_html<B: Below>(below: &mut B, alloc: Global, depth: u64) -> Result<bool, NoMemory>
    ensures { Learns result (B.heard below.old) (B.heard below.new) (ask_html depth) }
{
    recurring_yes(below, alloc, Recurring::Html { depth })
}

/// Whether a p element is in button scope, seen from this depth.
#[inline(always)]
pub fn older_paragraph<B: Below>(below: &mut B, alloc: Global, depth: u64) -> Result<bool, NoMemory>
    ensures { Learns result (B.heard below.old) (B.heard below.new) (ask_paragraph depth) }
{
    recurring_yes(below, alloc, Recurring::Paragraph { depth })
}

/// How many elements stand above the first goal, from this depth downward; `None` where a stop comes first, or no goal.
#[inline(never)]
pub fn older_reach<B: Below>(
    below: &mut B,
    alloc: Global,
    depth: u64,
    goals: Kinds,
    stops: Kinds,
) -> Result<Option<u64>, NoMemory>
    ensures learns { Learns result (B.heard below.old) (B.heard below.new) (ask_reach depth goals stops) }
    ensures short { IfOk result (λ found. IfSome found (λ k. depth + k < 2 ^ 60)) }
{
    let question = Question::Reach {
        depth,
        goals,
        stops,
    };
    match below.ask(alloc, question)? {
        Answer::Depth(found) => Ok(below_of(depth, found)),
        _ => Ok(None),
    }
}

/// How many elements from this depth on are of these kinds.
#[inline(never)]
pub fn older_run<B: Below>(
    below: &mut B,
    alloc: Global,
    depth: u64,
    names: Kinds,
) -> Result<u64, NoMemory>
    ensures learns { Learns result (B.heard below.old) (B.heard below.new) (ask_run depth names) }
    ensures short { IfOk result (λ count. count < 2 ^ 60) }
{
    asked_count(below, alloc, Question::RunOf { depth, names })
}

/// Whether an HTML `template` stands at this depth or below.
#[inline(never)]
pub fn older_template<B: Below>(below: &mut B, alloc: Global, depth: u64) -> Result<bool, NoMemory>
    ensures { Learns result (B.heard below.old) (B.heard below.new) (ask_template depth) }
{
    asked_yes(below, alloc, Question::HasTemplate { depth })
}

/// The mode to which the insertion mode is reset, seen from this depth.
#[inline(never)]
pub fn older_reset<B: Below>(below: &mut B, alloc: Global, depth: u64) -> Result<Mode, NoMemory>
    ensures { Learns result (B.heard below.old) (B.heard below.new) (ask_reset depth) }
{
    match below.ask(alloc, Question::ResetFrom { depth })? {
        Answer::NewMode(mode) => Ok(mode),
        _ => Ok(Mode::InBody),
    }
}

/// Whether nothing of the older list is to be reconstructed.
#[inline(always)]
pub fn older_quiet<B: Below>(
    below: &mut B,
    alloc: Global,
    depth: u64,
    cuts: u64,
) -> Result<bool, NoMemory>
    ensures { Learns result (B.heard below.old) (B.heard below.new) (ask_quiet depth cuts) }
{
    recurring_yes(below, alloc, Recurring::Quiet { depth, cuts })
}

ghost use Rattle.hp_control.specs.Plan.{Runs};
ghost use Rattle.hp_control.specs.declared.question.Question.TheVariants.{Listed as ListedQuestion};
ghost use Rattle.std.specs.Prelude.{Ok};

/// What is answered to the question how the last entry of that name stands.
#[inline(always)]
fn listed_answer<B: Below>(
    below: &mut B,
    alloc: Global,
    depth: u64,
    cuts: u64,
    name: Name,
) -> Result<Answer, NoMemory>
    ensures { IfOk result (λ answer. Runs (B.heard below.old) (B.heard below.new) (asks (ListedQuestion depth cuts name) gives) (Ok answer)) }
{
    match name.known() {
        Some(name) => below.ask_recurring(alloc, Recurring::Listed { depth, cuts, name }),
        None => below.ask(alloc, Question::Listed { depth, cuts, name }),
    }
}

/// How the last entry of that name stands.
#[inline(never)]
pub fn older_listed<B: Below>(
    below: &mut B,
    alloc: Global,
    depth: u64,
    cuts: u64,
    name: Name,
) -> Result<Standing, NoMemory>
    ensures { Learns result (B.heard below.old) (B.heard below.new) (ask_listed depth cuts name) }
{
    match listed_answer(below, alloc, depth, cuts, name)? {
        Answer::Entry { kind, top } => Ok(Standing { kind, top }),
        _ => Ok(Standing {
            kind: EntryKind::Absent,
            top: false,
        }),
    }
}

/// How many entries are equal to the tag.
#[inline(never)]
pub fn older_same<B: Below>(
    below: &mut B,
    alloc: Global,
    cuts: u64,
    tag: &Tag,
) -> Result<u64, NoMemory>
    ensures learns { Learns result (B.heard below.old) (B.heard below.new) (ask_same cuts tag.now) }
    ensures short { IfOk result (λ count. count < 2 ^ 60) }
{
    match below.ask_same(alloc, cuts, tag)? {
        Answer::Count(count) if count < LIMIT => Ok(count),
        _ => Ok(0),
    }
}

/// Where the form pointer points.
#[inline(never)]
pub fn older_pointer<B: Below>(
    below: &mut B,
    alloc: Global,
    depth: u64,
) -> Result<Pointed, NoMemory>
    ensures learns { Learns result (B.heard below.old) (B.heard below.new) (ask_pointer depth) }
    ensures short { IfOk result (IsShort depth) }
{
    match below.ask(alloc, Question::Pointer { depth })? {
        Answer::Null => Ok(Pointed::Nowhere),
        Answer::Depth(found) => match below_of(depth, found) {
            Some(count) => Ok(Pointed::Here(count)),
            None => Ok(Pointed::Away),
        },
        _ => Ok(Pointed::Away),
    }
}

/// Whether the page is in quirks mode.
#[inline(never)]
pub fn older_quirks<B: Below>(below: &mut B, alloc: Global) -> Result<bool, NoMemory>
    ensures { Learns result (B.heard below.old) (B.heard below.new) ask_quirks }
{
    let question = Question::Fact {
        which: FactKind::Quirks,
    };
    asked_yes(below, alloc, question)
}

/// The name of the last start tag.
#[inline(never)]
pub fn older_last_tag<B: Below>(below: &mut B, alloc: Global) -> Result<Name, NoMemory>
    ensures { Learns result (B.heard below.old) (B.heard below.new) ask_last_tag }
{
    let question = Question::Fact {
        which: FactKind::LastTag,
    };
    match below.ask(alloc, question)? {
        Answer::LastTag(name) => Ok(name),
        _ => Ok(Name::from_text(alloc, "")?),
    }
}

/// Whether the second element is an HTML `body` and stands at this depth or below.
#[inline(never)]
pub fn older_body<B: Below>(below: &mut B, alloc: Global, depth: u64) -> Result<bool, NoMemory>
    ensures { Learns result (B.heard below.old) (B.heard below.new) (ask_body depth) }
{
    match below.ask(alloc, Question::Whole { depth })? {
        Answer::Whole { body, .. } => Ok(body),
        _ => Ok(false),
    }
}

/// Whether an element stands at this depth that isn't an HTML one.
#[inline(never)]
pub fn older_foreign<B: Below>(below: &mut B, alloc: Global, depth: u64) -> Result<bool, NoMemory>
    ensures { Learns result (B.heard below.old) (B.heard below.new) (ask_foreign depth) }
{
    match below.ask(alloc, Question::Elem { depth })? {
        Answer::Element { namespace, .. } => Ok(namespace != Namespace::Html),
        _ => Ok(false),
    }
}

/// Whether an element stands at this depth.
#[inline(never)]
pub fn older_there<B: Below>(below: &mut B, alloc: Global, depth: u64) -> Result<bool, NoMemory>
    ensures { Learns result (B.heard below.old) (B.heard below.new) (ask_there depth) }
{
    match below.ask(alloc, Question::Elem { depth })? {
        Answer::Element { .. } => Ok(true),
        _ => Ok(false),
    }
}

/// Whether a frameset may still replace the body.
#[inline(never)]
pub fn older_frameset<B: Below>(below: &mut B, alloc: Global, depth: u64) -> Result<bool, NoMemory>
    ensures { Learns result (B.heard below.old) (B.heard below.new) (ask_frameset depth) }
{
    match below.ask(alloc, Question::Whole { depth })? {
        Answer::Whole { frameset_ok, .. } => Ok(frameset_ok),
        _ => Ok(false),
    }
}
