//! Whether two states of the lexer are the same, part by part.
ghost use Rattle.std.specs.Prelude.{◌≡◌, ◌↔◌, IsTrue};

use crate::building::{Building, NewAttribute, NewDoctype, NewTag};
use crate::lexing::LexState;
use crate::machine::Machine;
use crate::owned::OwnedText;
use crate::state::State;
use hp_elements::same_attributes;

impl LexState {
    /// Whether two states of the lexer are the same.
    pub fn same(&self, other: &LexState) -> bool
        ensures { IsTrue result ↔ (self.now ≡ other.now) }
    {
        self.ahead.same(&other.ahead) && self.machine.same(&other.machine)
    }
}

impl Machine {
    /// Whether two machines are the same.
    pub fn same(&self, other: &Machine) -> bool
        ensures { IsTrue result ↔ (self.now ≡ other.now) }
    {
        same_state(self.state, other.state)
            && self.return_to == other.return_to
            && self.value == other.value
            && self.after_cr == other.after_cr
            && self.buffer.same(&other.buffer)
            && same_part(&self.last_tag, &other.last_tag)
            && self.building.same(&other.building)
    }
}

impl Building {
    /// Whether two tokens under construction are the same.
    pub fn same(&self, other: &Building) -> bool
        ensures { IsTrue result ↔ (self.now ≡ other.now) }
    {
        match (self, other) {
            (Building::Nothing, Building::Nothing) => true,
            (Building::StartTag(one), Building::StartTag(two)) => same_tag(one, two),
            (Building::EndTag(one), Building::EndTag(two)) => one.same(two),
            (Building::Comment(one), Building::Comment(two)) => one.same(two),
            (Building::Doctype(one), Building::Doctype(two)) => same_doctype(one, two),
            _ => false,
        }
    }
}

fn same_state(one: State, two: State) -> bool
    ensures { IsTrue result ↔ (one ≡ two) }
{
    one == two
}

fn same_part(one: &Option<OwnedText>, two: &Option<OwnedText>) -> bool
    ensures { IsTrue result ↔ (one.now ≡ two.now) }
{
    match (one, two) {
        (None, None) => true,
        (Some(one), Some(two)) => one.same(two),
        _ => false,
    }
}

fn same_new_attribute(one: &Option<NewAttribute>, two: &Option<NewAttribute>) -> bool
    ensures { IsTrue result ↔ (one.now ≡ two.now) }
{
    match (one, two) {
        (None, None) => true,
        (Some(one), Some(two)) => one.name.same(&two.name) && one.value.same(&two.value),
        _ => false,
    }
}

fn same_tag(one: &NewTag, two: &NewTag) -> bool
    ensures { IsTrue result ↔ (one.now ≡ two.now) }
{
    one.self_closing == two.self_closing
        && one.name.same(&two.name)
        && same_new_attribute(&one.attribute, &two.attribute)
        && same_attributes(&one.attributes, &two.attributes)
}

fn same_doctype(one: &NewDoctype, two: &NewDoctype) -> bool
    ensures { IsTrue result ↔ (one.now ≡ two.now) }
{
    one.force_quirks == two.force_quirks
        && same_part(&one.name, &two.name)
        && same_part(&one.public, &two.public)
        && same_part(&one.system, &two.system)
}
