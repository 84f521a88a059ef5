//! The head element, on the stack again and off it.
ghost use Rattle.hp_views.specs.Steps.{push_head_step, take_head_off_step};
ghost use Rattle.hp_views.specs.View.{sight, Meets};

use crate::view::View;
use crate::walks::{Walk, open_walk};
use hp_control::{Below, Crossing, OpenElement, Refusal};
use hp_elements::{Known, Name, Namespace, Point};
use std::alloc::Global;

impl<'p, B: Below> View<'p, B> {
    /// Pushes the head element onto the stack again, where there is one and it isn't there.
    pub fn push_head(&mut self, alloc: Global) -> Result<(), Refusal>
        ensures { Meets result (sight B.heard self.old) (sight B.heard self.new) push_head_step }
    {
        let Some(facts) = self.page else {
            return Err(Refusal::Crossed(Crossing::X4));
        };
        let Some(id) = facts.head else {
            return Ok(());
        };
        if let Walk::Found(_) = open_walk(&self.change.stack, id) {
            return Ok(());
        }
        let head = OpenElement {
            id,
            namespace: Namespace::Html,
            name: Name::of_known(Known::HEAD),
            point: Point::No,
        };
        self.change.stack.push(alloc, head)?;
        Ok(())
    }

    /// Takes the head element off the stack, where there is one and it is there.
    pub fn take_head_off(&mut self, alloc: Global) -> Result<(), Refusal>
        ensures { Meets result (sight B.heard self.old) (sight B.heard self.new) take_head_off_step }
    {
        match self.page {
            Some(facts) => match facts.head {
                Some(id) => self.take_off(alloc, id),
                None => Ok(()),
            },
            None => Err(Refusal::Crossed(Crossing::X4)),
        }
    }
}
