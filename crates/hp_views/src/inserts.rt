//! The edits that acts make.
ghost use Rattle.std.specs.Prelude.{◌≡◌, ◌≢◌, ◌∷◌, true, IfOk, Err, IsNone};
ghost use Rattle.hp_control.specs.Acts.{element_for, point_in};
ghost use Rattle.hp_control.specs.Plan.{gives};
ghost use Rattle.hp_views.specs.Steps.{add_body_step, add_first_step, detach_step, insert_document_step, insert_step, put_document_step, put_first_step, put_step};
ghost use Rattle.hp_views.specs.View.{sight, Carries, Meets};
ghost use Rattle.hp_control.specs.declared.edit.Place.TheVariants.{Into};
ghost use Rattle.hp_views.specs.PlacePlans.{with_edit, insert_at, insert_plan, current_ref, add_to_on};

use crate::place::{first_id, second_id};
use crate::view::View;
use hp_control::{Below, Child, Crossing, Edit, OpenElement, OpenElements, Place, Ref, Refusal};
use hp_elements::{Attribute, Chain, Name, Namespace, NoMemory, Point, Tag};
use std::alloc::Global;

/// Pushes the element of this id that is made for the tag, and is that point.
#[inline(always)]
fn push_made(
    stack: &mut OpenElements,
    alloc: Global,
    id: u64,
    tag: &Tag,
    point: Point,
) -> Result<(), NoMemory>
    requires point { point ≡ point_in tag.now.namespace tag.now }
    ensures { IfOk result (λ _. stack.new ≡ element_for id tag.now ∷ stack.old) }
{
    if let Namespace::Html = tag.namespace
        && let Some(known) = tag.name.known()
    {
        let element = OpenElement {
            id,
            namespace: Namespace::Html,
            name: Name::of_known(known),
            point: Point::No,
        };
        return stack.push(alloc, element);
    }
    push_other(stack, alloc, id, tag, point)
}

/// The same for any tag, out of line.
#[inline(never)]
fn push_other(
    stack: &mut OpenElements,
    alloc: Global,
    id: u64,
    tag: &Tag,
    point: Point,
) -> Result<(), NoMemory>
    requires point { point ≡ point_in tag.now.namespace tag.now }
    ensures { IfOk result (λ _. stack.new ≡ element_for id tag.now ∷ stack.old) }
{
    let name = tag.name.copy(alloc)?;
    stack.push(
        alloc,
        OpenElement {
            id,
            namespace: tag.namespace,
            name,
            point,
        },
    )
}

impl<'p, B: Below> View<'p, B> {
    /// One more edit.
    #[inline(always)]
    fn push_edit(&mut self, alloc: Global, edit: Edit<'p>) -> Result<(), Refusal>
        ensures { Carries result (sight B.heard self.old) (sight B.heard self.new) (λ v. gives (with_edit edit.entry v)) }
    {
        self.edits.push(alloc, edit)?;
        Ok(())
    }

    /// A child at the appropriate place.
    #[inline(always)]
    pub fn put(&mut self, alloc: Global, fostering: bool, child: Child<'p>) -> Result<(), Refusal>
        ensures { Meets result (sight B.heard self.old) (sight B.heard self.new) (put_step fostering child.entry) }
    {
        let place = self.place(alloc, fostering)?;
        self.push_edit(alloc, Edit::Put { child, place })
    }

    /// A child of the document.
    pub fn put_into_document(&mut self, alloc: Global, child: Child<'p>) -> Result<(), Refusal>
        ensures { Meets result (sight B.heard self.old) (sight B.heard self.new) (put_document_step child.entry) }
    {
        let place = Place::Into(Ref::Fixed(0));
        self.push_edit(alloc, Edit::Put { child, place })
    }

    /// A child of the first element.
    pub fn put_into_first(&mut self, alloc: Global, child: Child<'p>) -> Result<(), Refusal>
        ensures { Meets result (sight B.heard self.old) (sight B.heard self.new) (put_first_step child.entry) }
    {
        let place = Place::Into(self.first_ref());
        self.push_edit(alloc, Edit::Put { child, place })
    }

    /// Makes an element for the tag, puts it into a place and pushes it.
    #[inline(always)]
    fn insert_at(
        &mut self,
        alloc: Global,
        tag: Tag,
        point: Point,
        place: Place,
    ) -> Result<(), Refusal>
        requires point { point ≡ point_in tag.namespace tag }
        ensures { Carries result (sight B.heard self.old) (sight B.heard self.new) (λ v. gives (insert_at tag v place)) }
    {
        let id = self.change.made;
        let Some(made) = id.checked_add(1) else {
            return Err(Refusal::NoMemory);
        };
        let node = self.own_ref(id);
        push_made(&mut self.change.stack, alloc, id, &tag, point)?;
        let attributes = tag.attributes.len();
        self.edits
            .push_element(alloc, tag, attributes, node, place)?;
        self.change.made = made;
        Ok(())
    }

    /// The same in the current node.
    #[inline(never)]
    fn insert_here(&mut self, alloc: Global, tag: Tag, point: Point) -> Result<(), Refusal>
        requires point { point ≡ point_in tag.namespace tag }
        ensures { Carries result (sight B.heard self.old) (sight B.heard self.new) (λ v. gives (insert_at tag v (Into (current_ref v)))) }
    {
        let place = Place::Into(self.ref_at(0));
        self.insert_at(alloc, tag, point, place)
    }

    /// The same where it may not stand in a table.
    #[inline(never)]
    fn insert_fostered(&mut self, alloc: Global, tag: Tag, point: Point) -> Result<(), Refusal>
        requires point { point ≡ point_in tag.namespace tag }
        ensures { Carries result (sight B.heard self.old) (sight B.heard self.new) (insert_plan true tag) }
    {
        let place = self.place(alloc, true)?;
        self.insert_at(alloc, tag, point, place)
    }

    /// Inserts an element for the tag at the appropriate place (13.2.6.1). `point` is the integration point that it is; an
    /// HTML element is none.
    #[inline(always)]
    pub fn insert(
        &mut self,
        alloc: Global,
        fostering: bool,
        tag: Tag,
        point: Point,
    ) -> Result<(), Refusal>
        requires point { point ≡ point_in tag.namespace tag }
        ensures { Meets result (sight B.heard self.old) (sight B.heard self.new) (insert_step fostering tag) }
    {
        if fostering {
            self.insert_fostered(alloc, tag, point)
        } else {
            self.insert_here(alloc, tag, point)
        }
    }

    /// Inserts an element for the tag into the document.
    #[inline(never)]
    pub fn insert_into_document(&mut self, alloc: Global, tag: Tag) -> Result<(), Refusal>
        requires html { tag.namespace ≡ Html }
        ensures { Meets result (sight B.heard self.old) (sight B.heard self.new) (insert_document_step tag) }
    {
        self.insert_at(alloc, tag, Point::No, Place::Into(Ref::Fixed(0)))
    }

    /// Adds missing attributes to the first element.
    pub fn add_missing_to_first(
        &mut self,
        alloc: Global,
        attributes: Chain<Attribute>,
    ) -> Result<(), Refusal>
        ensures { Meets result (sight B.heard self.old) (sight B.heard self.new) (add_first_step attributes) }
    {
        let id = first_id(&self.change.stack);
        self.add_missing_to(alloc, id, attributes)
    }

    /// Adds missing attributes to the second element.
    pub fn add_missing_to_body(
        &mut self,
        alloc: Global,
        attributes: Chain<Attribute>,
    ) -> Result<(), Refusal>
        ensures { Meets result (sight B.heard self.old) (sight B.heard self.new) (add_body_step attributes) }
    {
        let id = second_id(&self.change.stack);
        self.add_missing_to(alloc, id, attributes)
    }

    fn add_missing_to(
        &mut self,
        alloc: Global,
        id: u64,
        attributes: Chain<Attribute>,
    ) -> Result<(), Refusal>
        ensures { Carries result (sight B.heard self.old) (sight B.heard self.new) (λ v. add_to_on v.page id attributes v) }
    {
        if self.page.is_none() {
            return Err(Refusal::Crossed(Crossing::X5));
        }
        let node = Ref::Fixed(id);
        self.push_edit(alloc, Edit::AddMissing { node, attributes })
    }

    /// Takes the body out of the tree.
    pub fn detach_body(&mut self, alloc: Global) -> Result<(), Refusal>
        ensures plan { Meets result (sight B.heard self.old) (sight B.heard self.new) detach_step }
        ensures no_memory { IsNone self.old.page → result ≢ Err Refusal.NoMemory }
    {
        if self.page.is_none() {
            return Err(Refusal::Crossed(Crossing::X5));
        }
        let node = Ref::Fixed(second_id(&self.change.stack));
        self.push_edit(alloc, Edit::Detach { node })
    }
}

ghost use Rattle.hp_elements.specs.declared.sets.Namespace.TheVariants.{Html};
