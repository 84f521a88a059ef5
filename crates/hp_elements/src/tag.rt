//! Tags and their attributes.
ghost use Rattle.std.specs.Prelude.{◌≡◌, ◌↔◌, IfOk, IsTrue};

use crate::chain::Chain;
use crate::name::Name;
use crate::sets::Namespace;
use crate::text::Text;
use std::alloc::{AllocError, Global};

/// The namespace of an attribute; `Plain` is none.
#[derive(Clone, Copy, PartialEq, Eq)]
pub enum AttributeSpace {
    Plain,
    Xlink,
    Xml,
    Xmlns,
}

/// An attribute. Where it has a namespace, its name is the local one.
#[derive(Drop)]
pub struct Attribute {
    pub space: AttributeSpace,
    pub name: Name,
    pub value: Text<'static>,
}

/// What an element is made of: its namespace, its name and its attributes, in the order of the page.
#[derive(Drop)]
pub struct Tag {
    pub namespace: Namespace,
    pub name: Name,
    pub attributes: Chain<Attribute>,
}

impl Attribute {
    /// An attribute that equals this one.
    pub fn copy(&self, alloc: Global) -> Result<Attribute, AllocError>
        ensures { IfOk result (λ copy. copy ≡ self.now) }
    {
        let Ok(name) = self.name.copy(alloc) else {
            return Err(AllocError);
        };
        let Ok(value) = self.value.copy(alloc) else {
            return Err(AllocError);
        };
        Ok(Attribute {
            space: self.space,
            name,
            value,
        })
    }
}

impl Attribute {
    /// Whether two attributes have the same namespace, name and value.
    pub fn same(&self, other: &Attribute) -> bool
        ensures { IsTrue result ↔ (self.now ≡ other.now) }
    {
        self.space == other.space && self.name.same(&other.name) && self.value.same(&other.value)
    }
}

impl Tag {
    /// A tag that equals this one.
    #[inline]
    pub fn copy(&self, alloc: Global) -> Result<Tag, AllocError>
        ensures { IfOk result (λ copy. copy ≡ self.now) }
    {
        match self.name.known() {
            Some(known) if self.attributes.is_empty() => Ok(Tag {
                namespace: self.namespace,
                name: Name::of_known(known),
                attributes: Chain::new(),
            }),
            _ => self.copy_all(alloc),
        }
    }

    /// The same, also for a tag with attributes or of a name that is no known one.
    #[inline(never)]
    fn copy_all(&self, alloc: Global) -> Result<Tag, AllocError>
        ensures { IfOk result (λ copy. copy ≡ self.now) }
    {
        let Ok(name) = self.name.copy(alloc) else {
            return Err(AllocError);
        };
        let Ok(attributes) = copied_attributes(alloc, &self.attributes) else {
            return Err(AllocError);
        };
        Ok(Tag {
            namespace: self.namespace,
            name,
            attributes,
        })
    }

    /// Whether two tags have the same namespace, the same name and the same attributes in the same order.
    pub fn same(&self, other: &Tag) -> bool
        ensures { IsTrue result ↔ (self.now ≡ other.now) }
    {
        self.namespace == other.namespace
            && self.name.same(&other.name)
            && same_attributes(&self.attributes, &other.attributes)
    }
}

/// Attributes that equal these.
pub fn copied_attributes(
    alloc: Global,
    attributes: &Chain<Attribute>,
) -> Result<Chain<Attribute>, AllocError>
    ensures { IfOk result (λ copy. copy ≡ attributes.now) }
{
    let mut copy = Chain::new();
    for attribute in attributes.iter() {
        copy.push(alloc, attribute.copy(alloc)?)?;
    }
    Ok(copy)
}

/// Whether the attributes are the same, in the same order.
pub fn same_attributes(some: &Chain<Attribute>, others: &Chain<Attribute>) -> bool
    ensures { IsTrue result ↔ (some.now ≡ others.now) }
{
    let mut others = others.iter();
    for attribute in some.iter() {
        match others.next() {
            None => return false,
            Some(other) => {
                if !attribute.same(other) {
                    return false;
                }
            }
        }
    }
    others.next().is_none()
}
