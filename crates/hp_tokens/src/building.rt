//! The token under construction.
ghost use Rattle.std.specs.Prelude.{◌≡◌, OnOk, IfOk};

use crate::NoMemory;
use crate::owned::OwnedText;
use hp_elements::{Attribute, AttributeSpace, Chain, Name, copied_attributes};
use std::alloc::Global;

/// A part of the token under construction, to which text is appended.
#[derive(Clone, Copy)]
pub enum Part {
    /// The name of a tag.
    Name,
    Comment,
    AttributeName,
    /// The value of an attribute.
    Value,
    DoctypeName,
    /// The public identifier of a doctype.
    Public,
    /// The system identifier of a doctype.
    System,
}

/// The attribute under construction.
#[derive(Drop)]
pub struct NewAttribute {
    pub name: OwnedText,
    pub value: OwnedText,
}

/// The start tag under construction: its finished attributes, and the one under construction.
#[derive(Drop)]
pub struct NewTag {
    pub name: OwnedText,
    pub attributes: Chain<Attribute>,
    pub attribute: Option<NewAttribute>,
    pub self_closing: bool,
}

/// The doctype under construction. A part that is missing is `None`.
#[derive(Drop)]
pub struct NewDoctype {
    pub name: Option<OwnedText>,
    pub public: Option<OwnedText>,
    pub system: Option<OwnedText>,
    pub force_quirks: bool,
}

/// The token under construction. Attributes of an end tag are read and dropped.
pub enum Building {
    Nothing,
    StartTag(NewTag),
    EndTag(OwnedText),
    Comment(OwnedText),
    Doctype(NewDoctype),
}

impl Drop for Building {
    #[inline(always)]
    fn drop(self) {
        match self {
            Building::Nothing => {}
            Building::StartTag(_) => {}
            Building::EndTag(_) | Building::Comment(_) => {}
            Building::Doctype(_) => {}
        }
    }
}

impl Building {
    ghost use Rattle.std.specs.Str.{chars};
    ghost use Rattle.hp_tokens.specs.Parts.{put, attribute_begun, self_closed, quirks_forced};

    /// Begins a token; what was built is dropped.
    #[inline(always)]
    pub(crate) fn begin(&mut self, token: Building)
        ensures { self.new ≡ token }
    {
        *self = token;
    }

    /// Appends text to a part; what is built has no such part: nothing.
    #[inline]
    pub fn put(&mut self, alloc: Global, part: Part, text: &str) -> Result<(), NoMemory>
        ensures { OnOk result (self.new ≡ put part (chars text.now) self.old) }
    {
        match self {
            Building::Nothing => Ok(()),
            Building::StartTag(tag) => put_tag(alloc, tag, part, text),
            Building::EndTag(name) => match part {
                Part::Name => name.push_str(alloc, text),
                _ => Ok(()),
            },
            Building::Comment(comment) => match part {
                Part::Comment => comment.push_str(alloc, text),
                _ => Ok(()),
            },
            Building::Doctype(doctype) => match part {
                Part::DoctypeName => append(alloc, &mut doctype.name, text),
                Part::Public => append(alloc, &mut doctype.public, text),
                Part::System => append(alloc, &mut doctype.system, text),
                _ => Ok(()),
            },
        }
    }

    /// A copy.
    pub fn copy(&self, alloc: Global) -> Result<Building, NoMemory>
        ensures { IfOk result (λ copy. copy ≡ self.now) }
    {
        Ok(match self {
            Building::Nothing => Building::Nothing,
            Building::StartTag(tag) => Building::StartTag(copied_tag(alloc, tag)?),
            Building::EndTag(name) => Building::EndTag(name.copy(alloc)?),
            Building::Comment(text) => Building::Comment(text.copy(alloc)?),
            Building::Doctype(doctype) => Building::Doctype(copied_doctype(alloc, doctype)?),
        })
    }

    /// Begins a new attribute of a start tag, behind the one under construction. One whose name the tag has already is
    /// dropped with its value.
    pub fn begin_attribute(&mut self, alloc: Global) -> Result<(), NoMemory>
        ensures { OnOk result (self.new ≡ attribute_begun self.old) }
    {
        if let Building::StartTag(tag) = self {
            let attribute = tag.attribute.replace(NewAttribute {
                name: OwnedText::new(),
                value: OwnedText::new(),
            });
            return finish(alloc, &mut tag.attributes, attribute);
        }
        Ok(())
    }

    /// Sets the self-closing flag of a start tag.
    pub fn self_close(&mut self)
        ensures { self.new ≡ self_closed self.old }
    {
        if let Building::StartTag(tag) = self {
            tag.self_closing = true;
        }
    }

    /// Sets the force-quirks flag of a doctype.
    pub fn force_quirks(&mut self)
        ensures { self.new ≡ quirks_forced self.old }
    {
        if let Building::Doctype(doctype) = self {
            doctype.force_quirks = true;
        }
    }
}

ghost use Rattle.std.specs.Str.{chars};
ghost use Rattle.hp_tokens.specs.Parts.{put_in_tag, appended, added, has_name};

fn put_tag(alloc: Global, tag: &mut NewTag, part: Part, text: &str) -> Result<(), NoMemory>
    ensures { OnOk result (tag.new ≡ put_in_tag part (chars text.now) tag.old) }
{
    match part {
        Part::Name => tag.name.push_str(alloc, text),
        Part::AttributeName => match &mut tag.attribute {
            Some(attribute) => attribute.name.push_str(alloc, text),
            None => Ok(()),
        },
        Part::Value => match &mut tag.attribute {
            Some(attribute) => attribute.value.push_str(alloc, text),
            None => Ok(()),
        },
        Part::Comment | Part::DoctypeName | Part::Public | Part::System => Ok(()),
    }
}

/// Appends to a part that may be missing.
fn append(alloc: Global, part: &mut Option<OwnedText>, text: &str) -> Result<(), NoMemory>
    ensures { OnOk result (part.new ≡ appended part.old (chars text.now)) }
{
    match part {
        Some(old) => old.push_str(alloc, text),
        None => {
            let mut new = OwnedText::new();
            new.push_str(alloc, text)?;
            *part = Some(new);
            Ok(())
        }
    }
}

/// The attribute under construction goes behind the finished ones, unless the tag has its name already.
pub(crate) fn finish(
    alloc: Global,
    attributes: &mut Chain<Attribute>,
    attribute: Option<NewAttribute>,
) -> Result<(), NoMemory>
    ensures { OnOk result (attributes.new ≡ added attributes.old attribute) }
{
    match attribute {
        None => Ok(()),
        Some(attribute) => {
            let value = attribute.value.into_text(alloc)?;
            let name = Name::from_text(alloc, attribute.name.as_str())?;
            let finished = Attribute {
                space: AttributeSpace::Plain,
                name,
                value,
            };
            add(alloc, attributes, finished)
        }
    }
}

fn copied_tag(alloc: Global, tag: &NewTag) -> Result<NewTag, NoMemory>
    ensures { IfOk result (λ copy. copy ≡ tag.now) }
{
    let Ok(attributes) = copied_attributes(alloc, &tag.attributes) else {
        return Err(NoMemory);
    };
    let Ok(name) = tag.name.copy(alloc) else {
        return Err(NoMemory);
    };
    let Ok(attribute) = copied_attribute(alloc, &tag.attribute) else {
        return Err(NoMemory);
    };
    Ok(NewTag {
        name,
        attributes,
        attribute,
        self_closing: tag.self_closing,
    })
}

fn copied_attribute(
    alloc: Global,
    attribute: &Option<NewAttribute>,
) -> Result<Option<NewAttribute>, NoMemory>
    ensures { IfOk result (λ copy. copy ≡ attribute.now) }
{
    match attribute {
        None => Ok(None),
        Some(attribute) => Ok(Some(NewAttribute {
            name: attribute.name.copy(alloc)?,
            value: attribute.value.copy(alloc)?,
        })),
    }
}

fn copied_doctype(alloc: Global, doctype: &NewDoctype) -> Result<NewDoctype, NoMemory>
    ensures { IfOk result (λ copy. copy ≡ doctype.now) }
{
    let Ok(name) = copied_part(alloc, &doctype.name) else {
        return Err(NoMemory);
    };
    let Ok(public) = copied_part(alloc, &doctype.public) else {
        return Err(NoMemory);
    };
    let Ok(system) = copied_part(alloc, &doctype.system) else {
        return Err(NoMemory);
    };
    Ok(NewDoctype {
        name,
        public,
        system,
        force_quirks: doctype.force_quirks,
    })
}

pub(crate) fn copied_part(
    alloc: Global,
    part: &Option<OwnedText>,
) -> Result<Option<OwnedText>, NoMemory>
    ensures { IfOk result (λ copy. copy ≡ part.now) }
{
    match part {
        None => Ok(None),
        Some(part) => Ok(Some(part.copy(alloc)?)),
    }
}

ghost use Rattle.hp_tokens.specs.Parts.{joined};

/// Whether one of the attributes has that name.
#[inline]
fn are_named(attributes: &Chain<Attribute>, name: &Name) -> bool
    ensures { result ≡ has_name name.now attributes.now }
{
    attributes.iter().any(|attribute| attribute.name.same(name))
}

/// An attribute goes behind the others, unless one of them has its name.
#[inline(always)]
pub fn add(
    alloc: Global,
    attributes: &mut Chain<Attribute>,
    attribute: Attribute,
) -> Result<(), NoMemory>
    ensures { OnOk result (attributes.new ≡ joined attributes.old attribute) }
{
    if !attributes.is_empty() && are_named(attributes, &attribute.name) {
        return Ok(());
    }
    attributes.push(alloc, attribute)?;
    Ok(())
}
