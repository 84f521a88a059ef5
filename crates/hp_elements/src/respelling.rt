//! Names that foreign elements and their attributes have in another spelling than the page.
ghost use Rattle.std.specs.Prelude.{◌≡◌, MatchOption, ℕ, List};
ghost use Rattle.std.specs.Option.{option_map};
ghost use Rattle.hp_elements.specs.Names.{text_of, is_among, lowered};
ghost use Rattle.hp_elements.specs.Respelling.{bit_of, spellings_of, respelling_of, foreign_attribute_of};

use crate::find::{candidate, lowers_to};
use crate::known::Known;
use crate::name::Name;
use crate::tag::AttributeSpace;

/// A table of respellings: each name whose spelling in foreign elements has upper case letters, which the lexer has lowered.
#[derive(Clone, Copy)]
pub enum Respelling {
    /// The names of SVG elements (13.2.6.5).
    SvgNames,
    /// The attributes of SVG elements (13.2.6.1).
    SvgAttributes,
    /// The attributes of MathML elements (13.2.6.1).
    MathMlAttributes,
}

/// An attribute that has a namespace in foreign elements: the namespace and the local name.
#[derive(Clone, Copy)]
pub struct ForeignAttribute {
    pub space: AttributeSpace,
    pub local: Known,
}

/// The respellings that each known name is in, in the order of the known names. A table's bit is `Respelling::mask`.
static RESPELLINGS: [u8; 240] = [
    0, 0, 1, 1, 1, 1, 1, 1, 0, 0, 0, 0, 0, 0, 0, 0, 0, 0, 0, 0, 0, 0, 0, 0, 1, 0, 0, 0, 0, 0, 0, 0,
    0, 0, 0, 0, 0, 0, 1, 1, 1, 1, 1, 1, 1, 1, 1, 1, 1, 1, 1, 1, 1, 1, 1, 1, 1, 1, 1, 1, 1, 1, 1, 0,
    0, 0, 0, 0, 1, 0, 0, 0, 3, 0, 0, 0, 0, 0, 0, 0, 0, 0, 0, 0, 0, 0, 0, 0, 0, 0, 0, 1, 0, 0, 0, 0,
    0, 0, 0, 0, 0, 0, 0, 0, 0, 0, 0, 0, 0, 0, 0, 0, 0, 0, 0, 0, 0, 0, 0, 1, 0, 0, 0, 0, 0, 0, 0, 0,
    0, 0, 0, 0, 0, 0, 0, 0, 0, 0, 0, 0, 0, 0, 0, 0, 1, 0, 0, 0, 0, 0, 0, 0, 0, 0, 0, 0, 0, 0, 0, 0,
    2, 2, 2, 2, 2, 2, 0, 4, 2, 2, 0, 0, 2, 2, 2, 0, 2, 2, 2, 2, 2, 0, 2, 2, 2, 2, 2, 2, 2, 2, 2, 2,
    2, 2, 2, 2, 2, 2, 2, 2, 2, 2, 2, 2, 2, 2, 0, 0, 0, 0, 2, 2, 2, 2, 2, 2, 2, 2, 2, 2, 2, 2, 0, 2,
    2, 2, 0, 0, 0, 0, 0, 0, 0, 0, 0, 0, 0, 0, 2, 2,
];

/// The place of the first known name of an attribute that has a namespace in foreign elements. Those names stand side by side.
const FIRST_FOREIGN: usize = 227;

/// The namespace and the local name of each of those attributes (13.2.6.1), in the order of the known names.
static FOREIGN: [(AttributeSpace, Known); 11] = [
    (AttributeSpace::Xlink, Known::ACTUATE),
    (AttributeSpace::Xlink, Known::ARCROLE),
    (AttributeSpace::Xlink, Known::HREF),
    (AttributeSpace::Xlink, Known::ROLE),
    (AttributeSpace::Xlink, Known::SHOW),
    (AttributeSpace::Xlink, Known::TITLE),
    (AttributeSpace::Xlink, Known::TYPE),
    (AttributeSpace::Xml, Known::LANG),
    (AttributeSpace::Xml, Known::SPACE),
    (AttributeSpace::Xmlns, Known::XMLNS),
    (AttributeSpace::Xmlns, Known::XLINK),
];

impl Respelling {
    /// The bit of the table in the row of a name.
    fn mask(self) -> u8
        ensures { result ≡ bit_of self }
    {
        1 << self as u32
    }

    /// Whether a known name is one of the table's spellings.
    fn has(self, known: Known) -> bool
        ensures { result ≡ is_among (spellings_of self) (text_of known) }
    {
        RESPELLINGS[known.index()] & self.mask() != 0
    }
}

impl Name {
    /// The spelling of which this name is the lower case, in that table; `None` where it has none. One look-up.
    pub fn respelling(&self, table: Respelling) -> Option<Known>
        ensures { option_map text_of result ≡ respelling_of (spellings_of table) self.now }
    {
        match lower_of(self.as_str()) {
            None => None,
            Some(known) => { if table.has(known) { Some(known) } else { None } }
        }
    }

    /// The namespace and the local name that an attribute of this name has in foreign elements (13.2.6.1); `None` where it
    /// has no namespace there.
    pub fn foreign_attribute(&self) -> Option<ForeignAttribute>
        ensures { option_map (λ a. (a.space, text_of a.local)) result ≡ foreign_attribute_of self.now }
    {
        match self.known() {
            None => None,
            Some(known) => {
                let place = known.index();
                if place < FIRST_FOREIGN {
                    return None;
                }
                match FOREIGN.get(place - FIRST_FOREIGN) {
                    None => None,
                    Some(row) => Some(ForeignAttribute {
                        space: row.0,
                        local: row.1,
                    }),
                }
            }
        }
    }
}

ghost use Rattle.std.specs.Str.{chars};
ghost use Rattle.hp_elements.specs.declared.known.Known.{Known};

/// The known name of whose text a text is the lower case; `None` where there is none.
fn lower_of(text: &str) -> Option<Known>
    ensures { MatchOption result ((known : Known) → lowered (text_of known) ≡ chars text.now → ⊥) (λ known. lowered (text_of known) ≡ chars text.now) }
{
    match candidate(text.as_bytes()) {
        Some(known) => {
            if lowers_to(known.text().as_bytes(), text.as_bytes()) {
                Some(known)
            } else {
                None
            }
        }
        None => None,
    }
}
