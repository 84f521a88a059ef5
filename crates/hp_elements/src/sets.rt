//! The namespaces of elements, and the sets that the rules name.
ghost use Rattle.std.specs.Prelude.{◌≡◌, false};
ghost use Rattle.hp_elements.specs.Names.{text_of};
ghost use Rattle.hp_elements.specs.SetMasks.{mask_of};
ghost use Rattle.hp_elements.specs.Sets.{in_set};

use crate::known::Known;
use crate::name::Name;
use crate::set_masks::{HTML_SETS, MATHML_SETS, SVG_SETS};

/// The namespace of an element.
#[derive(Clone, Copy, PartialEq, Eq)]
pub enum Namespace {
    Html,
    MathMl,
    Svg,
}

/// A set of elements, each of a namespace and a name. `members` of `specs/Sets.antt` has each set's elements.
#[derive(Clone, Copy)]
pub enum SetName {
    /// MathML and SVG elements that end each scope but those of tables and of select.
    ForeignEnds,
    DefaultScopeEnds,
    ListItemScopeEnds,
    ButtonScopeEnds,
    TableScopeEnds,
    /// All elements but HTML `optgroup` and `option`.
    SelectScopeEnds,
    Special,
    /// The special elements but HTML `address`, `div` and `p`, where the search for an open `li`, `dd` or `dt` ends.
    ItemBarriers,
    /// The elements whose end tags are implied.
    Implied,
    ImpliedButDd,
    ImpliedButDt,
    ImpliedButLi,
    ImpliedButOptgroup,
    ImpliedButOption,
    ImpliedButP,
    ImpliedButRb,
    ImpliedButRp,
    ImpliedButRt,
    ImpliedButRtc,
    ThoroughlyImplied,
    Formatting,
    /// The elements that put a marker into the list of formatting elements.
    Markers,
    MathMlTextPoints,
    /// The SVG elements that are HTML integration points.
    SvgHtmlPoints,
    Void,
    Breakout,
    Headings,
    /// `dd` and `dt`.
    DescriptionItems,
    /// `td` and `th`.
    Cells,
    /// `tbody`, `tfoot` and `thead`.
    TableSections,
    /// The current nodes at which characters in a table wait: `table tbody template tfoot thead tr`.
    TableTextParents,
    /// The current nodes from which content is put before the table: `table tbody tfoot thead tr`.
    FosterParents,
    TableContext,
    TableBodyContext,
    TableRowContext,
    /// `optgroup` and `option`.
    Options,
}

impl SetName {
    /// The bit of the set in the tables of names.
    fn mask(self) -> u64
        ensures { result ≡ mask_of self }
    {
        1 << self as u32
    }
}

impl SetName {
    /// Whether the elements of that namespace and name are in the set.
    #[inline(always)]
    pub fn has(self, namespace: Namespace, name: &Name) -> bool
        ensures { result ≡ in_set self namespace name.now }
    {
        match name.known() {
            Some(known) => is_in(self, namespace, known),
            // No list names it, so it is in the one set that has all elements but some.
            None => matches!(self, SetName::SelectScopeEnds),
        }
    }
}

/// Whether the elements of that namespace and name are in the set. One look-up.
#[inline(always)]
pub fn is_in(set: SetName, namespace: Namespace, name: Known) -> bool
    ensures { result ≡ in_set set namespace (text_of name) }
{
    let sets = match namespace {
        Namespace::Html => &HTML_SETS,
        Namespace::MathMl => &MATHML_SETS,
        Namespace::Svg => &SVG_SETS,
    };
    sets[name.index()] & set.mask() != 0
}
