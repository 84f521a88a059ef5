//! The elements whose text the lexer reads in another state.
ghost use Rattle.std.specs.Prelude.{◌≡◌};
ghost use Rattle.hp_elements.specs.Names.{text_of, is_among, words};
ghost use Rattle.hp_elements.specs.RawText.{raw_text_of};

use crate::known::Known;
use crate::token::Rest;

impl Known {
    /// The state in which the lexer reads the text of an HTML element of that name (13.2.6.2, 13.2.6.4.4, 13.2.6.4.7); `None`
    /// where it is read as data.
    pub fn raw_text(self) -> Option<Rest>
        ensures { result ≡ raw_text_of (text_of self) }
    {
        if self == Known::TITLE || self == Known::TEXTAREA {
            return Some(Rest::Rcdata);
        }
        if is_rawtext(self) {
            return Some(Rest::Rawtext);
        }
        if self == Known::SCRIPT {
            return Some(Rest::Script);
        }
        if self == Known::PLAINTEXT {
            return Some(Rest::Plaintext);
        }
        None
    }
}

/// Whether the text of an HTML element of that name is read in the RAWTEXT state.
#[inline]
fn is_rawtext(name: Known) -> bool
    ensures { result ≡ is_among (words "style xmp iframe noembed noframes") (text_of name) }
{
    name == Known::STYLE
        || name == Known::XMP
        || name == Known::IFRAME
        || name == Known::NOEMBED
        || name == Known::NOFRAMES
}
