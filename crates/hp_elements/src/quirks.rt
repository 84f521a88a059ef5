//! The doctypes that give quirks.
ghost use Rattle.std.specs.Prelude.{◌≡◌};

use crate::find::lowers_to;
use crate::text::Text;
use crate::token::DoctypeParts;

impl<'p> DoctypeParts<'p> {
    ghost use Rattle.hp_elements.specs.Quirks.{gives_quirks};

    /// Whether a doctype of these parts puts the document into quirks mode (13.2.6.4.1), by this profile's list: it lacks many of
    /// the standard's identifiers, and three of its prefixes take in more.
    pub fn gives_quirks(&self) -> bool
        ensures { result ≡ gives_quirks self.now }
    {
        self.force_quirks || !is_html(&self.name) || is_quirky(&self.public, self.system.is_none())
    }
}

ghost use Rattle.std.specs.Prelude.{codes, ◌&&◌, ◌||◌};
ghost use Rattle.hp_elements.specs.Quirks.{begins as spec_begins, equals as spec_equals, is_part, quirky, quirky_alone};

/// Whether a name is `html`.
fn is_html(name: &Option<Text<'_>>) -> bool
    ensures { result ≡ is_part (spec_equals (codes "html")) name.now }
{
    match name {
        None => false,
        Some(name) => equals(name, "html"),
    }
}

/// Whether a public identifier gives quirks; some do where it stands alone, without a system identifier.
fn is_quirky(public: &Option<Text<'_>>, alone: bool) -> bool
    ensures { result ≡ (is_part quirky public.now || (is_part quirky_alone public.now && alone)) }
{
    match public {
        None => false,
        Some(public) => {
            equals(public, "html")
                || begins(public, "-//ietf//dtd html")
                || begins(public, "-//w3c//dtd html 3.2")
                || begins(public, "-//w3c//dtd html 4.0 frameset//")
                || begins(public, "-//w3c//dtd html 4.0 transitional//")
                || begins(public, "-//netscape comm. corp.//dtd")
                || alone
                    && (begins(public, "-//w3c//dtd html 4.01 frameset//")
                        || begins(public, "-//w3c//dtd html 4.01 transitional//"))
        }
    }
}

/// Whether a text is another one but for its ASCII upper case letters.
fn equals(text: &Text<'_>, other: &str) -> bool
    ensures { result ≡ spec_equals other.now text.now }
{
    lowers_to(text.as_str().as_bytes(), other.as_bytes())
}

/// Whether a text begins with another one but for its ASCII upper case letters.
fn begins(text: &Text<'_>, front: &str) -> bool
    ensures { result ≡ spec_begins front.now text.now }
{
    let bytes = text.as_str().as_bytes();
    if bytes.len() < front.len() {
        return false;
    }
    lowers_to(&bytes[..front.len()], front.as_bytes())
}
