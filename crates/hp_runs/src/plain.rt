//! The tree of a page without markup, told at once.

ghost use Rattle.hp_runs.specs.Plain.{PlainPages};

/// The tree of a page without markup is html with head and body, and body has the text without its leading white code points.
pub fn plain_pages()
    ensures { PlainPages }
{}
