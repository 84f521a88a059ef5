//! A tag as it stands in a text.
ghost use Rattle.hp_predict.specs.Tags.{IsTagName};

/// What a tag says before its end.
#[derive(Clone, Copy)]
pub struct Opening<'t> {
    pub is_end: bool,
    /// The name as it stands in the text.
    pub name: &'t [u8],
    /// The text behind the name.
    pub behind: &'t [u8],
    pub ghost is_name: { IsTagName name.now },
}

/// A tag, and the text behind it.
#[derive(Clone, Copy)]
pub struct FoundTag<'t> {
    pub is_end: bool,
    /// The name as it stands in the text.
    pub name: &'t [u8],
    pub rest: &'t [u8],
    pub ghost is_name: { IsTagName name.now },
}
