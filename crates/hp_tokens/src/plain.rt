//! What the runs go over, one type a class of text.
ghost use Rattle.std.specs.Prelude.{◌≡◌, ◌≤◌, [], ◌∷◌, length, refl};
ghost use Rattle.hp_tokens.specs.Reading.{PassesFrom};
ghost use Rattle.hp_tokens.specs.Plain.{none_of, in_name, data_stops, raw_stops, plaintext_stops, escaped_stops, cdata_stops, comment_stops, bogus_comment_stops, double_quoted_stops, single_quoted_stops, unquoted_stops, tag_name_stops, attribute_name_stops};
ghost use Rattle.hp_tokens.specs.PlainLaws.{none-high, name-high, text-other};

use crate::cursor::{LongRun, Run};
use crate::runs::TextRun;
use crate::stops::four_stops_len;

/// Text in the data state and in RCDATA: up to white space, U+0000, CR, `&` or `<`.
#[derive(Drop)]
pub struct DataText;

impl Run for DataText {
    ghost passes = { none_of data_stops };

    #[inline]
    fn passes(byte: u8) -> bool
        ensures { result ≡ none_of data_stops byte }
    {
        !matches!(
            byte,
            b'\0' | b'\t' | b'\n' | b'\x0c' | b'\r' | b' ' | b'&' | b'<'
        )
    }

    ghost high = { none-high data_stops refl };

    ghost no_cr = { refl };
}

impl TextRun for DataText {
    ghost other = { text-other (38 ∷ 60 ∷ []) };
}

/// Text in RAWTEXT and in script data: up to white space, U+0000, CR or `<`.
#[derive(Drop)]
pub struct RawText;

impl Run for RawText {
    ghost passes = { none_of raw_stops };

    #[inline]
    fn passes(byte: u8) -> bool
        ensures { result ≡ none_of raw_stops byte }
    {
        !matches!(byte, b'\0' | b'\t' | b'\n' | b'\x0c' | b'\r' | b' ' | b'<')
    }

    ghost high = { none-high raw_stops refl };

    ghost no_cr = { refl };
}

impl TextRun for RawText {
    ghost other = { text-other (60 ∷ []) };
}

/// Text in PLAINTEXT: up to white space, U+0000 or CR.
#[derive(Drop)]
pub struct PlaintextText;

impl Run for PlaintextText {
    ghost passes = { none_of plaintext_stops };

    #[inline]
    fn passes(byte: u8) -> bool
        ensures { result ≡ none_of plaintext_stops byte }
    {
        !matches!(byte, b'\0' | b'\t' | b'\n' | b'\x0c' | b'\r' | b' ')
    }

    ghost high = { none-high plaintext_stops refl };

    ghost no_cr = { refl };
}

impl TextRun for PlaintextText {
    ghost other = { text-other ([]) };
}

/// Text in escaped script data: up to white space, U+0000, CR, `-` or `<`.
#[derive(Drop)]
pub struct EscapedText;

impl Run for EscapedText {
    ghost passes = { none_of escaped_stops };

    #[inline]
    fn passes(byte: u8) -> bool
        ensures { result ≡ none_of escaped_stops byte }
    {
        !matches!(
            byte,
            b'\0' | b'\t' | b'\n' | b'\x0c' | b'\r' | b' ' | b'-' | b'<'
        )
    }

    ghost high = { none-high escaped_stops refl };

    ghost no_cr = { refl };
}

impl TextRun for EscapedText {
    ghost other = { text-other (45 ∷ 60 ∷ []) };
}

/// Text in a CDATA section: up to white space, U+0000, CR or `]`.
#[derive(Drop)]
pub struct CdataText;

impl Run for CdataText {
    ghost passes = { none_of cdata_stops };

    #[inline]
    fn passes(byte: u8) -> bool
        ensures { result ≡ none_of cdata_stops byte }
    {
        !matches!(byte, b'\0' | b'\t' | b'\n' | b'\x0c' | b'\r' | b' ' | b']')
    }

    ghost high = { none-high cdata_stops refl };

    ghost no_cr = { refl };
}

impl TextRun for CdataText {
    ghost other = { text-other (93 ∷ []) };
}

/// The text of a comment: up to U+0000, CR, `-` or `<`.
#[derive(Drop)]
pub struct CommentText;

impl Run for CommentText {
    ghost passes = { none_of comment_stops };

    #[inline]
    fn passes(byte: u8) -> bool
        ensures { result ≡ none_of comment_stops byte }
    {
        !matches!(byte, b'\0' | b'\r' | b'-' | b'<')
    }

    ghost high = { none-high comment_stops refl };

    ghost no_cr = { refl };
}

/// The text of a bogus comment: up to U+0000, CR or `>`.
#[derive(Drop)]
pub struct BogusCommentText;

impl Run for BogusCommentText {
    ghost passes = { none_of bogus_comment_stops };

    #[inline]
    fn passes(byte: u8) -> bool
        ensures { result ≡ none_of bogus_comment_stops byte }
    {
        !matches!(byte, b'\0' | b'\r' | b'>')
    }

    ghost high = { none-high bogus_comment_stops refl };

    ghost no_cr = { refl };
}

/// A value in double quotes: up to U+0000, CR, `"` or `&`.
#[derive(Drop)]
pub struct DoubleQuotedText;

impl Run for DoubleQuotedText {
    ghost passes = { none_of double_quoted_stops };

    #[inline]
    fn passes(byte: u8) -> bool
        ensures { result ≡ none_of double_quoted_stops byte }
    {
        !matches!(byte, b'\0' | b'\r' | b'"' | b'&')
    }

    ghost high = { none-high double_quoted_stops refl };

    ghost no_cr = { refl };
}

impl LongRun for DoubleQuotedText {
    #[inline(always)]
    fn run_len(bytes: &[u8], at: usize) -> usize
        requires { at ≤ length bytes.now }
        ensures { PassesFrom (none_of double_quoted_stops) bytes.now at result }
    {
        four_stops_len(bytes, at, b'"', b'&')
    }
}

/// A value in single quotes: up to U+0000, CR, `&` or `'`.
#[derive(Drop)]
pub struct SingleQuotedText;

impl Run for SingleQuotedText {
    ghost passes = { none_of single_quoted_stops };

    #[inline]
    fn passes(byte: u8) -> bool
        ensures { result ≡ none_of single_quoted_stops byte }
    {
        !matches!(byte, b'\0' | b'\r' | b'&' | b'\'')
    }

    ghost high = { none-high single_quoted_stops refl };

    ghost no_cr = { refl };
}

impl LongRun for SingleQuotedText {
    #[inline(always)]
    fn run_len(bytes: &[u8], at: usize) -> usize
        requires { at ≤ length bytes.now }
        ensures { PassesFrom (none_of single_quoted_stops) bytes.now at result }
    {
        four_stops_len(bytes, at, b'&', b'\'')
    }
}

/// A value without quotes: up to white space, U+0000, CR, `&` or `>`.
#[derive(Drop)]
pub struct UnquotedText;

impl Run for UnquotedText {
    ghost passes = { none_of unquoted_stops };

    #[inline]
    fn passes(byte: u8) -> bool
        ensures { result ≡ none_of unquoted_stops byte }
    {
        !matches!(
            byte,
            b'\0' | b'\t' | b'\n' | b'\x0c' | b'\r' | b' ' | b'&' | b'>'
        )
    }

    ghost high = { none-high unquoted_stops refl };

    ghost no_cr = { refl };
}

/// The name of a tag: up to white space, U+0000, CR, `/`, `>` or upper case.
#[derive(Drop)]
pub struct TagNameText;

impl Run for TagNameText {
    ghost passes = { in_name tag_name_stops };

    #[inline]
    fn passes(byte: u8) -> bool
        ensures { result ≡ in_name tag_name_stops byte }
    {
        !byte.is_ascii_uppercase()
            && !matches!(
                byte,
                b'\0' | b'\t' | b'\n' | b'\x0c' | b'\r' | b' ' | b'/' | b'>'
            )
    }

    ghost high = { name-high tag_name_stops refl };

    ghost no_cr = { refl };
}

/// The name of an attribute: up to white space, U+0000, CR, `/`, `=`, `>` or upper case.
#[derive(Drop)]
pub struct AttributeNameText;

impl Run for AttributeNameText {
    ghost passes = { in_name attribute_name_stops };

    #[inline]
    fn passes(byte: u8) -> bool
        ensures { result ≡ in_name attribute_name_stops byte }
    {
        !byte.is_ascii_uppercase()
            && !matches!(
                byte,
                b'\0' | b'\t' | b'\n' | b'\x0c' | b'\r' | b' ' | b'/' | b'=' | b'>'
            )
    }

    ghost high = { name-high attribute_name_stops refl };

    ghost no_cr = { refl };
}

/// The name of a tag, in any case: up to white space, U+0000, CR, `/` or `>`.
#[derive(Drop)]
pub struct AnyTagNameText;

impl Run for AnyTagNameText {
    ghost passes = { none_of tag_name_stops };

    #[inline]
    fn passes(byte: u8) -> bool
        ensures { result ≡ none_of tag_name_stops byte }
    {
        !matches!(
            byte,
            b'\0' | b'\t' | b'\n' | b'\x0c' | b'\r' | b' ' | b'/' | b'>'
        )
    }

    ghost high = { none-high tag_name_stops refl };

    ghost no_cr = { refl };
}

/// The name of an attribute, in any case: up to white space, U+0000, CR, `/`, `=` or `>`.
#[derive(Drop)]
pub struct AnyAttributeNameText;

impl Run for AnyAttributeNameText {
    ghost passes = { none_of attribute_name_stops };

    #[inline]
    fn passes(byte: u8) -> bool
        ensures { result ≡ none_of attribute_name_stops byte }
    {
        !matches!(
            byte,
            b'\0' | b'\t' | b'\n' | b'\x0c' | b'\r' | b' ' | b'/' | b'=' | b'>'
        )
    }

    ghost high = { none-high attribute_name_stops refl };

    ghost no_cr = { refl };
}
