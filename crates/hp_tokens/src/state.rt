//! The 80 states of the lexer, by the standard's names (13.2.5.1 to 13.2.5.80), in its order.
ghost use Rattle.std.specs.Prelude.{◌≡◌};

use hp_elements::Rest;

/// A state of the lexer, by the standard's name. The order is that of the standard's sections 13.2.5.1 to 13.2.5.80.
#[derive(Clone, Copy, PartialEq, Eq)]
pub enum State {
    Data,
    Rcdata,
    Rawtext,
    ScriptData,
    Plaintext,
    TagOpen,
    EndTagOpen,
    TagName,
    RcdataLessThanSign,
    RcdataEndTagOpen,
    RcdataEndTagName,
    RawtextLessThanSign,
    RawtextEndTagOpen,
    RawtextEndTagName,
    ScriptDataLessThanSign,
    ScriptDataEndTagOpen,
    ScriptDataEndTagName,
    ScriptDataEscapeStart,
    ScriptDataEscapeStartDash,
    ScriptDataEscaped,
    ScriptDataEscapedDash,
    ScriptDataEscapedDashDash,
    ScriptDataEscapedLessThanSign,
    ScriptDataEscapedEndTagOpen,
    ScriptDataEscapedEndTagName,
    ScriptDataDoubleEscapeStart,
    ScriptDataDoubleEscaped,
    ScriptDataDoubleEscapedDash,
    ScriptDataDoubleEscapedDashDash,
    ScriptDataDoubleEscapedLessThanSign,
    ScriptDataDoubleEscapeEnd,
    BeforeAttributeName,
    AttributeName,
    AfterAttributeName,
    BeforeAttributeValue,
    AttributeValueDoubleQuoted,
    AttributeValueSingleQuoted,
    AttributeValueUnquoted,
    AfterAttributeValueQuoted,
    SelfClosingStartTag,
    BogusComment,
    MarkupDeclarationOpen,
    CommentStart,
    CommentStartDash,
    Comment,
    CommentLessThanSign,
    CommentLessThanSignBang,
    CommentLessThanSignBangDash,
    CommentLessThanSignBangDashDash,
    CommentEndDash,
    CommentEnd,
    CommentEndBang,
    Doctype,
    BeforeDoctypeName,
    DoctypeName,
    AfterDoctypeName,
    AfterDoctypePublicKeyword,
    BeforeDoctypePublicIdentifier,
    DoctypePublicIdentifierDoubleQuoted,
    DoctypePublicIdentifierSingleQuoted,
    AfterDoctypePublicIdentifier,
    BetweenDoctypePublicAndSystemIdentifiers,
    AfterDoctypeSystemKeyword,
    BeforeDoctypeSystemIdentifier,
    DoctypeSystemIdentifierDoubleQuoted,
    DoctypeSystemIdentifierSingleQuoted,
    AfterDoctypeSystemIdentifier,
    BogusDoctype,
    CdataSection,
    CdataSectionBracket,
    CdataSectionEnd,
    CharacterReference,
    NamedCharacterReference,
    AmbiguousAmpersand,
    NumericCharacterReference,
    HexadecimalCharacterReferenceStart,
    DecimalCharacterReferenceStart,
    HexadecimalCharacterReference,
    DecimalCharacterReference,
    NumericCharacterReferenceEnd,
}

/// Where a character reference goes back to.
#[derive(Clone, Copy)]
pub enum Return {
    Data,
    Rcdata,
    DoubleQuoted,
    SingleQuoted,
    Unquoted,
}

impl Return {
    ghost use Rattle.hp_tokens.specs.States.{return_state, is_in_value};

    /// The state that it is.
    pub fn state(self) -> State
        ensures { result ≡ return_state self }
    {
        match self {
            Return::Data => State::Data,
            Return::Rcdata => State::Rcdata,
            Return::DoubleQuoted => State::AttributeValueDoubleQuoted,
            Return::SingleQuoted => State::AttributeValueSingleQuoted,
            Return::Unquoted => State::AttributeValueUnquoted,
        }
    }

    /// Whether the reference stands in an attribute's value.
    pub fn is_in_value(self) -> bool
        ensures { result ≡ is_in_value self }
    {
        match self {
            Return::Data | Return::Rcdata => false,
            Return::DoubleQuoted | Return::SingleQuoted | Return::Unquoted => true,
        }
    }
}

impl State {
    ghost use Rattle.std.specs.Prelude.{Some, None, MatchOption, false};
    ghost use Rattle.hp_tokens.specs.States.{is_resting, state_of_rest, uses_token, uses_buffer, uses_return, uses_value};

    /// The resting state of that name.
    pub fn of_rest(rest: Rest) -> State
        ensures state { result ≡ state_of_rest rest }
    {
        match rest {
            Rest::Data => State::Data,
            Rest::Rcdata => State::Rcdata,
            Rest::Rawtext => State::Rawtext,
            Rest::Script => State::ScriptData,
            Rest::Plaintext => State::Plaintext,
            Rest::Escaped => State::ScriptDataEscaped,
            Rest::EscapedDash => State::ScriptDataEscapedDash,
            Rest::EscapedDashDash => State::ScriptDataEscapedDashDash,
            Rest::Double => State::ScriptDataDoubleEscaped,
            Rest::DoubleDash => State::ScriptDataDoubleEscapedDash,
            Rest::DoubleDashDash => State::ScriptDataDoubleEscapedDashDash,
            Rest::Cdata => State::CdataSection,
        }
    }

    /// The resting state that it is; `None` where a code point is held back.
    pub fn rest(self) -> Option<Rest>
        ensures { MatchOption result (is_resting self ≡ false) (λ rest. state_of_rest rest ≡ self) }
    {
        match self {
            State::Data => Some(Rest::Data),
            State::Rcdata => Some(Rest::Rcdata),
            State::Rawtext => Some(Rest::Rawtext),
            State::ScriptData => Some(Rest::Script),
            State::Plaintext => Some(Rest::Plaintext),
            State::ScriptDataEscaped => Some(Rest::Escaped),
            State::ScriptDataEscapedDash => Some(Rest::EscapedDash),
            State::ScriptDataEscapedDashDash => Some(Rest::EscapedDashDash),
            State::ScriptDataDoubleEscaped => Some(Rest::Double),
            State::ScriptDataDoubleEscapedDash => Some(Rest::DoubleDash),
            State::ScriptDataDoubleEscapedDashDash => Some(Rest::DoubleDashDash),
            State::CdataSection => Some(Rest::Cdata),
            _ => None,
        }
    }

    /// Whether no code point is held back here.
    #[inline]
    pub fn is_resting(self) -> bool
        ensures { result ≡ is_resting self }
    {
        match self {
            State::Data
            | State::Rcdata
            | State::Rawtext
            | State::ScriptData
            | State::Plaintext
            | State::ScriptDataEscaped
            | State::ScriptDataEscapedDash
            | State::ScriptDataEscapedDashDash
            | State::ScriptDataDoubleEscaped
            | State::ScriptDataDoubleEscapedDash
            | State::ScriptDataDoubleEscapedDashDash
            | State::CdataSection => true,
            _ => false,
        }
    }

    /// Whether a token is under construction here, or may be while a reference in its value is read.
    #[inline]
    pub fn uses_token(self) -> bool
        ensures { result ≡ uses_token self }
    {
        match self {
            State::TagName
            | State::RcdataEndTagName
            | State::RawtextEndTagName
            | State::ScriptDataEndTagName
            | State::ScriptDataEscapedEndTagName
            | State::BeforeAttributeName
            | State::AttributeName
            | State::AfterAttributeName
            | State::BeforeAttributeValue
            | State::AttributeValueDoubleQuoted
            | State::AttributeValueSingleQuoted
            | State::AttributeValueUnquoted
            | State::AfterAttributeValueQuoted
            | State::SelfClosingStartTag
            | State::BogusComment
            | State::CommentStart
            | State::CommentStartDash
            | State::Comment
            | State::CommentLessThanSign
            | State::CommentLessThanSignBang
            | State::CommentLessThanSignBangDash
            | State::CommentLessThanSignBangDashDash
            | State::CommentEndDash
            | State::CommentEnd
            | State::CommentEndBang
            | State::DoctypeName
            | State::AfterDoctypeName
            | State::AfterDoctypePublicKeyword
            | State::BeforeDoctypePublicIdentifier
            | State::DoctypePublicIdentifierDoubleQuoted
            | State::DoctypePublicIdentifierSingleQuoted
            | State::AfterDoctypePublicIdentifier
            | State::BetweenDoctypePublicAndSystemIdentifiers
            | State::AfterDoctypeSystemKeyword
            | State::BeforeDoctypeSystemIdentifier
            | State::DoctypeSystemIdentifierDoubleQuoted
            | State::DoctypeSystemIdentifierSingleQuoted
            | State::AfterDoctypeSystemIdentifier
            | State::BogusDoctype
            | State::CharacterReference
            | State::NamedCharacterReference
            | State::AmbiguousAmpersand
            | State::NumericCharacterReference
            | State::HexadecimalCharacterReferenceStart
            | State::DecimalCharacterReferenceStart
            | State::HexadecimalCharacterReference
            | State::DecimalCharacterReference
            | State::NumericCharacterReferenceEnd => true,
            _ => false,
        }
    }

    /// Whether the buffer is read here.
    #[inline]
    pub fn uses_buffer(self) -> bool
        ensures { result ≡ uses_buffer self }
    {
        match self {
            State::RcdataEndTagName
            | State::RawtextEndTagName
            | State::ScriptDataEndTagName
            | State::ScriptDataEscapedEndTagName
            | State::ScriptDataDoubleEscapeStart
            | State::ScriptDataDoubleEscapeEnd
            | State::NamedCharacterReference
            | State::NumericCharacterReference
            | State::HexadecimalCharacterReferenceStart
            | State::DecimalCharacterReferenceStart => true,
            _ => false,
        }
    }

    /// Whether a character reference is read here.
    #[inline]
    pub fn uses_return(self) -> bool
        ensures { result ≡ uses_return self }
    {
        match self {
            State::CharacterReference
            | State::NamedCharacterReference
            | State::AmbiguousAmpersand
            | State::NumericCharacterReference
            | State::HexadecimalCharacterReferenceStart
            | State::DecimalCharacterReferenceStart
            | State::HexadecimalCharacterReference
            | State::DecimalCharacterReference
            | State::NumericCharacterReferenceEnd => true,
            _ => false,
        }
    }

    /// Whether a numeric reference has a value here.
    #[inline]
    pub fn uses_value(self) -> bool
        ensures { result ≡ uses_value self }
    {
        match self {
            State::HexadecimalCharacterReference
            | State::DecimalCharacterReference
            | State::NumericCharacterReferenceEnd => true,
            _ => false,
        }
    }
}
