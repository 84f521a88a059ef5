//! Where a text begins that is emitted as it stands.
ghost use Rattle.std.specs.Prelude.{◌≡◌};
ghost use Rattle.hp_fragment.specs.AtText.{begins_text, is_of_text};

use hp_tokens::State;

/// Whether it is a state of text.
#[inline(always)]
pub(crate) fn is_of_text(state: State) -> bool
    ensures { result ≡ is_of_text state }
{
    matches!(
        state,
        State::Data | State::Rcdata | State::Rawtext | State::ScriptData
    )
}

/// Whether a text that begins with this byte begins with a code point that each state of text emits as it stands.
#[inline(always)]
pub(crate) fn begins_text(front: Option<u8>) -> bool
    ensures { result ≡ begins_text front }
{
    !matches!(front, None | Some(0 | b'<' | b'&'))
}
