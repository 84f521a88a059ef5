//! A control state in its parts, which a join changes one after the other.
ghost use Rattle.std.specs.Prelude.{◌≡◌};
ghost use Rattle.hp_control.specs.States.{IsValid};

use hp_control::{Control, FormattingEntry, OpenElements, Stack};
use hp_elements::{Mode, Text};
use hp_tokens::LexState;

/// The parts of a control state, between which nothing need hold.
#[derive(Drop)]
pub(crate) struct Parts {
    pub(crate) lex: LexState,
    pub(crate) mode: Mode,
    pub(crate) original: Option<Mode>,
    pub(crate) templates: Stack<Mode>,
    pub(crate) stack: OpenElements,
    pub(crate) formatting: Stack<FormattingEntry>,
    pub(crate) head: Option<u64>,
    pub(crate) form: Option<u64>,
    pub(crate) frameset_ok: bool,
    pub(crate) quirks: bool,
    pub(crate) pending: Text<'static>,
    pub(crate) skip_lf: bool,
    pub(crate) next: u64,
}

impl Parts {
    ghost use Rattle.hp_merge.specs.Parts.{state_of};

    /// The parts of a state.
    pub(crate) fn of(control: Control) -> Parts
        ensures { state_of result ≡ control }
    {
        let Control {
            lex,
            mode,
            original,
            templates,
            stack,
            formatting,
            head,
            form,
            frameset_ok,
            quirks,
            pending,
            skip_lf,
            next,
        } = control;
        Parts {
            lex,
            mode,
            original,
            templates,
            stack,
            formatting,
            head,
            form,
            frameset_ok,
            quirks,
            pending,
            skip_lf,
            next,
        }
    }

    /// The state of these parts.
    pub(crate) fn together(self) -> Control
        requires { IsValid (state_of self) }
        ensures { result ≡ state_of self }
    {
        let Parts {
            lex,
            mode,
            original,
            templates,
            stack,
            formatting,
            head,
            form,
            frameset_ok,
            quirks,
            pending,
            skip_lf,
            next,
        } = self;
        Control {
            lex,
            mode,
            original,
            templates,
            stack,
            formatting,
            head,
            form,
            frameset_ok,
            quirks,
            pending,
            skip_lf,
            next,
        }
    }
}
