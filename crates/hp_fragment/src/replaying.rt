//! The run over a chunk behind a known state.
ghost use Rattle.std.specs.Prelude.{◌≡◌, IfOk, slice_range};
ghost use Rattle.std.specs.Str.{chars};
ghost use Rattle.hp_text.specs.Page.{text_of as page_text};
ghost use Rattle.hp_control.specs.States.{IsValid};
ghost use Rattle.hp_pieces.specs.Texts.{text_of, IsExactFrom};
ghost use Rattle.hp_fragment.specs.Known.{LeadsPartlySplit};

use crate::NoMemory;
use crate::grown::grown_run;
use crate::laws::runs_stay_valid;
use crate::leaving::leave_control;
use crate::parsing::Parsing;
use crate::sink::{Naming, Sink, Splitting};
use crate::told::told_state;
use hp_control::{Control, Edits};
use hp_pieces::Fragment;
use hp_text::Chunk;
use std::alloc::Global;

/// The run of the sequential parser over the chunk's text from this state.
pub fn replay<'p>(alloc: Global, chunk: Chunk<'p>, from: Control) -> Result<Fragment<'p>, NoMemory>
    ensures text { IfOk result (λ fragment. text_of fragment ≡ slice_range (page_text chunk.entry.page) chunk.entry.from chunk.entry.to) }
    ensures exact { IfOk result (IsExactFrom from) }
{
    let text = &chunk.page.as_str()[chunk.from as usize..chunk.to as usize];
    from.is_kept();
    match run_from(alloc, text, &from) {
        Ok((exit, splitting, rest)) => {
            let exact = grown_run(alloc, text, from, exit, splitting, rest)?;
            Ok(Fragment::Exact(exact))
        }
        Err(fault) => {
            leave_control(from);
            Err(fault)
        }
    }
}

/// The state to which the run over the text leads, what the first of its edits come to, and the others.
fn run_from<'p>(
    alloc: Global,
    text: &'p str,
    from: &Control,
) -> Result<(Control, Splitting<'p>, Edits<'p>), NoMemory>
    requires { IsValid from.now }
    ensures { IfOk result (λ parts. LeadsPartlySplit (chars text.now) from.now parts.1 parts.2 parts.0) }
{
    runs_stay_valid();
    let naming = Naming::Ids { next: from.next };
    let splitting = Splitting::start(alloc, naming)?;
    let parsing = Parsing::behind(alloc, from, text, Sink::Splits(splitting))?;
    Ok(told_state(parsing))
}
