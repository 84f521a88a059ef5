//! The sequential parser over a whole page.
ghost use Rattle.std.specs.Prelude.{◌≡◌, IfOk};
ghost use Rattle.std.specs.Str.{chars};
ghost use Rattle.hp_names.specs.BuiltIn.{built_in};
ghost use Rattle.hp_runs.specs.Pages.{IsTreeOf};
ghost use Rattle.hp_text.specs.Page.{text_of};
ghost use Rattle.hp_fragment.specs.Making.{kind_of, HasGrownBy, Applied};

use crate::NoMemory;
use crate::laws::{pages_end, runs_stay_valid};
use crate::leaving::{into_edits, leave, leave_control, leave_lexer};
use crate::parsing::Parsing;
use crate::sink::{Sink, grow};
use hp_arena::Tree;
use hp_control::{Control, Nothing};
use hp_text::Page;
use std::alloc::Global;

/// The tree of the page: the one that the standard's sequential parser builds (13.2, scripting disabled), with the 365 reference
/// names of hp_names (docs/SPECIFICATION.md). `Err` is want of memory, which a tree of more than 2^29 nodes finds too.
pub fn parse_whole<'p>(alloc: Global, page: Page<'p>) -> Result<Tree<'p>, NoMemory>
    ensures tree { IfOk result (λ tree. IsTreeOf built_in (chars (text_of page.entry)) tree.branches) }
{
    runs_stay_valid();
    pages_end();
    let tree = Tree::start(alloc)?;
    let start = Control::start();
    start.is_kept();
    let read = Parsing::behind(alloc, &start, page.as_str(), Sink::Grows(tree));
    leave_control(start);
    let mut read = read?;
    match read.end_input(alloc) {
        Ok(()) => grown_tree(alloc, read),
        Err(_) => {
            leave(read);
            Err(NoMemory)
        }
    }
}

/// The tree of a parser that grows one, with all its edits.
fn grown_tree<'p>(alloc: Global, read: Parsing<'p, Nothing>) -> Result<Tree<'p>, NoMemory>
    requires grows { kind_of read.sink ≡ Applied }
    ensures { IfOk result (λ tree. HasGrownBy read.entry.sink read.entry.view.edits tree.branches) }
{
    let Parsing {
        lexer,
        view,
        sink,
        ..
    } = read;
    leave_lexer(lexer);
    let mut edits = into_edits(view);
    match sink {
        Sink::Grows(mut tree) => {
            grow(alloc, &mut tree, &mut edits)?;
            Ok(tree)
        }
        Sink::Keeps | Sink::Splits(_) => unreachable!(),
    }
}
