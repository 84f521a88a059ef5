//! Whose a board is: of which page, of which cuts, and of which tallies.
ghost use Rattle.std.specs.Prelude.{◌≡◌, ◌==◌, ◌||◌, ◌↔◌, IsTrue, count_by, nat_lt};
ghost use Rattle.std.specs.List.{list_all};
ghost use Rattle.hp_text.specs.Page.{text_of as page_text};
ghost use Rattle.hp_board.specs.Calls.{AreNumbered, IsBoardOf};

use crate::board::Board;
use crate::journal::{Entry, MAIN};
use crate::tally::Tally;
use hp_cut::Cuts;
use hp_text::Page;

impl<'p> Board<'p> {
    /// Whether the board is of this page's bytes and these cuts, and the tallies are those of its journal: each number once, and as many
    /// entries as the journal has with it.
    pub fn is_of(&self, page: Page<'_>, cuts: &Cuts, tallies: &[Tally]) -> bool
        ensures { IsTrue result ↔ IsBoardOf self.now (page_text page.entry) cuts.now tallies.now }
    {
        self.page.text() == page.text()
            && self.cuts.same(cuts)
            && are_numbered(self.workers, tallies)
            && are_borne(self.workers, self.journal.as_slice())
            && are_counted(tallies, self.journal.as_slice())
    }
}

/// Whether the tallies bear the numbers of all workers and main's, each once.
fn are_numbered(workers: u32, tallies: &[Tally]) -> bool
    ensures { IsTrue result ↔ AreNumbered workers tallies.now }
{
    for worker in 0..workers {
        if count_of(tallies, worker) != 1 {
            return false;
        }
    }
    count_of(tallies, MAIN) == 1 && tallies.len() as u64 == u64::from(workers) + 1
}

/// How many tallies bear a number.
fn count_of(tallies: &[Tally], worker: u32) -> usize
    ensures { result ≡ count_by (λ t. t.worker == worker) tallies.now }
{
    tallies.iter().filter(|t| t.worker() == worker).count()
}

/// Whether each entry bears the number of a worker or main's.
fn are_borne(workers: u32, journal: &[Entry]) -> bool
    ensures { result ≡ list_all (λ e. nat_lt e.worker workers || (e.worker == 64)) journal.now }
{
    journal
        .iter()
        .all(|e| e.worker < workers || e.worker == MAIN)
}

/// Whether each tally says as many entries as the journal has with its number.
fn are_counted(tallies: &[Tally], journal: &[Entry]) -> bool
    ensures { result ≡ list_all (λ t. t.entries == count_by (λ e. e.worker == t.worker) journal.now) tallies.now }
{
    tallies
        .iter()
        .all(|t| t.entries() == entries_of(journal, t.worker()) as u64)
}

/// How many entries bear a number.
fn entries_of(journal: &[Entry], worker: u32) -> usize
    ensures { result ≡ count_by (λ e. e.worker == worker) journal.now }
{
    journal.iter().filter(|e| e.worker == worker).count()
}
