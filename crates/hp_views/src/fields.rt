//! The acts that set one field. Those that may cross take no memory.
ghost use Rattle.std.specs.Prelude.{◌≡◌, ◌≢◌, Err};
ghost use Rattle.hp_views.specs.Steps.{append_pending_step, empty_form_step, empty_pending_step, frameset_step, keep_step, original_step, point_form_step, point_head_step, pop_mode_step, push_mode_step, quirks_step, replace_mode_step, skip_step, switch_step};
ghost use Rattle.hp_views.specs.View.{sight, Carries, Meets};

use crate::view::{PageFacts, View};
use hp_control::{Below, Crossing, FormChange, Refusal};
use hp_elements::{Mode, Text};
use std::alloc::Global;

impl<'p, B: Below> View<'p, B> {
    /// A frameset may no longer replace the body.
    pub fn frameset_not_ok(&mut self, _alloc: Global) -> Result<(), Refusal>
        ensures { Meets result (sight B.heard self.old) (sight B.heard self.new) frameset_step }
    {
        self.change.frameset_off = true;
        Ok(())
    }

    /// The next token is dropped if it is a line feed.
    pub fn skip_line_feed(&mut self, _alloc: Global) -> Result<(), Refusal>
        ensures { Meets result (sight B.heard self.old) (sight B.heard self.new) skip_step }
    {
        self.change.skip_lf = true;
        Ok(())
    }

    /// Another insertion mode.
    pub fn switch_to(&mut self, _alloc: Global, mode: Mode) -> Result<(), Refusal>
        ensures { Meets result (sight B.heard self.old) (sight B.heard self.new) (switch_step mode) }
    {
        self.change.mode = mode;
        Ok(())
    }

    /// The present mode is the one to come back to.
    pub fn keep_original(&mut self, _alloc: Global) -> Result<(), Refusal>
        ensures { Meets result (sight B.heard self.old) (sight B.heard self.new) keep_step }
    {
        self.change.original = Some(self.change.mode);
        Ok(())
    }

    /// Back to the mode that was kept.
    pub fn to_original(&mut self, _alloc: Global) -> Result<(), Refusal>
        ensures { Meets result (sight B.heard self.old) (sight B.heard self.new) original_step }
    {
        if let Some(mode) = self.change.original {
            self.change.mode = mode;
        }
        self.change.original = None;
        Ok(())
    }

    /// Another template mode.
    pub fn push_template_mode(&mut self, alloc: Global, mode: Mode) -> Result<(), Refusal>
        ensures { Meets result (sight B.heard self.old) (sight B.heard self.new) (push_mode_step mode) }
    {
        self.change.templates.push(alloc, mode)?;
        Ok(())
    }

    /// The last template mode goes. An older one isn't this view's to take.
    pub fn pop_template_mode(&mut self, _alloc: Global) -> Result<(), Refusal>
        ensures plan { Meets result (sight B.heard self.old) (sight B.heard self.new) pop_mode_step }
        ensures no_memory { result ≢ Err Refusal.NoMemory }
    {
        if self.change.templates.is_empty() {
            return self.without_template_mode();
        }
        self.change.templates.drop_top(1);
        Ok(())
    }

    /// Another mode in place of the last template mode. An older one isn't this view's to replace.
    pub fn replace_template_mode(&mut self, _alloc: Global, mode: Mode) -> Result<(), Refusal>
        ensures plan { Meets result (sight B.heard self.old) (sight B.heard self.new) (replace_mode_step mode) }
        ensures no_memory { result ≢ Err Refusal.NoMemory }
    {
        if self.change.templates.is_empty() {
            return self.without_template_mode();
        }
        let _ = self.change.templates.replace(0, mode);
        Ok(())
    }

    /// The last template mode isn't the view's own.
    fn without_template_mode(&mut self) -> Result<(), Refusal>
        ensures plan { Carries result (sight B.heard self.old) (sight B.heard self.new) (λ v. last_mode_on v.page v) }
        ensures no_memory { result ≢ Err Refusal.NoMemory }
    {
        match self.page {
            Some(_) => Ok(()),
            None => Err(Refusal::Crossed(Crossing::X6)),
        }
    }

    /// The form pointer is emptied.
    pub fn empty_form(&mut self, _alloc: Global) -> Result<(), Refusal>
        ensures { Meets result (sight B.heard self.old) (sight B.heard self.new) empty_form_step }
    {
        self.change.form = FormChange::Cleared;
        Ok(())
    }

    /// The form pointer points at the current node.
    pub fn point_form(&mut self, _alloc: Global) -> Result<(), Refusal>
        ensures { Meets result (sight B.heard self.old) (sight B.heard self.new) point_form_step }
    {
        if !self.change.stack.is_empty() {
            self.change.form = FormChange::Own(self.change.stack.at(0).id);
        }
        Ok(())
    }

    /// The page is in quirks mode.
    pub fn set_quirks(&mut self, _alloc: Global) -> Result<(), Refusal>
        ensures plan { Meets result (sight B.heard self.old) (sight B.heard self.new) quirks_step }
        ensures no_memory { result ≢ Err Refusal.NoMemory }
    {
        match self.page {
            Some(facts) => {
                self.page = Some(PageFacts {
                    head: facts.head,
                    quirks: true,
                });
                Ok(())
            }
            None => Err(Refusal::Crossed(Crossing::X4)),
        }
    }

    /// The head pointer points at the current node.
    pub fn point_head(&mut self, _alloc: Global) -> Result<(), Refusal>
        ensures plan { Meets result (sight B.heard self.old) (sight B.heard self.new) point_head_step }
        ensures no_memory { result ≢ Err Refusal.NoMemory }
    {
        match self.page {
            Some(facts) => {
                self.page = Some(PageFacts {
                    head: Some(self.own_current()),
                    quirks: facts.quirks,
                });
                Ok(())
            }
            None => Err(Refusal::Crossed(Crossing::X4)),
        }
    }

    /// The id of the current node among the own elements.
    pub fn own_current(&self) -> u64
        ensures { result ≡ own_id self.now.change.stack }
    {
        if self.change.stack.is_empty() {
            0
        } else {
            self.change.stack.at(0).id
        }
    }

    /// There are no pending table characters any more. Those of an older state are not this view's to take.
    pub fn empty_pending(&mut self, _alloc: Global) -> Result<(), Refusal>
        ensures plan { Meets result (sight B.heard self.old) (sight B.heard self.new) empty_pending_step }
        ensures no_memory { result ≢ Err Refusal.NoMemory }
    {
        if self.older_text {
            return Err(Refusal::Crossed(Crossing::X7));
        }
        self.change.pending = Text::new();
        Ok(())
    }

    /// More pending table characters.
    pub fn append_pending(&mut self, alloc: Global, text: &Text<'_>) -> Result<(), Refusal>
        ensures { Meets result (sight B.heard self.old) (sight B.heard self.new) (append_pending_step text.now) }
    {
        self.change.pending.push_str(alloc, text.as_str())?;
        Ok(())
    }
}

ghost use Rattle.hp_views.specs.FieldPlans.{last_mode_on, own_id};
