// A command under way: where it was read, what it still asks for, and how far it has come.
ghost use Rattle.std.specs.Prelude.{◌≡◌, ◌≤◌, ◌<◌, ◌^◌, ◌-◌, IfOk, IsUtf8, length};
ghost use Rattle.std.specs.Arc.{arc_value};
ghost use Rattle.gr_cmdline.specs.Commands.{IsItem};
ghost use Rattle.gr_session.specs.Inside.Kept.{GoesOnWith, IsBetween, IsSpare, IsWaiting, meant, seen};
ghost use Rattle.gr_session.specs.Step.{begun, made_at};
ghost use Rattle.gr_session.specs.ReplyText.{want_of_memory_line};
ghost use Rattle.gr_session.specs.Meaning.{body_after, counts};
ghost use Rattle.gr_session.specs.declared.form.Form.{Form};

use crate::commands::asked_of;
use crate::form::Form;
use crate::parsed::Parsed;
use gr_base::{Bytes, Fault, NoMemory};
use gr_cmdline::Item;
use gr_db::Change;
use gr_root::Root;
use std::alloc::Global;
use std::mem;
use std::sync::Arc;

// The replies to want of memory where nothing was made.
#[derive(Drop)]
pub(crate) struct Spare {
    pub(crate) plain: Bytes,
    pub(crate) counting: Bytes,
}

impl Spare {
    // Makes them.
    pub(crate) fn new(alloc: Global) -> Result<Spare, NoMemory>
        ensures { IfOk result IsSpare }
    {
        Ok(Spare {
            plain: Form::Plain.starved(alloc, 0)?,
            counting: Form::Counting.starved(alloc, 0)?,
        })
    }

    // The one of this form, lent.
    pub(crate) fn of(&self, form: &Form) -> &Bytes
        requires { IsSpare self.now }
        ensures { result.now ≡ want_of_memory_line (body_after form.now 0) }
    {
        if form.counts() {
            &self.counting
        } else {
            &self.plain
        }
    }

    // The one of a form that counts rows, or of one that does not.
    pub(crate) fn take(self, rows: bool) -> Bytes
        requires { IsSpare self }
        ensures { (form : Form) → counts form ≡ rows → result ≡ want_of_memory_line (body_after form 0) }
    {
        if rows { self.counting } else { self.plain }
    }
}

// A command under way.
#[derive(Drop)]
pub(crate) struct UnderWay {
    root: Arc<Root>,
    parsed: Parsed,
    form: Form,
    // The changes that are still to be asked for, the next one last.
    changes: Vec<Change>,
    // What it answers once all of them are made.
    pub(crate) answer: Bytes,
    made: u64,
    reached: u64,
    // The reply to want of memory after what was made so far.
    pub(crate) starved: Bytes,
    // The same after one change more, from when that is asked for.
    starved_then: Bytes,
}

impl UnderWay {
    // A command that is read at a state, and has asked for nothing yet.
    pub(crate) fn begin(
        alloc: Global,
        root: &Arc<Root>,
        item: Item,
        spare: &Spare,
    ) -> Result<UnderWay, NoMemory>
        requires item { IsItem item }
        requires spare { IsSpare spare.now }
        ensures between { IfOk result IsBetween }
        ensures begun { IfOk result (λ command. seen command ≡ begun (arc_value root.now) command.parsed) }
        ensures item { IfOk result (λ command. command.parsed.item ≡ item) }
    {
        let root = Arc::try_clone(root)?;
        let parsed = Parsed::of(alloc, item)?;
        let form = Form::of(alloc, &parsed.item)?;
        let asked = asked_of(alloc, &root, &parsed)?;
        let starved = spare.of(&form).try_clone()?;
        let starved_then = spare.of(&form).try_clone()?;
        Ok(UnderWay {
            reached: root.journal().len(),
            root,
            parsed,
            form,
            changes: asked.changes,
            answer: asked.answer,
            made: 0,
            starved,
            starved_then,
        })
    }

    // Asks for its next change, where one is left.
    pub(crate) fn next(&mut self, alloc: Global) -> Result<Option<Change>, NoMemory>
        requires { IsBetween self.old }
        ensures { GoesOnWith self.old self.new result }
    {
        match self.changes.pop() {
            Some(change) => {
                self.starved_then = self.form.starved(alloc, self.made + 1)?;
                Ok(Some(change))
            }
            None => Ok(None),
        }
    }

    // The change that it asked for was made, at this place.
    pub(crate) fn make(&mut self, place: u64)
        requires waiting { IsWaiting self.old }
        requires reached { self.old.reached ≤ place }
        requires below { place < 2 ^ 64 - 1 }
        ensures between { IsBetween self.new }
        ensures made { seen self.new ≡ made_at (seen self.old) place }
    {
        self.made += 1;
        self.reached = place + 1;
        mem::swap(&mut self.starved, &mut self.starved_then);
    }

    // The reply where the change that it asked for is refused.
    pub(crate) fn refused(&self, alloc: Global, fault: Fault) -> Result<Bytes, NoMemory>
        requires waiting { IsWaiting self.now }
        requires text { IsUtf8 fault.name }
        ensures { IfOk result (λ text. text ≡ (meant self.now).refused self.now.made fault) }
    {
        self.form.refused(alloc, self.made, fault)
    }

    // How many of its changes were made.
    pub(crate) fn made(&self) -> u64
        ensures { result ≡ self.now.made }
    {
        self.made
    }

    // The length of the journal at which it was read.
    pub(crate) fn from(&self) -> u64
        ensures { result ≡ length (arc_value self.now.root).journal }
    {
        self.root.journal().len()
    }

    // The length of the journal just after the last of its entries.
    pub(crate) fn reached(&self) -> u64
        ensures { result ≡ self.now.reached }
    {
        self.reached
    }
}
