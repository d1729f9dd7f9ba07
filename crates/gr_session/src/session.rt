// A session: one file's commands, run in order.
ghost use Rattle.std.specs.Prelude.{◌≡◌, ◌+◌, ◌≤◌, ◌<◌, ◌^◌, ◌-◌, false, None, Some, length, IfOk, IfSome, IsSome, IsUtf8, true};
ghost use Rattle.std.specs.Option.{ForSome};
ghost use Rattle.std.specs.Arc.{arc_value};
ghost use Rattle.gr_cmdline.specs.Commands.{IsItem};
ghost use Rattle.gr_session.specs.Entries.{entry_of};
ghost use Rattle.gr_session.specs.Inside.Kept.{IsBetween, IsWaiting, seen};
ghost use Rattle.gr_session.specs.Inside.Stepping.{IsFinished, Proceeds, Stops, taken_up};
ghost use Rattle.gr_session.specs.Meaning.{body_after, counts};
ghost use Rattle.gr_session.specs.declared.form.Form.{Form};
ghost use Rattle.gr_session.specs.ReplyText.{want_of_memory_line};
ghost use Rattle.gr_session.specs.Step.{AnswersText, BeginsWith, GoesOn, IsCounted, answered_at, going_on, gone_on, opened_at, begun};
ghost use Rattle.gr_session.specs.declared.session.Step.TheVariants.{Publish};

use crate::form::counts_rows;
use crate::under_way::{Spare, UnderWay};
use gr_base::{Bytes, Fault, Limits, NoMemory, SessionNo};
use gr_cmdline::Item;
use gr_db::{Change, Entry};
use gr_publish::Published;
use gr_root::Root;
use std::alloc::Global;
use std::marker::Model;
use std::sync::Arc;

/// One command's reply, and the lengths of the journal between which it stands.
#[derive(Drop)]
pub struct Done {
    /// The length of the journal against which the command was read.
    pub from: u64,
    /// The length just after the command's last own entry, or at which it was refused, or `from`.
    pub mark: u64,
    /// The reply, with its line feed.
    pub text: Bytes,
}

/// What a session asks of whoever runs it.
#[derive(Drop)]
pub enum Step {
    /// This entry is to be published, and the session told what came of it.
    Publish(Entry),
    /// The command is done.
    Done(Done),
}

/// A session, which contracts see as where it stands.
#[derive(Drop)]
pub struct Session {
    limits: Limits,
    number: SessionNo,
    command: u64,
    mark: u64,
    // Until one of them is given, with which the session ends.
    spare: Option<Spare>,
    going: Option<UnderWay>,
}

impl Model for Session {
    ghost use Rattle.gr_ast.specs.contracts.ast.Ast as ast;
    ghost use Rattle.gr_db.specs.contracts.shared_expr.SharedExpr as shared;
    ghost use Rattle.std.specs.Coded.{codes};
    ghost use Rattle.std.specs.Prelude.{is_none};
    ghost use Rattle.std.specs.Option.{option_map};
    ghost use Rattle.gr_session.specs.Inside.Kept.{seen};
    ghost use Rattle.gr_session.specs.Inside.Stepping.{IsReady};
    ghost use Rattle.gr_session.specs.Step.{Standing};

    ghost Value = { Standing };

    ghost coded = { Prim.hlevel (codes, ast.the_row.coded, shared.the_row.coded) };

    ghost view = { λ s. record {
      limits = s.limits;
      session = s.number.0;
      command = s.command;
      mark = s.mark;
      ended = is_none s.spare;
      going = option_map (λ command. seen command) s.going;
    } };

    ghost invariant = { IsReady };
}

impl Session {
    /// A session that opens where the journal has `opened` entries. It takes the room for its last reply here.
    pub fn open(
        alloc: Global,
        number: SessionNo,
        limits: Limits,
        opened: u64,
    ) -> Result<Session, NoMemory>
        ensures { IfOk result (λ session. session ≡ opened_at limits number.0 opened) }
    {
        Ok(Session {
            limits,
            number,
            command: 0,
            mark: opened,
            spare: Some(Spare::new(alloc)?),
            going: None,
        })
    }

    /// Whether it met want of memory, after which it runs no command.
    pub fn ended(&self) -> bool
        ensures { result ≡ self.now.ended }
    {
        self.spare.is_none()
    }

    /// Begins a command, which is read at this state, or refuses a line.
    pub fn begin(&mut self, alloc: Global, root: &Arc<Root>, item: Item) -> Step
        requires item { IsItem item }
        requires running { self.old.ended ≡ false }
        requires idle { self.old.going ≡ None }
        requires countable { self.old.command < 2 ^ 64 - 1 }
        requires behind { self.old.mark ≤ length (arc_value root.now).journal }
        ensures { BeginsWith self.old self.new (arc_value root.now) item result }
    {
        let at = root.journal().len();
        let rows = counts_rows(&item);
        match self.read(alloc, root, item) {
            Ok(command) => self.go_on(alloc, command),
            Err(NoMemory) => {
                let text = self.take_spare(rows);
                self.finish(at, at, text)
            }
        }
    }

    /// Goes on with the command under way, of which an entry was published or not.
    pub fn answered(&mut self, alloc: Global, answer: Published) -> Step
        requires running { self.old.ended ≡ false }
        requires going { IsSome self.old.going }
        requires reached { ForSome self.old.going (λ going. going.reached ≤ answered_at answer) }
        requires below { IsCounted answer }
        requires text { AnswersText answer }
        ensures { IfSome self.old.going (λ going. GoesOn self.old self.new going answer result) }
    {
        let mut command = self.take_up();
        match answer {
            Published::Published { place } => {
                command.make(place);
                self.go_on(alloc, command)
            }
            Published::Refused { fault, mark } => self.stop(alloc, command, fault, mark),
            Published::NoMemory { mark } => self.starve(command, mark),
        }
    }

    // Reads an item at a state.
    fn read(&self, alloc: Global, root: &Arc<Root>, item: Item) -> Result<UnderWay, NoMemory>
        requires item { IsItem item }
        requires running { self.now.ended ≡ false }
        ensures between { IfOk result IsBetween }
        ensures begun { IfOk result (λ command. seen command ≡ begun (arc_value root.now) command.parsed) }
        ensures item { IfOk result (λ command. command.parsed.item ≡ item) }
    {
        match &self.spare {
            Some(spare) => UnderWay::begin(alloc, root, item, spare),
            None => unreachable!(),
        }
    }

    // Takes the command under way up, to go on with it.
    fn take_up(&mut self) -> UnderWay
        requires { IsSome self.old.going }
        ensures waiting { IsWaiting result }
        ensures was { self.old.going ≡ Some (seen result) }
        ensures countable { self.old.command < 2 ^ 64 - 1 }
        ensures now { self.new ≡ taken_up self.old }
    {
        match self.going.take() {
            Some(command) => command,
            None => unreachable!(),
        }
    }

    // Asks for a command's next entry, or ends the command.
    fn go_on(&mut self, alloc: Global, command: UnderWay) -> Step
        requires between { IsBetween command }
        requires running { self.old.ended ≡ false }
        requires idle { self.old.going ≡ None }
        requires countable { self.old.command < 2 ^ 64 - 1 }
        ensures { Proceeds self.old self.new (seen command) result }
    {
        let mut command = command;
        let (from, mark) = (command.from(), command.reached());
        match command.next(alloc) {
            Ok(Some(change)) => self.ask(command, change),
            Ok(None) => self.finish(from, mark, command.answer),
            Err(NoMemory) => self.starve(command, mark),
        }
    }

    // Asks for an entry with this change.
    fn ask(&mut self, command: UnderWay, change: Change) -> Step
        requires waiting { IsWaiting command }
        requires countable { self.old.command < 2 ^ 64 - 1 }
        ensures asks { result ≡ Publish (entry_of self.old.session self.old.command command.made change) }
        ensures waits { self.new ≡ going_on self.old (seen command) }
    {
        let entry = Entry {
            session: self.number,
            command: self.command,
            part: command.made(),
            change,
        };
        self.going = Some(command);
        Step::Publish(entry)
    }

    // Ends a command of which an entry was refused.
    fn stop(&mut self, alloc: Global, command: UnderWay, fault: Fault, mark: u64) -> Step
        requires waiting { IsWaiting command }
        requires text { IsUtf8 fault.name }
        requires running { self.old.ended ≡ false }
        requires idle { self.old.going ≡ None }
        requires countable { self.old.command < 2 ^ 64 - 1 }
        requires reached { command.reached ≤ mark }
        ensures { Stops self.old self.new (seen command) fault mark result }
    {
        match command.refused(alloc, fault) {
            Ok(text) => self.finish(command.from(), mark, text),
            Err(NoMemory) => self.starve(command, mark),
        }
    }

    // Ends a command, and the session, for want of memory.
    fn starve(&mut self, command: UnderWay, mark: u64) -> Step
        requires idle { self.old.going ≡ None }
        requires countable { self.old.command < 2 ^ 64 - 1 }
        ensures { IsFinished self.new (gone_on self.old mark true) (length (arc_value command.root).journal) mark command.starved result }
    {
        self.end();
        self.finish(command.from(), mark, command.starved)
    }

    // Ends the session.
    fn end(&mut self)
        ensures { self.new ≡ record self.old { ended = true } }
    {
        self.spare = None;
    }

    // Ends a command with this reply.
    fn finish(&mut self, from: u64, mark: u64, text: Bytes) -> Step
        requires idle { self.old.going ≡ None }
        requires countable { self.old.command < 2 ^ 64 - 1 }
        ensures { IsFinished self.new (gone_on self.old mark self.old.ended) from mark text result }
    {
        self.command += 1;
        self.mark = mark;
        Step::Done(Done { from, mark, text })
    }

    // Gives the reply to want of memory where nothing was made, with which the session ends.
    fn take_spare(&mut self, rows: bool) -> Bytes
        requires { self.old.ended ≡ false }
        ensures text { (form : Form) → counts form ≡ rows → result ≡ want_of_memory_line (body_after form 0) }
        ensures ended { self.new ≡ record self.old { ended = true } }
    {
        match self.spare.take() {
            Some(spare) => spare.take(rows),
            None => unreachable!(),
        }
    }
}
