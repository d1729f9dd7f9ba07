// The parts of a script that are begun and not finished, the last one on top, and the levels that are left.
ghost use Rattle.std.specs.Prelude.{◌≡◌, ◌+◌, ◌<◌, ◌≤◌, ◌⊎◌, suc, [], ◌∷◌, reverse, MatchOption, IfNone, IfSome, OnOk, OnErr, Err};
ghost use Rattle.std.specs.Option.{option_copied};
ghost use Rattle.std.specs.List.{sum_by};
ghost use Rattle.gr_base.specs.declared.limits.TheConstants.{MOST_LEVELS as most_levels};
ghost use Rattle.gr_script.specs.Precedence.{rank};
ghost use Rattle.gr_script.specs.Inside.Machine.{TopIs, IsCall, IsCalculation, IsChain, argued, combined, hold, level, linked, on_top, released, top, top_hold};

use crate::frame::Frame;
use crate::precedence::Precedence;
use gr_ast::{Arith, Ast, Join};
use gr_base::{MOST_LEVELS, NoMemory};
use gr_text::Stop;
use std::alloc::Global;

/// The begun parts of a script. At most `MOST_LEVELS` levels are open.
#[derive(Drop)]
pub(crate) struct Stack {
    pub(crate) frames: Vec<Frame>,
    pub(crate) left: u64,
    ghost counted: { left + sum_by level frames.items ≡ most_levels },
}

impl Stack {
    /// No part is begun.
    pub(crate) fn new(alloc: Global) -> Stack
        ensures frames { result.frames.items ≡ [] }
        ensures left { result.left ≡ most_levels }
    {
        Stack {
            frames: Vec::new(alloc),
            left: MOST_LEVELS,
        }
    }

    /// Begins a part that opens no level.
    pub(crate) fn begin(&mut self, frame: Frame) -> Result<(), NoMemory>
        requires { level frame ≡ 0 }
        ensures frames { OnOk result (reverse self.new.frames.items ≡ frame ∷ reverse self.old.frames.items) }
        ensures left { OnOk result (self.new.left ≡ self.old.left) }
    {
        self.frames.push(frame)?;
        Ok(())
    }

    /// Begins a part that opens a level.
    pub(crate) fn open(&mut self, frame: Frame) -> Result<(), Stop>
        requires { level frame ≡ 1 }
        ensures frames { OnOk result (reverse self.new.frames.items ≡ frame ∷ reverse self.old.frames.items) }
        ensures left { OnOk result (self.old.left ≡ suc self.new.left) }
        ensures deep { OnErr result ((result ≡ Err Stop.NoMemory) ⊎ ((result ≡ Err Stop.Deep) × (self.old.left ≡ 0))) }
    {
        if self.left == 0 {
            return Err(Stop::Deep);
        }
        self.frames.push(frame)?;
        self.left -= 1;
        Ok(())
    }

    /// The last begun part, taken off.
    pub(crate) fn pop(&mut self) -> Option<Frame>
        ensures frames { MatchOption result ((self.new.frames.items ≡ []) × (self.old.frames.items ≡ [])) (λ frame. reverse self.old.frames.items ≡ frame ∷ reverse self.new.frames.items) }
        ensures left { MatchOption result (self.new.left ≡ self.old.left) (λ frame. self.new.left ≡ released frame self.old.left) }
    {
        let frame = self.frames.pop()?;
        self.left += frame.level();
        Some(frame)
    }

    /// The last begun part, taken off if it binds more tightly than this.
    pub(crate) fn pop_over(&mut self, pulled: Precedence) -> Option<Frame>
        ensures kept { IfNone result ((self.new.frames.items ≡ self.old.frames.items) × (self.new.left ≡ self.old.left) × (top_hold (reverse self.old.frames.items) ≤ rank pulled)) }
        ensures frames { IfSome result (λ frame. reverse self.old.frames.items ≡ frame ∷ reverse self.new.frames.items) }
        ensures left { IfSome result (λ frame. self.new.left ≡ released frame self.old.left) }
        ensures tighter { IfSome result (λ frame. rank pulled < hold frame) }
    {
        if self.top_hold().is_tighter(pulled) {
            self.pop()
        } else {
            None
        }
    }

    /// How tightly the last begun part binds.
    fn top_hold(&self) -> Precedence
        ensures { rank result ≡ top_hold (reverse self.now.frames.items) }
    {
        match self.last() {
            Some(frame) => frame.hold(),
            None => Precedence::Bracket,
        }
    }

    /// The last begun part.
    pub(crate) fn last(&self) -> Option<&Frame>
        ensures { option_copied result ≡ top (reverse self.now.frames.items) }
    {
        self.frames.as_slice().last()
    }

    /// One more condition of the chain that was begun last, with the sign behind it.
    pub(crate) fn link(&mut self, join: Join, tree: Ast) -> Result<(), NoMemory>
        requires { TopIs IsChain (reverse self.old.frames.items) }
        ensures frames { OnOk result (reverse self.new.frames.items ≡ on_top (linked join tree) (reverse self.old.frames.items)) }
        ensures left { self.new.left ≡ self.old.left }
    {
        match self.frames.last_mut() {
            Some(frame) => frame.link(join, tree),
            None => unreachable!(),
        }
    }

    /// One more number of the calculation that was begun last, with the sign behind it.
    pub(crate) fn combine(&mut self, arith: Arith, tree: Ast) -> Result<(), NoMemory>
        requires { TopIs IsCalculation (reverse self.old.frames.items) }
        ensures frames { OnOk result (reverse self.new.frames.items ≡ on_top (combined arith tree) (reverse self.old.frames.items)) }
        ensures left { self.new.left ≡ self.old.left }
    {
        match self.frames.last_mut() {
            Some(frame) => frame.combine(arith, tree),
            None => unreachable!(),
        }
    }

    /// One more argument of the call that was begun last.
    pub(crate) fn argue(&mut self, tree: Ast) -> Result<(), NoMemory>
        requires { TopIs IsCall (reverse self.old.frames.items) }
        ensures frames { OnOk result (reverse self.new.frames.items ≡ on_top (argued tree) (reverse self.old.frames.items)) }
        ensures left { self.new.left ≡ self.old.left }
    {
        match self.frames.last_mut() {
            Some(frame) => frame.argue(tree),
            None => unreachable!(),
        }
    }
}
