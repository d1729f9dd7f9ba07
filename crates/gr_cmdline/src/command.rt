// Commands, the items of a stream, and what a reader of them answers.
use super::{Args, Verb};
use gr_base::Fault;

/// What a line asks for.
#[derive(Drop)]
pub struct Command {
    /// What the command does.
    pub verb: Verb,
    /// What is given to it.
    pub args: Args,
}

/// What a line of a stream gives, or a load with its data.
#[derive(Drop)]
pub enum Item {
    /// A command.
    Command(Command),
    /// A line that is refused.
    Bad(Fault),
}

/// What a reader answers when it is asked for the next item.
#[derive(Drop)]
pub enum Next {
    /// The next item.
    Item(Item),
    /// No item stands whole in the bytes so far, and more can come.
    NeedMore,
    /// The text has ended, and no item is left.
    End,
    /// No memory was found; no item was taken.
    NoMemory,
}
