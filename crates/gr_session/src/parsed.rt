// An item whose texts were read.
ghost use Rattle.std.specs.Prelude.{◌≡◌, IfOk};
ghost use Rattle.gr_select.specs.Texts.{AreMade};
ghost use Rattle.gr_session.specs.Parsed.{IsRead};

use gr_base::NoMemory;
use gr_cmdline::Item;
use gr_select::{Texts, texts_of};
use std::alloc::Global;

/// A command or a refused line, with what its texts are read as.
#[derive(Drop)]
pub struct Parsed {
    /// The command or the refused line.
    pub item: Item,
    /// What its texts are read as.
    pub texts: Texts,
}

impl Parsed {
    // Reads the texts of an item.
    pub(crate) fn of(alloc: Global, item: Item) -> Result<Parsed, NoMemory>
        ensures item { IfOk result (λ parsed. parsed.item ≡ item) }
        ensures read { IfOk result (λ parsed. IsRead parsed.item parsed.texts) }
        ensures made { IfOk result (λ parsed. AreMade parsed.texts) }
    {
        let texts = texts_in(alloc, &item)?;
        Ok(Parsed { item, texts })
    }
}

fn texts_in(alloc: Global, item: &Item) -> Result<Texts, NoMemory>
    ensures read { IfOk result (IsRead item.now) }
    ensures made { IfOk result AreMade }
{
    match item {
        Item::Command(command) => texts_of(alloc, &command.args),
        Item::Bad(_) => Ok(Texts {
            columns: None,
            query: None,
            filter: None,
        }),
    }
}
