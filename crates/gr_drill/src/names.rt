// Names that a text lists.
ghost use Rattle.std.specs.Prelude.{◌≡◌, ◌++◌, ◌==◌, ◌∷◌, [], filter, length, map, not, IfOk, OnOk};
ghost use Rattle.gr_print.specs.Columns.{listed};

use gr_base::NoMemory;
use gr_print::trimmed;
use std::alloc::Global;

/// The names that a text lists, with commas between them. White space around a name is no part of it, and empty names are dropped.
pub(crate) fn listed<'a>(alloc: Global, text: &'a str) -> Result<Vec<&'a str>, NoMemory>
    ensures { IfOk result (λ names. map (λ name. name.now) names.items ≡ listed text.now) }
{
    let mut names = Vec::new(alloc);
    for item in text.split(',') {
        push_name(&mut names, trimmed(item))?;
    }
    Ok(names)
}

// Adds a name that is not empty.
fn push_name<'a>(names: &mut Vec<&'a str>, name: &'a str) -> Result<(), NoMemory>
    ensures { OnOk result (map (λ name. name.now) names.new.items ≡ map (λ name. name.now) names.old.items ++ filter (λ name. not (length name == 0)) (name.now ∷ [])) }
{
    if !name.is_empty() {
        names.push(name)?;
    }
    Ok(())
}
