// What an item asks for, and what it answers.
ghost use Rattle.std.specs.Prelude.{◌≡◌, ◌∷◌, IfOk, IsUtf8, [], codes};
ghost use Rattle.gr_db.specs.Db.{Db};
ghost use Rattle.gr_session.specs.Inside.Kept.{Asks, Fits};
ghost use Rattle.gr_session.specs.Meaning.{counts, meaning_in, refused_in};
ghost use Rattle.gr_session.specs.ReplyText.{success_line};
ghost use Rattle.gr_session.specs.declared.form.Form.{Form};

use crate::form::Form;
use crate::reply::{Body, success};
use gr_base::{Bytes, Fault, NoMemory};
use gr_db::Change;
use std::alloc::Global;

// What an item asks for, read at a state.
#[derive(Drop)]
pub(crate) struct Asked {
    // The changes, the first one last.
    pub(crate) changes: Vec<Change>,
    // What it answers once all of them are made.
    pub(crate) answer: Bytes,
}

// An item that asks for nothing.
pub(crate) fn nothing(alloc: Global, answer: Bytes) -> Asked
    ensures changes { result.changes.items ≡ [] }
    ensures answer { result.answer ≡ answer }
{
    Asked {
        changes: Vec::new(alloc),
        answer,
    }
}

// An item that asks for one change, and answers true.
pub(crate) fn one_change(alloc: Global, change: Change) -> Result<Asked, NoMemory>
    ensures { (db : Db) (form : Form) → Fits db change → IfOk result (λ asked. Asks db (meaning_in form (change ∷ []) (success_line (codes "true"))) asked) }
{
    let mut changes = Vec::new(alloc);
    changes.push(change)?;
    let answer = success(alloc, Body::True)?;
    Ok(Asked { changes, answer })
}

// An item that is refused as it is read.
pub(crate) fn refused(alloc: Global, form: &Form, fault: &Fault) -> Result<Asked, NoMemory>
    requires { IsUtf8 fault.now.name }
    ensures { (db : Db) (same : Form) → counts same ≡ counts form.now → IfOk result (λ asked. Asks db (refused_in same fault.now) asked) }
{
    Ok(nothing(alloc, form.refused_as_read(alloc, fault)?))
}
