// The lines that replies are made of.
ghost use Rattle.std.specs.Prelude.{◌≡◌, ◌++◌, ◌∷◌, IfOk, IsUtf8, OnOk, [], codes};
ghost use Rattle.std.specs.Fmt.{decimal};
ghost use Rattle.json.specs.Print.{quoted};
ghost use Rattle.gr_session.specs.Inside.Body.{body_text};
ghost use Rattle.gr_values.specs.Shown.{bracketed};
ghost use Rattle.gr_session.specs.ReplyText.{refusal_line, success_line, want_of_memory_line};

use gr_base::{Bytes, Fault, NoMemory, fault_text};
use itoa::Buffer;
use json::Writer;
use std::alloc::Global;

// Bytes of a line beyond the text of its fault: brackets, commas and quotes, a code of two digits and a number of twenty.
const FRAME: usize = 34;

// The body of a reply.
#[derive(Clone, Copy)]
pub(crate) enum Body {
    True,
    False,
    // How many rows were entered.
    Rows(u64),
}

// The reply to a command that was done.
pub(crate) fn success(alloc: Global, body: Body) -> Result<Bytes, NoMemory>
    ensures { IfOk result (λ text. text ≡ success_line (body_text body)) }
{
    let line = begun(alloc, FRAME, b"[[0],")?;
    ended(alloc, line, body)
}

// The reply to a select with this body.
pub(crate) fn success_with(alloc: Global, body: &Bytes) -> Result<Bytes, NoMemory>
    ensures { IfOk result (λ text. text ≡ success_line body.now) }
{
    let room = body.as_slice().len().saturating_add(FRAME);
    let mut line = begun(alloc, room, b"[[0],")?;
    line.extend_from_slice(body.as_slice())?;
    line.extend_from_slice(b"]\n")?;
    Bytes::from_vec(alloc, line)
}

// The reply to a command for which no memory was found.
pub(crate) fn want_of_memory(alloc: Global, body: Body) -> Result<Bytes, NoMemory>
    ensures { IfOk result (λ text. text ≡ want_of_memory_line (body_text body)) }
{
    let line = begun(alloc, FRAME, b"[[36,\"NoMemory\"],")?;
    ended(alloc, line, body)
}

// The reply to a command that was refused.
pub(crate) fn refusal(alloc: Global, fault: &Fault, body: Body) -> Result<Bytes, NoMemory>
    requires { IsUtf8 fault.now.name }
    ensures { IfOk result (λ text. text ≡ refusal_line fault.now (body_text body)) }
{
    let text = fault_text(alloc, fault)?;
    let room = text.as_slice().len().saturating_add(FRAME);
    let mut line = begun(alloc, room, b"[[")?;
    push_number(&mut line, u64::from(fault.kind.code()))?;
    line.extend_from_slice(b",")?;
    let mut line = with_quoted(line, text.as_text())?;
    line.extend_from_slice(b"],")?;
    ended(alloc, line, body)
}

// A line that begins so, with room for what follows.
fn begun(alloc: Global, room: usize, start: &[u8]) -> Result<Vec<u8>, NoMemory>
    ensures { IfOk result (λ line. line.items ≡ start.now) }
{
    let mut line = Vec::with_capacity(alloc, room)?;
    line.extend_from_slice(start)?;
    Ok(line)
}

// A line with its body and its end.
fn ended(alloc: Global, mut line: Vec<u8>, body: Body) -> Result<Bytes, NoMemory>
    ensures { IfOk result (λ text. text ≡ line.items ++ (body_text body ++ codes "]\n")) }
{
    push_body(&mut line, body)?;
    line.extend_from_slice(b"]\n")?;
    Bytes::from_vec(alloc, line)
}

fn push_body(line: &mut Vec<u8>, body: Body) -> Result<(), NoMemory>
    ensures { OnOk result (line.new.items ≡ line.old.items ++ body_text body) }
{
    match body {
        Body::True => line.extend_from_slice(b"true")?,
        Body::False => line.extend_from_slice(b"false")?,
        Body::Rows(rows) => push_number(line, rows)?,
    }
    Ok(())
}

// A number in decimal digits.
pub(crate) fn push_number(line: &mut Vec<u8>, number: u64) -> Result<(), NoMemory>
    ensures { OnOk result (line.new.items ≡ line.old.items ++ decimal number) }
{
    let mut buffer = Buffer::new();
    line.extend_from_slice(buffer.format(number).as_bytes())?;
    Ok(())
}

// A line with a text as a JSON string at its end.
pub(crate) fn with_quoted(line: Vec<u8>, text: &str) -> Result<Vec<u8>, NoMemory>
    ensures { IfOk result (λ longer. longer.items ≡ line.items ++ quoted text.now) }
{
    let mut writer = Writer::new(line);
    writer.string(text)?;
    Ok(writer.into_inner())
}
