// reader_bench: reads a text of one shape many times over, so that a clock outside can measure it.
#![tactic(auto)]

ghost use Rattle.std.specs.Prelude.{◌≡◌, ◌<◌};

use gr_base::{Limits, NoMemory};
use gr_cmdline::{Item, Next, Reader};
use memchr::memchr;
use std::alloc::Global;
use std::process::ExitCode;
use std::{env, io};

mod text;

/// How many items and refusals a pass found, or how many line feeds.
#[derive(Drop)]
struct Count {
    items: u64,
    bad: u64,
}

fn main(rt: HostRuntime) -> io::Result<ExitCode> {
    let words: Vec<String> = env::args(&rt)?.skip(1).collect(rt.alloc())?;
    let [kind, mode, passes, piece] = words.as_slice() else {
        eprintln!(rt;
            "reader_bench: usage: reader_bench KIND memchr|reader PASSES PIECE, each piece having a byte more"
        )?;
        return Ok(ExitCode::from(2));
    };
    let Ok(passes) = passes.as_str().parse::<u32>() else {
        return Ok(ExitCode::from(2));
    };
    let Ok(piece) = piece.as_str().parse::<u32>() else {
        return Ok(ExitCode::from(2));
    };
    let text = text::text_of(rt.alloc(), kind.as_str())?;
    let mut count = Count { items: 0, bad: 0 };
    for _ in 0..passes {
        count = if mode.as_str() == "memchr" {
            lines(&text)
        } else {
            match items(rt.alloc(), &text, piece as usize + 1) {
                Ok(count) => count,
                Err(NoMemory) => return Ok(ExitCode::from(6)),
            }
        };
    }
    println!(rt; "{} {} {}", text.len(), count.items, count.bad)?;
    Ok(ExitCode::from(0))
}

/// How many line feeds stand in a text.
fn lines(text: &[u8]) -> Count {
    let mut items: u64 = 0;
    let mut rest = text;
    'lines: while let Some(at) = memchr(b'\n', rest) {
        items = items.wrapping_add(1);
        let (_, found) = rest.split_at(at);
        let [_, others @ ..] = found else {
            break;
        };
        rest = others;
    }
    Count { items, bad: 0 }
}

/// How many items and refusals a text has that is fed in pieces of this size.
fn items(alloc: Global, text: &[u8], piece: usize) -> Result<Count, NoMemory>
    requires { 0 < piece }
{
    let mut reader = Reader::new(
        alloc,
        Limits {
            records: 1,
            journal: 1,
            source: 1,
            line: 33_554_432,
        },
    );
    let mut count = Count { items: 0, bad: 0 };
    for piece in text.chunks(piece) {
        reader.feed(piece)?;
        take_items(alloc, &mut reader, &mut count)?;
    }
    reader.end();
    take_items(alloc, &mut reader, &mut count)?;
    Ok(count)
}

/// Takes each item that the reader gives now.
fn take_items(alloc: Global, reader: &mut Reader, count: &mut Count) -> Result<(), NoMemory>
    ensures { reader.new.ended ≡ reader.old.ended }
{
    'items: loop {
        match reader.next_command(alloc) {
            Next::Item(Item::Command(_)) => count.items = count.items.wrapping_add(1),
            Next::Item(Item::Bad(_)) => count.bad = count.bad.wrapping_add(1),
            Next::NeedMore | Next::End => return Ok(()),
            Next::NoMemory => return Err(NoMemory),
        }
    }
}
