// The cases: which phrase is counted in which text, and how.
use super::texts;
use super::timed::{Failed, Taken, nanos, told};
use gr_tokens::{Delimit, How, phrase_places};
use memchr::memmem;
use std::alloc::{AllocError, Global};
use std::io::Print;
use std::time::CpuClock;

// A phrase that is counted in a text.
#[derive(Drop)]
struct Case<'a> {
    how: How,
    name: &'a str,
    text: &'a str,
    phrase: &'a str,
    // how often it is counted
    rounds: u64,
}

// The places of some items in others, each compared.
fn plain_count<T: PartialEq>(text: &[T], phrase: &[T]) -> u32 {
    let mut places: u32 = 0;
    if phrase.is_empty() {
        return 0;
    }
    for i in 0..text.len() {
        if text[i..].starts_with(phrase) {
            places = places.saturating_add(1);
        }
    }
    places
}

fn words<'a>(alloc: Global, text: &'a str) -> Result<Vec<&'a str>, AllocError> {
    let mut all = Vec::new(alloc);
    for word in Delimit::new(text) {
        all.push(word)?;
    }
    Ok(all)
}

// Whether the count of a case is the plain one.
fn is_counted(alloc: Global, case: &Case<'_>) -> Result<bool, AllocError> {
    let wanted = match case.how {
        How::Chars => plain_count(case.text.as_bytes(), case.phrase.as_bytes()),
        How::Words => {
            let text = words(alloc, case.text)?;
            let phrase = words(alloc, case.phrase)?;
            plain_count(text.as_slice(), phrase.as_slice())
        }
    };
    Ok(phrase_places(case.how, case.text, case.phrase) == wanted)
}

fn memmem_passes(case: &Case<'_>) -> u64 {
    let mut found = 0u64;
    for _ in 0..case.rounds {
        found = found.wrapping_add(
            memmem::find_iter(case.text.as_bytes(), case.phrase.as_bytes()).count() as u64,
        );
    }
    found
}

fn our_passes(case: &Case<'_>) -> u32 {
    let mut places = 0u32;
    for _ in 0..case.rounds {
        places = phrase_places(case.how, case.text, case.phrase);
    }
    places
}

fn measured<R: CpuClock + Print>(
    rt: &R,
    alloc: Global,
    case: &Case<'_>,
    timed: bool,
) -> Result<(), Failed> {
    if !timed {
        let same = is_counted(alloc, case)?;
        println!(rt; "{:?} {}: as a plain count {same}", case.how, case.name)?;
        return Ok(());
    }
    let start = rt.thread_cpu_time()?;
    let found = memmem_passes(case);
    let plain = nanos(rt, &start)?;
    let start = rt.thread_cpu_time()?;
    let places = our_passes(case);
    let ours = nanos(rt, &start)?;
    if found == u64::MAX {
        println!(rt; "{found}")?;
    }
    let taken = Taken {
        bytes: case.text.len() as u64,
        rounds: case.rounds,
        plain,
        ours,
    };
    told(rt, case.how, case.name, places, &taken)
}

// A phrase of the first half of some letters, by characters and by words.
fn halves<R: CpuClock + Print>(
    rt: &R,
    alloc: Global,
    name: &str,
    letters: &[u8],
    timed: bool,
) -> Result<(), Failed> {
    let (half, _) = letters.split_at(letters.len() / 2);
    let case = Case {
        how: How::Chars,
        name,
        text: str::from_utf8(letters)?,
        phrase: str::from_utf8(half)?,
        rounds: 1,
    };
    measured(rt, alloc, &case, timed)?;
    let spaced = texts::spaced(alloc, half)?;
    let phrase = texts::spaced(alloc, half.split_at(half.len() / 2).0)?;
    let case = Case {
        how: How::Words,
        name,
        text: str::from_utf8(spaced.as_slice())?,
        phrase: str::from_utf8(phrase.as_slice())?,
        rounds: 1,
    };
    measured(rt, alloc, &case, timed)
}

const PHRASES: [(&str, &str); 6] = [
    ("rare", "columns of the journal"),
    (
        "rare, with words of the text",
        "index index phrase phrase index",
    ),
    (
        "rare, with a frequent first word",
        "the columns of the journal",
    ),
    ("frequent", "the"),
    ("frequent, of two words", "of the"),
    ("frequent letter", "e"),
];

fn in_prose<R: CpuClock + Print>(
    rt: &R,
    alloc: Global,
    size: usize,
    timed: bool,
) -> Result<(), Failed> {
    let prose = texts::prose(alloc, size)?;
    let text = str::from_utf8(prose.as_slice())?;
    for (name, phrase) in &PHRASES {
        for how in [How::Chars, How::Words] {
            let case = Case {
                how,
                name,
                text,
                phrase,
                rounds: 5,
            };
            measured(rt, alloc, &case, timed)?;
        }
    }
    Ok(())
}

/// All cases over texts of so many bytes.
pub fn all<R: CpuClock + Print>(
    rt: &R,
    alloc: Global,
    size: usize,
    timed: bool,
) -> Result<(), Failed> {
    in_prose(rt, alloc, size, timed)?;
    halves(
        rt,
        alloc,
        "one letter",
        texts::one_letter(alloc, size)?.as_slice(),
        timed,
    )?;
    halves(
        rt,
        alloc,
        "Fibonacci",
        texts::fibonacci(alloc, size)?.as_slice(),
        timed,
    )?;
    halves(
        rt,
        alloc,
        "de Bruijn",
        texts::de_bruijn(alloc, size)?.as_slice(),
        timed,
    )
}
