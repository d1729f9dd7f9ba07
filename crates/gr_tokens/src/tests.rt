// Tokens and places of small texts, by the rules in plain words.
ghost use Rattle.std.specs.Prelude.{◌≡◌, IfOk, map};
ghost use Rattle.gr_tokens.specs.Tokens.{tokens};

use super::*;
use std::alloc::{AllocError, Global};
use std::process::Abort;
use std::test::Fail;

// The words of a text, by a loop that knows them.
fn words<'a>(alloc: Global, text: &'a str) -> Result<Vec<&'a str>, AllocError>
    ensures { IfOk result (λ all. map (λ word. word.now) all.items ≡ tokens Tokenizer.Delimit text.now) }
{
    let mut all = Vec::new(alloc);
    for word in Delimit::new(text) {
        all.push(word)?;
    }
    Ok(all)
}

// The bigrams of a text, by a loop that knows them.
fn bigrams<'a>(alloc: Global, text: &'a str) -> Result<Vec<&'a str>, AllocError>
    ensures { IfOk result (λ all. map (λ bigram. bigram.now) all.items ≡ tokens Tokenizer.Bigram text.now) }
{
    let mut all = Vec::new(alloc);
    for bigram in Bigram::new(text) {
        all.push(bigram)?;
    }
    Ok(all)
}

struct Cut {
    tokenizer: Tokenizer,
    text: &'static str,
    // each token with a `;` after it
    tokens: &'static str,
}

const CUTS: [Cut; 9] = [
    Cut {
        tokenizer: Tokenizer::Delimit,
        text: "",
        tokens: "",
    },
    Cut {
        tokenizer: Tokenizer::Delimit,
        text: "   ",
        tokens: "",
    },
    Cut {
        tokenizer: Tokenizer::Delimit,
        text: "red  blue red",
        tokens: "red;blue;red;",
    },
    Cut {
        tokenizer: Tokenizer::Delimit,
        text: " red\tblue é ",
        tokens: "red\tblue;é;",
    },
    Cut {
        tokenizer: Tokenizer::Bigram,
        text: "",
        tokens: "",
    },
    Cut {
        tokenizer: Tokenizer::Bigram,
        text: "x",
        tokens: "x;",
    },
    Cut {
        tokenizer: Tokenizer::Bigram,
        text: "  ",
        tokens: "  ; ;",
    },
    Cut {
        tokenizer: Tokenizer::Bigram,
        text: "Hello",
        tokens: "He;el;ll;lo;o;",
    },
    Cut {
        tokenizer: Tokenizer::Bigram,
        text: "aé€😀b",
        tokens: "aé;é€;€😀;😀b;b;",
    },
];

fn is_cut(alloc: Global, cut: &Cut) -> Result<bool, AllocError> {
    let all = match cut.tokenizer {
        Tokenizer::Delimit => words(alloc, cut.text)?,
        Tokenizer::Bigram => bigrams(alloc, cut.text)?,
    };
    let mut joined = String::new(alloc);
    for token in &all {
        joined.push_str(token)?;
        joined.push(';')?;
    }
    Ok(joined.as_str() == cut.tokens)
}

#[test]
fn texts_are_cut_at_spaces_or_at_each_character(rt: HostRuntime) -> Result<(), Fail> {
    for cut in &CUTS {
        assert!(rt;
            is_cut(rt.alloc(), cut)?,
            "{:?} {:?}",
            cut.tokenizer,
            cut.text
        );
    }
    Ok(())
}

// Some words, with one of so many letters after the first.
fn with_letters(alloc: Global, letters: usize) -> Result<String, AllocError> {
    let mut text = String::from_str(alloc, "first ")?;
    for _ in 0..letters {
        text.push('x')?;
    }
    text.push_str(" last")?;
    Ok(text)
}

#[test]
fn a_word_of_4097_bytes_is_dropped_and_parts_no_phrase(rt: HostRuntime) -> Result<(), Fail> {
    let kept = with_letters(rt.alloc(), 4096)?;
    let dropped = with_letters(rt.alloc(), 4097)?;
    assert_eq!(rt; Delimit::new(&kept).count(), 3);
    assert_eq!(rt; Delimit::new(&dropped).count(), 2);
    assert_eq!(rt; phrase_places(How::Words, &kept, "first last"), 0);
    assert_eq!(rt; phrase_places(How::Words, &dropped, "first last"), 1);
    assert_eq!(rt; phrase_places(How::Words, &dropped, &dropped), 1);
    Ok(())
}

struct Found {
    how: How,
    text: &'static str,
    phrase: &'static str,
    places: u32,
}

const FOUND: [Found; 17] = [
    Found {
        how: How::Chars,
        text: "aaa",
        phrase: "aa",
        places: 2,
    },
    Found {
        how: How::Chars,
        text: "aaa",
        phrase: "a",
        places: 3,
    },
    Found {
        how: How::Chars,
        text: "aaa",
        phrase: "aaaa",
        places: 0,
    },
    Found {
        how: How::Chars,
        text: "aaa",
        phrase: "",
        places: 0,
    },
    Found {
        how: How::Chars,
        text: "",
        phrase: "",
        places: 0,
    },
    Found {
        how: How::Chars,
        text: "a b a b",
        phrase: "a b",
        places: 2,
    },
    Found {
        how: How::Chars,
        text: "aé€😀é€😀",
        phrase: "é€",
        places: 2,
    },
    Found {
        how: How::Chars,
        text: "ééé",
        phrase: "éé",
        places: 2,
    },
    Found {
        how: How::Chars,
        text: "red",
        phrase: "Red",
        places: 0,
    },
    Found {
        how: How::Words,
        text: "a a a",
        phrase: "a a",
        places: 2,
    },
    Found {
        how: How::Words,
        text: "red  blue red",
        phrase: "red blue",
        places: 1,
    },
    Found {
        how: How::Words,
        text: "red  blue red",
        phrase: " red ",
        places: 2,
    },
    Found {
        how: How::Words,
        text: "red blue",
        phrase: "red blue red",
        places: 0,
    },
    Found {
        how: How::Words,
        text: "reds",
        phrase: "red",
        places: 0,
    },
    Found {
        how: How::Words,
        text: "red",
        phrase: "",
        places: 0,
    },
    Found {
        how: How::Words,
        text: "red",
        phrase: "   ",
        places: 0,
    },
    Found {
        how: How::Words,
        text: "a b a b a c",
        phrase: "a b a c",
        places: 1,
    },
];

#[test]
fn places_overlap_and_stand_one_after_the_other(rt: HostRuntime) {
    for found in &FOUND {
        let places = phrase_places(found.how, found.text, found.phrase);
        assert_eq!(rt; places, found.places, "{:?} {:?}", found.how, found.phrase);
    }
}

// Letters of a text or a phrase: one for each bit, and after each of them so many spaces.
fn letters(alloc: Global, count: u32, bits: u32, spaces: usize) -> Result<String, AllocError> {
    let mut text = String::new(alloc);
    for i in 0..count {
        text.push(if bits >> (i % 32) & 1 == 0 { 'a' } else { 'b' })?;
        for _ in 0..spaces {
            text.push(' ')?;
        }
    }
    Ok(text)
}

// At how many places of some letters others stand.
fn plain_count(text: u32, length: u32, phrase: u32, phrase_length: u32) -> u32 {
    let mut places: u32 = 0;
    for i in 0..length {
        if i.saturating_add(phrase_length) <= length
            && (text >> (i % 32)) % (1 << (phrase_length % 32)) == phrase
        {
            places = places.saturating_add(1);
        }
    }
    places
}

// The places of a phrase of so many letters, in each text of up to 10.
fn small_texts(rt: &impl Abort, alloc: Global, length: u32, bits: u32) -> Result<(), AllocError> {
    let phrase = letters(alloc, length, bits, 0)?;
    let words = letters(alloc, length, bits, 1)?;
    for text_length in 0..11u32 {
        for text_bits in 0..(1u32 << (text_length % 32)) {
            let text = letters(alloc, text_length, text_bits, 0)?;
            let plain = letters(alloc, text_length, text_bits, 1)?;
            let spaced = letters(alloc, text_length, text_bits, 2)?;
            let wanted = plain_count(text_bits, text_length, bits, length);
            assert_eq!(rt;
                phrase_places(How::Chars, &text, &phrase),
                wanted,
                "{phrase} in {text}"
            );
            assert_eq!(rt;
                phrase_places(How::Words, &plain, &words),
                wanted,
                "{phrase} in {plain}"
            );
            assert_eq!(rt;
                phrase_places(How::Words, &spaced, &words),
                wanted,
                "{phrase} in {spaced}"
            );
        }
    }
    Ok(())
}

#[test]
fn places_in_all_small_texts_of_two_letters(rt: HostRuntime) -> Result<(), Fail> {
    for length in 1..8u32 {
        for bits in 0..(1u32 << (length % 32)) {
            small_texts(&rt, rt.alloc(), length, bits)?;
        }
    }
    Ok(())
}

// The first letters of a word, each of them with so many spaces after it.
fn first_letters(
    alloc: Global,
    word: &str,
    count: usize,
    spaces: usize,
) -> Result<String, AllocError> {
    let mut text = String::new(alloc);
    for letter in word.chars().take(count) {
        text.push(letter)?;
        for _ in 0..spaces {
            text.push(' ')?;
        }
    }
    Ok(text)
}

// The places of the first half of 100,000 letters in all of them.
fn half_in_whole(
    rt: &impl Abort,
    alloc: Global,
    word: &str,
    wanted: u32,
) -> Result<(), AllocError> {
    let text = first_letters(alloc, word, 100_000, 0)?;
    let half = first_letters(alloc, word, 50_000, 0)?;
    assert_eq!(rt; phrase_places(How::Chars, &text, &half), wanted);
    let text = first_letters(alloc, word, 100_000, 1)?;
    let plain = first_letters(alloc, word, 50_000, 1)?;
    assert_eq!(rt; phrase_places(How::Words, &text, &plain), wanted);
    let half = first_letters(alloc, word, 50_000, 2)?;
    assert_eq!(rt; phrase_places(How::Words, &text, &half), wanted);
    Ok(())
}

// From a and b on, each of these words is the one before, and the one before that.
fn fibonacci(alloc: Global) -> Result<String, AllocError> {
    let mut before = String::from_str(alloc, "b")?;
    let mut word = String::from_str(alloc, "a")?;
    for _ in 0..25 {
        let mut next = String::from_str(alloc, &word)?;
        next.push_str(&before)?;
        before = word;
        word = next;
    }
    Ok(word)
}

// Letters of a register of 24 bits with feedback: no 24 of them come twice.
fn de_bruijn(alloc: Global) -> Result<String, AllocError> {
    let mut letters = String::new(alloc);
    let mut register = 1u32;
    for _ in 0..100_000 {
        letters.push(if register & 1 == 0 { 'a' } else { 'b' })?;
        let bit = (register ^ (register >> 1) ^ (register >> 2) ^ (register >> 7)) & 1;
        register = (register >> 1) | (bit << 23);
    }
    Ok(letters)
}

#[test]
fn half_of_a_long_text_is_found_at_once(rt: HostRuntime) -> Result<(), Fail> {
    let alloc = rt.alloc();
    let mut one_letter = String::new(alloc);
    for _ in 0..100_000 {
        one_letter.push('a')?;
    }
    half_in_whole(&rt, alloc, &one_letter, 50_001)?;
    half_in_whole(&rt, alloc, &fibonacci(alloc)?, 2)?;
    half_in_whole(&rt, alloc, &de_bruijn(alloc)?, 1)?;
    Ok(())
}
