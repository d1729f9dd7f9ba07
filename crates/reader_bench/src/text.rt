// The texts that are measured.
use std::alloc::{AllocError, Global};

/// A text of the shape of this name.
pub(crate) fn text_of(alloc: Global, kind: &str) -> Result<Vec<u8>, AllocError> {
    let (first, line, last): (&[u8], &[u8], &[u8]) = match kind {
        "lines" => (
            b"",
            b"select Site --query title:@test --output_columns _key,_score -x\n",
            b"",
        ),
        "short" => (
            b"",
            b"select Site --query title:@test --output_columns _key,_score aa\n",
            b"",
        ),
        "comments" => (
            b"",
            b"# a line of 64 bytes that is a comment, and so gives no item xx\n",
            b"",
        ),
        "load" => (
            b"load --table Site\n[\n",
            b"{\"_key\":\"http://example.org/\",\"title\":\"This is test record 1! And so..\"},\n",
            b"]\n",
        ),
        "long" => (b"select Site --filter ", b"abcdefghijklmnop", b"\n"),
        "quoted" => (b"select Site --filter \"", b"abcdefgh abcdefg", b"\"\n"),
        "escapes" => (
            b"select Site --filter \"",
            b"\\\"\\\\\\n\\t\\x\\\"\\\\\\n",
            b"\"\n",
        ),
        "percents" => (
            b"/d/select?table=Site&filter=",
            b"%41%42%20%e3%81%82",
            b"\n",
        ),
        "words" => (b"select ", b"x x x x x x x x ", b"\n"),
        "pairs" => (b"/d/select?", b"a&a&a&a&a&a&a&a&", b"\n"),
        _ => (b"", b"\n", b""),
    };
    let copies = match kind {
        "long" | "quoted" | "escapes" | "percents" => 65_536,
        "words" | "pairs" => 1_048_576,
        _ => 262_144,
    };
    let mut text = Vec::new(alloc);
    text.extend_from_slice(first)?;
    for _ in 0..copies {
        text.extend_from_slice(line)?;
    }
    text.extend_from_slice(last)?;
    Ok(text)
}
