// Cutting a text of bytes.
ghost use Rattle.jobs.specs.Bytes.{Keyed, Lacks, Split, Unkeyed};
ghost use Rattle.std.specs.Option.{MatchOption};

// What stands before and after the first byte `at`.
pub fn split(text: &[u8], at: u8) -> Option<(&[u8], &[u8])>
    ensures { MatchOption result (Lacks at text.now) (λ p. Split at text.now p.0.now p.1.now) }
{
    let i = text.iter().position(|byte| *byte == at)?;
    Some((&text[0..i], &text[i + 1..]))
}

// The line at the front of the text, where it begins with `key` and has its line feed: what stands between the two, and
// the text after the line.
pub fn keyed<'a>(key: &[u8], text: &'a [u8]) -> Option<(&'a [u8], &'a [u8])>
    ensures { MatchOption result (Unkeyed key.now text.now) (λ p. Keyed key.now text.now p.0.now p.1.now) }
{
    let (line, rest) = split(text, b'\n')?;
    let body = line.strip_prefix(key)?;
    Some((body, rest))
}
