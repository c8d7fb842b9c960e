ghost use Rattle.std.specs.Prelude.{◌≡◌, ◌+◌, ◌<◌, [], ◌∷◌, ◌++◌, take, drop, length, MatchOption};
ghost use Rattle.v2_frame.specs.Line.{HasNo, text_of, words_of};
ghost use Rattle.v2_frame.specs.Parts.{AreWords};

/// The words of a line's text, as far as a command may have them.
#[derive(Clone, Copy)]
pub(crate) enum Words<'a> {
    /// One word, which is empty where the text is.
    One(&'a [u8]),
    /// Two words.
    Two(&'a [u8], &'a [u8]),
    /// Three words.
    Three(&'a [u8], &'a [u8], &'a [u8]),
    /// More than any command has.
    Many,
}

/// The place of the first such byte, or None where there is none.
pub(crate) fn place_of(bytes: &[u8], byte: u8) -> Option<usize>
    ensures { MatchOption result (HasNo byte bytes.now) (λ n. (n < length bytes.now) × HasNo byte (take n bytes.now) × (bytes.now ≡ take n bytes.now ++ byte ∷ drop (n + 1) bytes.now)) }
{
    for (n, b) in bytes.iter().enumerate() {
        if *b == byte {
            return Some(n);
        }
    }
    None
}

/// The line without one carriage return at its end.
pub(crate) fn text_of(line: &[u8]) -> &[u8]
    ensures { result.now ≡ text_of line.now }
{
    if !line.is_empty() && line[line.len() - 1] == b'\r' {
        &line[..line.len() - 1]
    } else {
        line
    }
}

/// The first word of the text and what stands behind its space, or None where there is no space.
fn parted(text: &[u8]) -> Option<(&[u8], &[u8])>
    ensures { MatchOption result (words_of text.now ≡ text.now ∷ []) (λ p. words_of text.now ≡ p.0.now ∷ words_of p.1.now) }
{
    let Some(space) = place_of(text, b' ') else {
        return None;
    };
    Some((&text[..space], &text[space + 1..]))
}

/// The parts of the text round its spaces.
pub(crate) fn words_of(text: &[u8]) -> Words<'_>
    ensures { AreWords (words_of text.now) result }
{
    let Some((first, rest)) = parted(text) else {
        return Words::One(text);
    };
    let Some((second, rest)) = parted(rest) else {
        return Words::Two(first, rest);
    };
    match parted(rest) {
        None => Words::Three(first, second, rest),
        Some(_) => Words::Many,
    }
}
