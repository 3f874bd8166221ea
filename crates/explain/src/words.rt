// An input cut into lines, and a line into words.
ghost use Rattle.std.specs.Prelude.{◌≡◌, ◌<◌, false, ◌∷◌, ◌++◌, length, MatchOption, ◌≢◌, slice_index};
ghost use Rattle.explain.specs.Cuts.{Without, White, Uncommented, NextLine, NextWord};
ghost use Rattle.std.specs.Option.{option_map};
ghost use Rattle.std.specs.Char.{is_ascii_whitespace};
ghost use Rattle.std.specs.Iterator.{at_most};

// The two sides of the first `mark`; none where there is no such byte.
pub fn split_once(bytes: &[u8], mark: u8) -> Option<(&[u8], &[u8])>
    ensures { MatchOption result (Without mark bytes.now) (λ p. Without mark p.0.now × (bytes.now ≡ p.0.now ++ (mark ∷ p.1.now)) × (length p.1.now < length bytes.now)) }
{
    let len = bytes.iter().position(|b| *b == mark)?;
    Some((&bytes[..len], &bytes[len + 1..]))
}

fn without_comment(line: &[u8]) -> &[u8]
    ensures { Uncommented line.now result.now }
{
    split_once(line, b'#').map_or(line, |(text, _)| text)
}

// The bytes before the first white space, and the rest.
fn first_word(bytes: &[u8]) -> (&[u8], &[u8])
    ensures cut { bytes.now ≡ result.0.now ++ result.1.now }
    ensures solid { White false result.0.now }
    ensures ends { 0 < length result.1.now → is_ascii_whitespace (slice_index result.1.now 0) ≢ false }
{
    let len = bytes.iter().position(|b| b.is_ascii_whitespace());
    bytes.split_at(len.unwrap_or(bytes.len()))
}

#[derive(Clone, Copy)]
pub struct Lines<'a> {
    rest: &'a [u8],
}

impl<'a> Lines<'a> {
    pub fn new(input: &'a [u8]) -> Lines<'a>
        ensures { result.rest.now ≡ input.now }
    {
        Lines { rest: input }
    }
}

impl<'a> Iterator for Lines<'a> {
    type Item = &'a [u8];

    ghost remaining = { λ s. at_most (length s.rest.now) };

    ghost next_gives = { λ s r t. NextLine s.rest.now (option_map (λ l. l.now) r) t.rest.now };

    fn next(&mut self) -> Option<&'a [u8]> {
        let rest = self.rest;
        if rest.is_empty() {
            return None;
        }
        let (line, after) = split_once(rest, b'\n').unwrap_or((rest, &[]));
        self.rest = after;
        Some(line)
    }
}

// The words of a line that are still to be read.
#[derive(Clone, Copy)]
pub struct Words<'a> {
    rest: &'a [u8],
}

impl<'a> Words<'a> {
    // A comment has no words.
    pub fn new(line: &'a [u8]) -> Words<'a>
        ensures { Uncommented line.now result.rest.now }
    {
        Words {
            rest: without_comment(line),
        }
    }
}

impl<'a> Iterator for Words<'a> {
    type Item = &'a [u8];

    ghost remaining = { λ s. at_most (length s.rest.now) };

    ghost next_gives = { λ s r t. NextWord s.rest.now (option_map (λ w. w.now) r) t.rest.now };

    fn next(&mut self) -> Option<&'a [u8]> {
        let (word, after) = first_word(self.rest.trim_ascii_start());
        self.rest = after;
        // An `if` and no `then_some`: the proof takes the two cases apart.
        if word.is_empty() { None } else { Some(word) }
    }
}
