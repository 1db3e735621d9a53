//! What a part says after release: its length, its bytes, whether it equals another.

#![tactic(auto)]

ghost use Rattle.std.specs.Prelude.{◌≡◌, ◌≤◌, length};
ghost use Rattle.laws.specs.Put.{put_at};
ghost use Rattle.syntax.specs.Bytes.{plain};
ghost use Rattle.values.specs.Values.{next_at, same_text, copied_of};

/// The characters of a part: its bytes after release.
#[derive(Drop)]
pub struct AfterRelease<'a> {
    rest: &'a [u8],
}

impl Iterator for AfterRelease<'_> {
    ghost use Rattle.std.specs.Iterator.{YieldsFirst, item_count};

    type Item = u8;

    ghost next_gives = { YieldsFirst (λ c. plain c.rest.now) };

    ghost remaining = { item_count (λ c. plain c.rest.now) };

    #[tactic(auto, unfolding(syntax::specs::Bytes::plain_on))]
    fn next(&mut self) -> Option<u8> {
        let (character, rest) = match self.rest {
            [b'?', released, rest @ ..] => (released, rest),
            [] | [b'?'] => return None,
            [first, rest @ ..] => (first, rest),
        };
        self.rest = rest;
        Some(*character)
    }
}

/// The characters of a part from its first on.
pub fn characters(part: &[u8]) -> AfterRelease<'_>
    ensures { result.rest.now ≡ part.now }
{
    AfterRelease { rest: part }
}

/// A byte after release, and the index past it.
#[derive(Clone, Copy, PartialEq, Eq, Debug)]
pub struct Next {
    pub byte: u8,
    pub past: usize,
}

/// The byte after release at an index that is not released itself.
pub fn next_byte(part: &[u8], i: usize) -> Option<Next>
    ensures { result ≡ next_at part.now i }
{
    if part.len() <= i {
        return None;
    }
    let byte = part[i];
    if byte != b'?' {
        return Some(Next { byte, past: i + 1 });
    }
    let k = i + 1;
    if part.len() <= k {
        return None;
    }
    Some(Next {
        byte: part[k],
        past: k + 1,
    })
}

/// The number of characters after release.
#[tactic(auto, using(syntax::specs::Few::plain_length))]
pub fn plain_length(part: &[u8]) -> usize
    ensures { result ≡ length (plain part.now) }
{
    characters(part).count()
}

/// Whether a part says the given bytes.
pub fn equals(part: &[u8], text: &[u8]) -> bool
    ensures { result ≡ same_text (plain part.now) text.now }
{
    characters(part).eq(text.iter().copied())
}

/// Whether two parts, of one slice or of two, say the same.
pub fn same(a: &[u8], b: &[u8]) -> bool
    ensures { result ≡ same_text (plain a.now) (plain b.now) }
{
    characters(a).eq(characters(b))
}

/// What a part says, written to the front of a lent buffer, and how many bytes that are; a buffer that is too short stays as it was.
pub fn copy_plain(part: &[u8], to: &mut [u8]) -> Option<usize>
    ensures told { result ≡ copied_of (length (plain part.now)) (length to.old) }
    ensures left { to.new ≡ put_at to.old 0 (plain part.now) }
{
    let n = plain_length(part);
    if to.len() < n {
        return None;
    }
    fill(part, to);
    Some(n)
}

// The copying itself, into a buffer that is long enough.
#[tactic(auto, using(laws::specs::Put::put_step, laws::specs::Put::put_none))]
fn fill(part: &[u8], to: &mut [u8])
    requires { length (plain part.now) ≤ length to.old }
    ensures { to.new ≡ put_at to.old 0 (plain part.now) }
{
    for (n, character) in characters(part).enumerate() {
        to[n] = character;
    }
}
