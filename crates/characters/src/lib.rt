//! The characters of a part after release: one by its number, and whether one is among them.

#![tactic(auto)]

ghost use Rattle.std.specs.Prelude.{◌≡◌, get_or};
ghost use Rattle.laws.specs.Choice.{among};
ghost use Rattle.syntax.specs.Bytes.{plain};

use values::characters;

/// Character k of a part, 0 where it has none.
pub fn character_at(part: &[u8], k: usize) -> u8
    ensures { result ≡ get_or (plain part.now) k 0 }
{
    characters(part).nth(k).unwrap_or(0)
}

/// Whether a character is one of a part's.
pub fn has_character(part: &[u8], character: u8) -> bool
    ensures { result ≡ among character (plain part.now) }
{
    characters(part).any(|b| character == b)
}
