// Where a byte first stands in a text, and whether a text begins with a word.
ghost use Rattle.std.specs.Prelude.{◌≡◌};
ghost use Rattle.text.specs.Parts.{place_from, begins};

// The first place at or after `start` where `byte` stands; the end, where there is none (`start` itself, where that is past the end).
// A place and no Option, as the rules' "place_from": whether the byte stands there is asked by whether the place is before the end.
pub fn place_from(text: &[u8], byte: u8, start: usize) -> usize
    ensures { result ≡ place_from byte text.now start }
{
    let after = &text[start.min(text.len())..];
    let before = after.iter().position(|b| *b == byte);
    start + before.unwrap_or(after.len())
}

// Whether the text begins with the word: std's own test under the rules' name.
#[tactic(auto, using(crate::proofs::Parting::begins_is))]
pub fn begins(text: &[u8], word: &[u8]) -> bool
    ensures { result ≡ begins word.now text.now }
{
    text.starts_with(word)
}
