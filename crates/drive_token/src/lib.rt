// Tokens of a line, and the numbers and bytes that they say.

#![tactic(auto)]

pub mod digits;

ghost use Rattle.std.specs.Prelude.{◌∷◌, ◌≡◌};
ghost use Rattle.drive_token.specs.Tokens.{tokens, tokens_in, same};

// The first token, and what follows the space after it, if there is one.
pub fn cut(s: &[u8]) -> (&[u8], Option<&[u8]>)
    ensures { tokens s.now ≡ result.0.now ∷ tokens_in result.1 }
{
    match s.iter().position(|c| *c == b' ') {
        Some(n) => (&s[..n], Some(&s[n + 1..])),
        None => (s, None),
    }
}

// Whether a token is a word. A == in its place would need a slice made of each b"word".
#[tactic(auto, unfolding(crate::specs::Tokens::same))]
pub fn is(token: &[u8], word: &[u8]) -> bool
    ensures { result ≡ same token.now word.now }
{
    token == word
}
