//! Texts, cut at a byte.

ghost use Rattle.std.specs.Prelude.{◌≡◌, ◌≢◌, ◌++◌, ◌∷◌, All, MatchOption};

/// The text before the first byte that equals the mark, and the text after it; nothing if there is no such byte.
pub(crate) fn cut(text: &[u8], mark: u8) -> Option<(&[u8], &[u8])>
    ensures { MatchOption result
        (All (λ b. b ≢ mark) text.now)
        (λ p. All (λ b. b ≢ mark) p.0.now × (p.0.now ++ mark ∷ p.1.now ≡ text.now)) }
{
    let end = text.iter().position(|b| *b == mark)?;
    Some((&text[..end], &text[end + 1..]))
}
