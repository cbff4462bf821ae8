ghost use Rattle.std.specs.Prelude.{◌≡◌, Some, None, MatchOption, ◌==◌, position};
ghost use Rattle.text.specs.Splits.{split_once};

/// What stands before the first `mark` of a text, and what stands after it. None where the text has no such byte.
pub fn split_once(text: &[u8], mark: u8) -> Option<(&[u8], &[u8])>
    ensures { MatchOption result (split_once mark text.now ≡ None) (λ p. split_once mark text.now ≡ Some (p.0.now, p.1.now)) }
{
    let at = find(text, mark)?;
    Some((&text[..at], &text[at + 1..]))
}

// Where a text has its first `mark`.
fn find(text: &[u8], mark: u8) -> Option<usize>
    ensures { result ≡ position (λ b. b == mark) text.now }
{
    text.iter().position(|byte| *byte == mark)
}
