// Bytes taken apart.
ghost use Rattle.std.specs.Prelude.{◌≡◌, ◌==◌, [], ◌∷◌, MatchOption, position};
ghost use Rattle.words.specs.Parts.{parted};

// Where the byte `at` first stands; by itself, since in `cut` the check loses what `position` found.
fn position_of(bytes: &[u8], at: u8) -> Option<usize>
    ensures { result ≡ position (λ b. b == at) bytes.now }
{
    bytes.iter().position(|b| *b == at)
}

// The parts before and after the first byte `at`; nothing where there is none.
pub fn cut(bytes: &[u8], at: u8) -> Option<(&[u8], &[u8])>
    ensures { MatchOption result
        (parted at bytes.now ≡ bytes.now ∷ [])
        (λ p. parted at bytes.now ≡ p.0.now ∷ parted at p.1.now) }
{
    let i = position_of(bytes, at)?;
    Some((&bytes[..i], &bytes[i + 1..]))
}
