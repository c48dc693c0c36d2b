// Where lines, comments and words end.
ghost use Rattle.std.specs.Prelude.{Bool, ◌≡◌, ◌++◌, ℕ, length, drop, IfSome};
ghost use Rattle.typed_line.specs.Words.{before, blank, past_blanks};
ghost use Rattle.typed_line.specs.Cursors.{NextWord};

fn is_blank(b: u8) -> bool
    ensures { result ≡ blank b }
{
    matches!(b, b' ' | b'\t' | b'\r')
}

// The bytes before the first that a test passes, and the bytes from that one on.
pub fn until<F: Fn(u8) -> bool>(s: &[u8], ends: F) -> (&[u8], &[u8])
    requires { F.IsAlwaysCallable ends }
    ensures before { (p : ℕ → Bool) → ((b : ℕ) (r : Bool) → F.post ends b r → r ≡ p b) → result.0.now ≡ before p s.now }
    ensures rest { (p : ℕ → Bool) → ((b : ℕ) (r : Bool) → F.post ends b r → r ≡ p b) → result.1.now ≡ drop (length (before p s.now)) s.now }
{
    let end = s.iter().position(|b| ends(*b)).unwrap_or(s.len());
    s.split_at(end)
}

// The first word of a line, and what stands behind it, to the end of the line; none where the line has only blanks.
pub fn next_word(line: &[u8]) -> Option<(&[u8], &[u8])>
    ensures words { NextWord line.now result }
    ensures place { IfSome result (λ w. w.0.now ++ w.1.now ≡ past_blanks line.now) }
{
    let (_, words) = until(line, |b| !is_blank(b));
    if words.is_empty() {
        return None;
    }
    Some(until(words, is_blank))
}
