// The lines of a script.
ghost use Rattle.std.specs.Prelude.{◌≡◌, ◌<◌, [], ◌∷◌, length, MatchOption};
ghost use Rattle.player.specs.Transcripts.{lines, passed_over};
ghost use Rattle.player.specs.Sessions.{kept, IsNextLine};

// The first line of a text, and what stands after it.
fn split_line(text: &[u8]) -> (&[u8], &[u8])
    requires { 0 < length text.now }
    ensures lines { lines text.now ≡ result.0.now ∷ lines result.1.now }
    ensures shorter { length result.1.now < length text.now }
{
    match text.iter().position(|c| *c == b'\n') {
        Some(end) => (&text[..end], &text[end + 1..]),
        None => (text, &[]),
    }
}

// Whether a line is empty or a comment.
fn is_passed_over(line: &[u8]) -> bool
    ensures { result ≡ passed_over line.now }
{
    matches!(line, [] | [b'#', ..])
}

/// The first line of a text that is neither empty nor a comment, and what stands after it.
pub fn next_line(text: &[u8]) -> Option<(&[u8], &[u8])>
    ensures { MatchOption result (kept (lines text.now) ≡ []) (λ r. IsNextLine text.now r.0.now r.1.now) }
{
    let mut left = text;
    while !left.is_empty() {
        let (line, rest) = split_line(left);
        if !is_passed_over(line) {
            return Some((line, rest));
        }
        left = rest;
    }
    None
}
