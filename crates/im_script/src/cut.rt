ghost use Rattle.std.specs.Prelude.{◌≡◌, ◌==◌, ◌∷◌, ◌+◌, ◌≤◌, length, not};
ghost use Rattle.std.specs.List.{prefix_len};
ghost use Rattle.im_script.specs.Forms.{lines_of};

use memchr::memchr;

/// How many bytes stand before the first line feed, or in all.
fn line_len(text: &[u8]) -> usize
    ensures len { result ≡ prefix_len (λ byte. not (byte == 10)) text.now }
    ensures within { result ≤ length text.now }
{
    match memchr(b'\n', text) {
        Some(place) => place,
        None => text.len(),
    }
}

/// The first line of a text that is not empty, and what stands behind its line feed.
pub fn first_line(text: &[u8]) -> (&[u8], &[u8])
    requires { 1 ≤ length text.now }
    // The lines of the text are its first line and then the lines of the rest.
    ensures lines { lines_of text.now ≡ result.0.now ∷ lines_of result.1.now }
    // The rest is shorter than the text.
    ensures shorter { length result.1.now + 1 ≤ length text.now }
{
    let end = line_len(text);
    let (line, behind) = text.split_at(end);
    match behind {
        [_, rest @ ..] => (line, rest),
        [] => (line, behind),
    }
}
