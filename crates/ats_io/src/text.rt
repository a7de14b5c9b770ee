//! Lines of a text.

ghost use Rattle.std.specs.Prelude.{◌≡◌, ◌==◌, ◌<◌, ◌≤◌, ◌∷◌, length, drop, position, IfSome};
ghost use Rattle.std.specs.Prelude.{slice_range, slice_index, ◌-◌};
ghost use Rattle.ats_io.specs.Text.{lines_of};

use memchr::memchr;

/// The line that begins at place `at` of the text: the place where it ends, and the place where the next line begins. A
/// line ends before its LF, and before a CR directly before that LF; the last line may have no LF, and keeps its CR.
pub fn line_at(text: &[u8], at: usize) -> (usize, usize)
    requires { at < length text.now }
    ensures line { lines_of (drop at text.now) ≡ slice_range text.now at result.0 ∷ lines_of (drop result.1 text.now) }
    ensures begins { at ≤ result.0 }
    ensures ends { result.0 ≤ result.1 }
    ensures advances { at < result.1 }
    ensures within { result.1 ≤ length text.now }
    ensures next { result.1 < length text.now → slice_index text.now (result.1 - 1) ≡ 10 }
{
    match feed_at(&text[at..]) {
        None => (text.len(), text.len()),
        Some(0) => (at, at + 1),
        Some(count) => {
            let end = at + count;
            if text[end - 1] == b'\r' {
                (end - 1, end + 1)
            } else {
                (end, end + 1)
            }
        }
    }
}

// The place of the first LF of a text.
#[tactic(auto, using(crate::proofs::Feeds::first_feed, crate::proofs::Feeds::feed_is_within))]
fn feed_at(text: &[u8]) -> Option<usize>
    ensures place { result ≡ position (λ b. b == 10) text.now }
    ensures within { IfSome result (λ place. place < length text.now) }
    ensures feed { IfSome result (λ place. slice_index text.now place ≡ 10) }
{
    memchr(b'\n', text)
}
