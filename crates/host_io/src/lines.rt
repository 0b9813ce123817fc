//! Lines of a text: `split_line`, `LINE_FEED`, and whether a line is passed over because it is
//! empty or a comment that begins with `#`.

ghost use Rattle.std.specs.Prelude.{◌≡◌, ◌≢◌, ◌+◌, ◌<◌, ◌≤◌, ◌↔◌, ◌⊎◌, [], ◌∷◌, ◌++◌, length, take, drop, slice_index, All, IsTrue};
ghost use Rattle.host_io.specs.Lines.{IsPassedOver, lines_of};

use memchr::memchr;

/// The byte that ends a line.
pub const LINE_FEED: u8 = b'\n';

/// Returns the first line of a text, without its line feed, and the text after it.
pub fn split_line(text: &[u8]) -> (&[u8], &[u8])
    requires { 0 < length text.now }
    ensures cut { (text.now ≡ result.0.now ++ LINE_FEED ∷ result.1.now) ⊎ ((text.now ≡ result.0.now)
        × (result.1.now ≡ [])) }
    ensures no_feed { All (λ b. b ≢ LINE_FEED) result.0.now }
    ensures first { lines_of text.now ≡ result.0.now ∷ lines_of result.1.now }
    ensures fewer { length result.1.now < length text.now }
    ensures no_longer { length result.0.now ≤ length text.now }
{
    cut_at(text, line_end(text))
}

/// Returns `true` if the line is empty or a comment, which begins with `#`.
pub fn is_passed_over(line: &[u8]) -> bool
    ensures { IsTrue result ↔ IsPassedOver line.now }
{
    match line.first() {
        Some(byte) => *byte == b'#',
        None => true,
    }
}

/// Returns the position of the first line feed, or the length of a text without one.
fn line_end(text: &[u8]) -> usize
    ensures within { result ≤ length text.now }
    ensures no_feed { All (λ b. b ≢ LINE_FEED) (take result text.now) }
    ensures feed { result < length text.now → slice_index text.now result ≡ LINE_FEED }
{
    match memchr(LINE_FEED, text) {
        Some(end) => end,
        None => text.len(),
    }
}

/// Returns the text before a position, and the text after the byte there, if there is one.
fn cut_at(text: &[u8], end: usize) -> (&[u8], &[u8])
    requires { end ≤ length text.now }
    ensures before { result.0.now ≡ take end text.now }
    ensures after { result.1.now ≡ drop (end + 1) text.now }
{
    let next = text.len().min(end.saturating_add(1));
    (&text[..end], &text[next..])
}
