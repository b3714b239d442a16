//! A text as it is shown in a line. No call takes memory or waits.

ghost use Rattle.std.specs.{Prelude.{◌≡◌}, List.before_first};
ghost use Rattle.mctower.specs.Print.{is_line_feed, shown_line};

use arrayvec::ArrayString;

/// How many bytes of a text are shown at most.
const LONGEST: usize = 200;

/// A text as it is shown in a line.
pub type Shown = ArrayString<LONGEST>;

/// Returns the text before its first line feed.
fn first_line(text: &str) -> &str
    ensures { result.now ≡ before_first is_line_feed text.now }
{
    match text.split_once('\n') {
        Some((line, _)) => line,
        None => text,
    }
}

/// Returns a text as it is shown in a line: its part before the first line feed, or two dots if
/// that is longer than 200 bytes.
pub(crate) fn shown(text: &str) -> Shown
    ensures { result.bytes ≡ shown_line text.now }
{
    match Shown::from(first_line(text)) {
        Ok(shown) => shown,
        Err(_) => {
            let mut dots = Shown::new();
            dots.push_str("..");
            dots
        }
    }
}
