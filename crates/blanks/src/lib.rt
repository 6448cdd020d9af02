// What stands between tokens: blanks and comments.
#![tactic(auto)]

ghost use Rattle.std.specs.Prelude.{◌≡◌, ◌+◌, drop};
ghost use Rattle.scan.specs.Bytes.{run};
ghost use Rattle.blanks.specs.Blanks.{blank, includes, in_comment, standing, stands_at};

use text::Place;

// Space, tab, CR and LF. In two tests, which cost the same for each of the four: one test of all costs most for LF.
fn is_blank(b: u8) -> bool
    ensures { result ≡ blank b }
{
    matches!(b, b' ' | b'\t') | matches!(b, b'\r' | b'\n')
}

// Whether what stands at a place is a comment that starts #include.
fn is_include(text: &[u8], at: usize) -> bool
    ensures { result ≡ includes (drop at text.now) }
{
    text::starts_with(text::bytes_from(text, at), b"#include")
}

// Where a comment's bytes end: at its line's end or at a NUL. By hand: with `scan::end_of` in it, the loop of `standing_at` took up to
// twice the time for each blank.
fn comment_end(text: &[u8], at: usize) -> usize
    ensures { result ≡ at + run in_comment (drop at text.now) }
{
    let mut i = at;
    while i < text.len() {
        let b = text[i];
        if (b == b'\n') | (b == 0) {
            return i;
        }
        i += 1;
    }
    i
}

// The place of what stands next, after blanks and comments; a NUL and #include are neither.
pub fn standing_at(text: &[u8], at: Place) -> Place
    ensures { result.0 ≡ standing text.now at.0 }
{
    let mut i = at.0;
    while i < text.len() {
        let b = text[i];
        if is_blank(b) {
            i += 1;
        } else {
            if b != b'#' {
                return Place(i);
            }
            if is_include(text, i) {
                return Place(i);
            }
            i = comment_end(text, i + 1);
        }
    }
    Place(i)
}

// Whether what stands next begins with the bytes of a word.
pub fn stands_at(text: &[u8], at: Place, word: &[u8]) -> bool
    ensures { result ≡ stands_at word.now text.now at.0 }
{
    let place = standing_at(text, at).0;
    text::starts_with(text::bytes_from(text, place), word)
}
