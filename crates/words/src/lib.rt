// The first 16 bytes of a path, and those of a pattern's front, as two words: two comparisons say of most paths that the
// front does not begin them.
#![tactic(auto)]

ghost use Rattle.std.specs.Prelude.{◌≡◌, ◌≤◌, length};
ghost use Rattle.scan.specs.Bytes.{span};
ghost use Rattle.front.specs.Front.{front};
ghost use Rattle.words.specs.Words.{word_of, mask_of, words_of, front_of, is_out};

use front::plain;
use scan::span;

// The first eight bytes of a path and the eight behind them, the lowest first, zero beyond the end.
#[derive(Clone, Copy)]
pub struct Words {
    pub first: usize,
    pub second: usize,
}

// The same of a pattern's front, each with the mask of the bytes that it has.
#[derive(Clone, Copy)]
pub struct Front {
    pub first: usize,
    pub second: usize,
    pub first_mask: usize,
    pub second_mask: usize,
}

// The first n bytes as a number.
fn number(s: &[u8], n: usize) -> usize
    requires n_bound { n ≤ 8 }
    requires n_in_bounds { n ≤ length s.now }
    ensures { result ≡ word_of n s.now }
{
    let mut w = 0;
    for i in (0..n).rev() {
        w = w * 256 + s[i] as usize;
    }
    w
}

// The first eight bytes, or as many as there are. Eight are one load: the compiler unrolls the loop.
fn word_of(s: &[u8]) -> usize
    ensures { result ≡ word_of 8 s.now }
{
    if 8 <= s.len() {
        return number(s, 8);
    }
    number(s, s.len())
}

// The mask of the first n bytes of a word.
fn mask_of(n: usize) -> usize
    ensures { result ≡ mask_of n }
{
    if n < 8 {
        return (1 << (8 * n)) - 1;
    }
    18446744073709551615
}

// How many bytes the front of a pattern has.
fn front_len(pattern: &[u8]) -> usize
    ensures { result ≡ length (front pattern.now) }
{
    let mut slash = false;
    for (i, b) in pattern.iter().enumerate() {
        if !plain(*b, slash) {
            return i;
        }
        slash = *b == b'/';
    }
    pattern.len()
}

// The words of a path.
pub fn words_of(path: &[u8]) -> Words
    ensures { result ≡ words_of path.now }
{
    let rest = span(path, 8, path.len());
    Words {
        first: word_of(path),
        second: word_of(rest),
    }
}

// The words and masks of the front of the pattern from a to before e.
pub fn front_of(text: &[u8], a: usize, e: usize) -> Front
    ensures { result ≡ front_of (span text.now a e) }
{
    let pattern = span(text, a, e);
    let n = front_len(pattern);
    let front = span(pattern, 0, n);
    let rest = span(front, 8, front.len());
    let first_mask = mask_of(front.len());
    let second_mask = mask_of(rest.len());
    Front {
        first: word_of(front) & first_mask,
        second: word_of(rest) & second_mask,
        first_mask,
        second_mask,
    }
}

// Whether the words show that the front does not begin the path.
pub fn is_out(words: Words, front: Front) -> bool
    ensures { result ≡ is_out words front }
{
    (words.first & front.first_mask != front.first)
        | (words.second & front.second_mask != front.second)
}
