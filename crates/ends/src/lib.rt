// Where the parts and items of patterns and values end.
#![tactic(auto)]

ghost use Rattle.std.specs.Prelude.{◌≡◌, ◌+◌, drop};
ghost use Rattle.scan.specs.Bytes.{run};
ghost use Rattle.pattern.specs.Pieces.{up_to, extra};
ghost use Rattle.pattern.specs.Literals.{ordinary};
ghost use Rattle.pattern.specs.Items.{before};
ghost use Rattle.pattern.specs.Places.{part_end, item_end};

use scan::{begins_at, end_of};

// Whether b is a literal whatever stands behind it. Most bytes are small letters, which are told by one comparison.
pub fn is_ordinary(b: u8) -> bool
    ensures { result ≡ ordinary b }
{
    if (b'a' <= b) & (b <= b'z') {
        return true;
    }
    !((b == b'\\')
        | (b == b'?')
        | (b == b'*')
        | (b == b'[')
        | (b == b']')
        | (b == b'{')
        | (b == b'}')
        | (b == b'@')
        | (b == b'^'))
}

// The place after the ordinary bytes from a place on.
pub fn literal_end(s: &[u8], at: usize) -> usize
    ensures { result ≡ at + run ordinary (drop at s.now) }
{
    end_of(s, at, is_ordinary)
}

// How many bytes stand from a place up to the first c and with it; 0 where there is no c.
// A number and no Option: extra and class_one take it as the definition up_to gives it, 0 for no class and no use.
pub fn up_to(s: &[u8], at: usize, c: u8) -> usize
    ensures { result ≡ up_to c (drop at s.now) }
{
    let end = end_of(s, at, |b| b != c);
    if end < s.len() {
        return end - at + 1;
    }
    0
}

// How many bytes from a place on belong to the part that starts with b before it.
fn part_extra(b: u8, s: &[u8], at: usize) -> usize
    ensures { result ≡ extra b (drop at s.now) }
{
    match b {
        b'\\' => usize::from(at < s.len()),
        b'*' => usize::from(begins_at(s, at, b'*')),
        b'[' => up_to(s, at, b']'),
        b'@' => {
            if begins_at(s, at, b'{') {
                up_to(s, at, b'}')
            } else {
                0
            }
        }
        _ => 0,
    }
}

// The place after the part at a place.
pub fn part_end(s: &[u8], at: usize) -> usize
    ensures { result ≡ part_end s.now at }
{
    if at < s.len() {
        return at + 1 + part_extra(s[at], s, at + 1);
    }
    s.len()
}

// The place of the first c from a place on that belongs to no part, or the end.
pub fn seek(s: &[u8], at: usize, c: u8) -> usize
    ensures { result ≡ at + before c 0 (drop at s.now) }
{
    let mut place = at;
    while (place < s.len()) && (s[place] != c) {
        place = part_end(s, place);
    }
    place
}

// The place after the item at a place.
pub fn item_end(s: &[u8], at: usize) -> usize
    ensures { result ≡ item_end s.now at }
{
    if begins_at(s, at, b'{') {
        let end = seek(s, at + 1, b'}');
        if end < s.len() {
            return end + 1;
        }
    }
    part_end(s, at)
}
