// The front of a pattern: its first bytes that are literals whatever stands behind them.
#![tactic(auto)]

ghost use Rattle.std.specs.Prelude.{true, false, ◌≡◌, ℕ, ◌+◌, ◌≤◌, ◌<◌, length, take};
ghost use Rattle.pattern.specs.Literals.{special};
ghost use Rattle.scan.specs.Bytes.{span};
ghost use Rattle.front.specs.Front.{lead_of, plain_after, slash_after, Passed};

use ends::is_ordinary;
use scan::{least, span};

// How a path begins with the front of a pattern: how long that is, and whether a / stands before what follows it.
#[derive(Clone, Copy)]
pub struct Led {
    pub len: usize,
    pub slash: bool,
}

// Whether a byte is a literal by itself, and no second / in a row.
pub fn plain(b: u8, slash: bool) -> bool
    ensures { result ≡ plain_after slash b }
{
    is_ordinary(b) & !(slash & (b == b'/'))
}

// What the front of the pattern from a to before e does to a path, where a / stands before both, or not: none where it does not begin the path.
pub fn lead(text: &[u8], a: usize, e: usize, slash: bool, path: &[u8]) -> Option<Led>
    ensures { result ≡ lead_of slash (span text.now a e) path.now }
{
    let pattern = span(text, a, e);
    let mut after = slash;
    for (i, b) in pattern.iter().enumerate() {
        if !plain(*b, after) {
            return Some(Led {
                len: i,
                slash: after,
            });
        }
        let next = path.get(i)?;
        if next != b {
            return None;
        }
        after = *b == b'/';
    }
    Some(Led {
        len: pattern.len(),
        slash: after,
    })
}

// Whether b may be more than a literal, or none: with no branch, so that many are told at once.
fn is_special(b: u8) -> bool
    ensures { result ≡ special b }
{
    (b == b'\\')
        | (b == b'?')
        | (b == b'*')
        | (b == b'[')
        | (b == b']')
        | (b == b'{')
        | (b == b'}')
        | (b == b'@')
        | (b == b'^')
}

// Whether the 16 bytes of a pattern from a place on are the path's, literals by themselves, and none of them a / before a /.
// Every one is looked at, so that they are told at once.
fn agrees(pattern: &[u8], path: &[u8], at: usize) -> bool
    requires at_in_bounds { at + 16 < length pattern.now }
    requires at_in_bounds_2 { at + 16 < length path.now }
    ensures { result ≡ true → (j : ℕ) → j < 16 → Passed pattern.now path.now (at + j) }
{
    let mut differs = false;
    for i in 0..16 {
        let b = pattern[at + i];
        let doubled = (b == b'/') & (pattern[at + i + 1] == b'/');
        differs = differs | (b != path[at + i]) | is_special(b) | doubled;
    }
    !differs
}

// How many bytes of a pattern are passed over as the path's, 16 at a time. The last of the 16 is held first, alone, which costs little.
fn passed(pattern: &[u8], path: &[u8]) -> usize
    ensures within { (result ≤ length pattern.now) × (result ≤ length path.now) }
    ensures by_index { (j : ℕ) → j < result → Passed pattern.now path.now j }
{
    let blocks = least(pattern.len(), path.len()).saturating_sub(1) / 16;
    for k in 0..blocks {
        let at = 16 * k;
        if pattern[at + 15] != path[at + 15] {
            return at;
        }
        if !agrees(pattern, path, at) {
            return at;
        }
    }
    16 * blocks
}

// Whether a / stands before a place of a path; none stands before its first byte.
fn slash_before(path: &[u8], k: usize) -> bool
    requires { k ≤ length path.now }
    ensures { result ≡ slash_after false (take k path.now) }
{
    path[..k].last() == Some(&b'/')
}

// What the front of the pattern from a to before e does to a path, where no / stands before them: as lead, and fast where the front is long.
pub fn lead_far(text: &[u8], a: usize, e: usize, path: &[u8]) -> Option<Led>
    ensures { result ≡ lead_of false (span text.now a e) path.now }
{
    let pattern = span(text, a, e);
    let k = passed(pattern, path);
    let l = lead(
        pattern,
        k,
        pattern.len(),
        slash_before(path, k),
        span(path, k, path.len()),
    )?;
    Some(Led {
        len: k + l.len,
        slash: l.slash,
    })
}
