// The codes of an expansion, before it is held to a path.
#![tactic(auto)]

ghost use Rattle.std.specs.Prelude.{◌≡◌, List, map, ℕ, take, drop};
ghost use Rattle.scan.specs.Bytes.{every};
ghost use Rattle.pattern.specs.Expansions.{is_literal};
ghost use Rattle.pattern.specs.Codes.{decode};
ghost use Rattle.codes.specs.Joins.{Joins};
ghost use Rattle.codes.specs.Held.{held_from, held_byte, held_pieces};

use scan::least;

// How far the first literals of an expansion agree with a path: the place in it, whether a / stands before that,
// whether a piece that is no literal was met, and whether a literal differed. Flags, and no enum: `hold`, whose clause is `held_pieces`,
// is told and tells the place and the slash in each of these states.
#[derive(Clone, Copy)]
pub struct Held {
    pub at: usize,
    pub slash: bool,
    pub wild: bool,
    pub gone: bool,
}

// The codes of pieces: a literal is its byte; then ?, * and **; then classes. They stay numbers, as in `matcher`.
const ONE: u32 = 256;

const SLASH: u32 = 47;

// Of the first pieces, as many as counted, neighbouring literal slashes become one, with one that stands before them, or not;
// how many pieces are left.
pub fn join_slashes(codes: &mut [u32], count: usize, slash: bool) -> usize
    ensures { Joins slash count codes.old codes.new result }
{
    let n = least(count, codes.len());
    let mut after = slash;
    let mut at = 0;
    for i in 0..n {
        let c = codes[i];
        let here = c == SLASH;
        codes[at] = c;
        at += usize::from(!(after & here));
        after = here;
    }
    at
}

// Whether the first pieces, as many as counted, are literals only.
pub fn is_literal(codes: &[u32], count: usize) -> bool
    ensures { (text : List ℕ) → result ≡ every is_literal (map (decode text) (take count codes.now)) }
{
    codes.iter().take(count).all(|c| *c < ONE)
}

// Whether a literal differs from the path at a place; one / behind another is passed over.
fn differs_at(path: &[u8], at: usize, slash: bool, code: u32) -> bool
    ensures { result ≡ (held_byte path.now (held_from at slash) code).gone }
{
    if slash & (code == SLASH) {
        return false;
    }
    if at < path.len() {
        return path[at] as u32 != code;
    }
    true
}

// The pieces from one place to before another held to the path, from where those before them were held to it.
pub fn hold(codes: &[u32], from: usize, to: usize, h: Held, path: &[u8]) -> Held
    ensures { (text : List ℕ) → result ≡ held_pieces path.now h (map (decode text) (drop from (take to codes.now))) }
{
    if h.wild | h.gone {
        return h;
    }
    let end = least(to, codes.len());
    let mut at = h.at;
    let mut slash = h.slash;
    for i in from..end {
        let c = codes[i];
        if ONE <= c {
            return Held {
                at,
                slash,
                wild: true,
                gone: false,
            };
        }
        if differs_at(path, at, slash, c) {
            return Held {
                at,
                slash,
                wild: false,
                gone: true,
            };
        }
        let here = c == SLASH;
        at += usize::from(!(slash & here));
        slash = here;
    }
    Held {
        at,
        slash,
        wild: false,
        gone: false,
    }
}
