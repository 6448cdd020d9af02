// The heads of profiles: profile NAME { or /name {.
#![tactic(auto)]

ghost use Rattle.std.specs.Prelude.{◌≡◌, min, leb};
ghost use Rattle.scan.specs.Bytes.{same, some, span};
ghost use Rattle.tokens.specs.Places.{seen_token, token_of};
ghost use Rattle.heads.specs.Heads.{head_at, name_at, open_at};
ghost use Rattle.heads.specs.Places.{head_from, name_from, names_of, seen_head, seen_open};

use names::{NAME_BYTES, name_form};
use scan::{begins_at, least};
use text::{BAD_FORM, NOT_TAKEN, Place, Span, Stop, TOO_MUCH};
use tokens::{Read, Token, content, is_word, next_token};

// The number of the refusal of a name used twice.
pub const USED_TWICE: u8 = 10;

// The most profiles of a text.
pub const PROFILES: usize = 32;

// The name at a place, a token that ends at a blank or {; rooted says that it must begin with /.
fn name_from(text: &[u8], rooted: bool, at: Place) -> Result<Token, Stop>
    ensures { seen_token text.now result ≡ name_from rooted text.now at.0 }
{
    let t = next_token(text, at, b'{').token()?;
    let name = content(text, t);
    if (!rooted | begins_at(name, 0, b'/')) & name_form(name, t.quoted) {
        return Ok(t);
    }
    Err(Stop {
        number: BAD_FORM,
        place: t.start,
    })
}

// The token of a profile's name; without the word profile it begins with /.
fn name_at(text: &[u8], at: Place) -> Result<Token, Stop>
    ensures { seen_token text.now result ≡ name_at text.now at.0 }
{
    let Read::Found(t) = next_token(text, at, 0) else {
        return name_from(text, true, at);
    };
    if is_word(text, t, b"profile") {
        return name_from(text, false, t.next);
    }
    name_from(text, true, at)
}

// The { after a head's name: where reading goes on after it.
fn open_at(text: &[u8], at: Place) -> Result<Place, Stop>
    ensures { seen_open result ≡ open_at text.now at.0 }
{
    if blanks::stands_at(text, at, b"{") {
        let brace = blanks::standing_at(text, at);
        return Ok(Place(brace.0 + 1));
    }
    let t = next_token(text, at, 0).token()?;
    Err(Stop {
        number: NOT_TAKEN,
        place: t.start,
    })
}

// Whether the bytes from a to before e are the name of one of the first n profiles.
// The table stays one of numbers, four to a profile: as such it goes into the head that callers of C lend.
fn is_used(text: &[u8], table: &[usize; 128], n: usize, a: usize, e: usize) -> bool
    ensures { result ≡ some (same (span text.now a e)) (names_of text.now table.now (min 32 n)) }
{
    let name = scan::span(text, a, e);
    for i in 0..least(32, n) {
        if scan::same_bytes(name, scan::span(text, table[4 * i], table[4 * i + 1])) {
            return true;
        }
    }
    false
}

// A name and where the rules start.
#[derive(Clone, Copy)]
pub struct Head {
    pub name: Span,
    pub next: Place,
}

// A head, by the token of its name, where the first n profiles are known.
fn head_from(text: &[u8], table: &[usize; 128], n: usize, t: Token) -> Result<Head, Stop>
    ensures { seen_head text.now result ≡ head_from (leb 32 n) (names_of text.now table.now (min 32 n)) text.now (token_of text.now t) }
{
    let place = t.start;
    let from = t.from;
    let end = t.end;
    let name = content(text, t);
    if (PROFILES <= n) | (NAME_BYTES < name.len()) {
        return Err(Stop {
            number: TOO_MUCH,
            place,
        });
    }
    if is_used(text, table, n, from.0, end.0) {
        return Err(Stop {
            number: USED_TWICE,
            place,
        });
    }
    let next = open_at(text, t.next)?;
    Ok(Head {
        name: Span { from, end },
        next,
    })
}

// The head at a place, where the first n profiles are known.
pub fn head_at(text: &[u8], table: &[usize; 128], n: usize, at: Place) -> Result<Head, Stop>
    ensures { seen_head text.now result ≡ head_at (leb 32 n) (names_of text.now table.now (min 32 n)) text.now at.0 }
{
    if keywords::is_not_taken(text, at, false) {
        return Err(Stop {
            number: NOT_TAKEN,
            place: blanks::standing_at(text, at),
        });
    }
    let t = name_at(text, at)?;
    head_from(text, table, n, t)
}
