// The tokens of a text.
#![tactic(auto)]

ghost use Rattle.std.specs.Prelude.{◌≡◌, ◌+◌, ◌<◌, ℕ, List, length, drop};
ghost use Rattle.scan.specs.Bytes.{run, span};
ghost use Rattle.tokens.specs.Tokens.{is_word, in_quotes, plain, plain_token, quoted_token, token_at, wanted};
ghost use Rattle.tokens.specs.Places.{seen, seen_token, stop_of, token_of};

use scan::begins_at;
use text::{BAD_FORM, NOT_TAKEN, Place, Stop};

// A token starts at its opening quote, if it has one; its bytes stand at from to before end; reading goes on at next.
#[derive(Clone, Copy)]
pub struct Token {
    pub start: Place,
    pub from: Place,
    pub end: Place,
    pub quoted: bool,
    pub next: Place,
}

// The next token, or the place where reading stopped: with a refusal, or at the text's end.
#[derive(Clone, Copy)]
pub enum Read {
    Found(Token),
    Stopped(Stop),
    End(Place),
}

impl Read {
    // The token where one is wanted, or else the refusal.
    pub fn token(self) -> Result<Token, Stop>
        ensures { (s : List ℕ) → seen_token s result ≡ wanted (seen s self) }
    {
        match self {
            Read::Found(t) => Ok(t),
            Read::Stopped(stop) => Err(stop),
            Read::End(place) => Err(Stop {
                number: BAD_FORM,
                place,
            }),
        }
    }
}

// The bytes of a token.
pub fn content(text: &[u8], t: Token) -> &[u8]
    ensures { result.now ≡ span text.now t.from.0 t.end.0 }
{
    let from = t.from.0;
    let end = t.end.0;
    scan::span(text, from, end)
}

// Whether a token is unquoted and has the bytes of a word.
pub fn is_word(text: &[u8], t: Token, word: &[u8]) -> bool
    ensures { result ≡ is_word (token_of text.now t) word.now }
{
    let bytes = content(text, t);
    !t.quoted & scan::same_bytes(bytes, word)
}

// The refusal where another token was wanted.
pub fn stop_of(r: Read) -> Stop
    ensures { result ≡ stop_of r }
{
    match r {
        Read::Found(t) => {
            let start = t.start;
            Stop {
                number: BAD_FORM,
                place: start,
            }
        }
        Read::Stopped(stop) => stop,
        Read::End(place) => Stop {
            number: BAD_FORM,
            place,
        },
    }
}

// A byte of an unquoted token, which a blank, # and NUL end, and `stop` too.
fn is_plain(b: u8, stop: u8) -> bool
    ensures { result ≡ plain stop b }
{
    if b'#' < b {
        return b != stop;
    }
    !((b == b' ')
        | (b == b'\t')
        | (b == b'\r')
        | (b == b'\n')
        | (b == b'#')
        | (b == 0)
        | (b == b'"')
        | (b == stop))
}

// Where an unquoted token's bytes end.
fn plain_end(text: &[u8], at: usize, stop: u8) -> usize
    ensures { result ≡ at + run (plain stop) (drop at text.now) }
{
    scan::end_of(text, at, |b| is_plain(b, stop))
}

// A byte of a quoted token.
fn is_in_quotes(b: u8) -> bool
    ensures { result ≡ in_quotes b }
{
    !((b == b'"') | (b == b'\n') | (b == 0))
}

// Where a quoted token's bytes end.
fn quoted_end(text: &[u8], at: usize) -> usize
    ensures { result ≡ at + run in_quotes (drop at text.now) }
{
    scan::end_of(text, at, is_in_quotes)
}

// The quoted token at p, if a quote closes it.
fn quoted_token(text: &[u8], p: usize) -> Read
    requires { p < length text.now }
    ensures { seen text.now result ≡ quoted_token p (run in_quotes (drop (p + 1) text.now)) (drop (p + 1) text.now) }
{
    let close = quoted_end(text, p + 1);
    if begins_at(text, close, b'"') {
        return Read::Found(Token {
            start: Place(p),
            from: Place(p + 1),
            end: Place(close),
            quoted: true,
            next: Place(close + 1),
        });
    }
    Read::Stopped(Stop {
        number: BAD_FORM,
        place: Place(p),
    })
}

// The unquoted token at p, if no quote ends it.
fn plain_token(text: &[u8], p: usize, stop: u8) -> Read
    ensures { seen text.now result ≡ plain_token p (run (plain stop) (drop p text.now)) (drop p text.now) }
{
    let end = plain_end(text, p, stop);
    if begins_at(text, end, b'"') {
        return Read::Stopped(Stop {
            number: BAD_FORM,
            place: Place(p),
        });
    }
    Read::Found(Token {
        start: Place(p),
        from: Place(p),
        end: Place(end),
        quoted: false,
        next: Place(end),
    })
}

// The next token from a place on. One more byte ends an unquoted token, and is a token by itself: the stop, 0 for none.
pub fn next_token(text: &[u8], at: Place, stop: u8) -> Read
    ensures { seen text.now result ≡ token_at stop text.now at.0 }
{
    let p = blanks::standing_at(text, at).0;
    if text.len() <= p {
        return Read::End(Place(p));
    }
    let b = text[p];
    if b == 0 {
        return Read::Stopped(Stop {
            number: BAD_FORM,
            place: Place(p),
        });
    }
    if b == b'#' {
        return Read::Stopped(Stop {
            number: NOT_TAKEN,
            place: Place(p),
        });
    }
    if b == b'"' {
        return quoted_token(text, p);
    }
    if b == stop {
        return Read::Found(Token {
            start: Place(p),
            from: Place(p),
            end: Place(p + 1),
            quoted: false,
            next: Place(p + 1),
        });
    }
    plain_token(text, p, stop)
}
