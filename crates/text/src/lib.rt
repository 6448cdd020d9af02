// Places of a text, and the refusals that name them.
#![tactic(auto)]

ghost use Rattle.std.specs.Prelude.{◌≡◌, drop};
ghost use Rattle.scan.specs.Bytes.{starts_with};
ghost use Rattle.text.specs.Reading.{nowhere, refusal_at};

// A place in a text: the number of bytes before it.
#[derive(Clone, Copy)]
pub struct Place(pub usize);

// The places of some bytes of a text: from the first to before the end.
#[derive(Clone, Copy)]
pub struct Span {
    pub from: Place,
    pub end: Place,
}

// The numbers of refusals that reading gives: bad form, a word not taken, a bad name of a variable, bad permissions, a size passed.
pub const BAD_FORM: u8 = 4;

pub const NOT_TAKEN: u8 = 5;

pub const BAD_NAME: u8 = 6;

pub const BAD_PERMS: u8 = 8;

pub const TOO_MUCH: u8 = 9;

// The number of a refusal and its place.
#[derive(Clone, Copy)]
pub struct Stop {
    pub number: u8,
    pub place: Place,
}

// A numbered refusal, its line and its column, both 0 where it has no place in the text.
#[derive(Clone, Copy)]
pub struct Refusal {
    pub number: u8,
    pub line: usize,
    pub column: usize,
}

// The bytes after the first n.
pub fn bytes_from(s: &[u8], n: usize) -> &[u8]
    ensures { result.now ≡ drop n s.now }
{
    s.get(n..).unwrap_or(&[])
}

// Whether s begins with the bytes of a word.
pub fn starts_with(s: &[u8], word: &[u8]) -> bool
    ensures { result ≡ starts_with word.now s.now }
{
    s.starts_with(word)
}

// A refusal at a place of the text: the line is 1 plus the LFs before it, the column 1 plus the bytes since the last of these.
pub fn refusal_at(text: &[u8], stop: Stop) -> Refusal
    ensures { result ≡ refusal_at text.now stop.number stop.place.0 }
{
    let number = stop.number;
    let end = stop.place.0;
    let before = scan::span(text, 0, end);
    let mut line: usize = 1;
    let mut column: usize = 1;
    for b in before {
        if *b == b'\n' {
            line += 1;
            column = 1;
        } else {
            column += 1;
        }
    }
    Refusal {
        number,
        line,
        column,
    }
}

// A refusal that has no place in the text.
pub fn nowhere(number: u8) -> Refusal
    ensures { result ≡ nowhere number }
{
    Refusal {
        number,
        line: 0,
        column: 0,
    }
}
