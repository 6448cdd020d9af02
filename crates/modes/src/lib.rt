// Execute modes, as one table, and execute answers.
#![tactic(auto)]

ghost use Rattle.std.specs.Prelude.{◌≡◌};
ghost use Rattle.modes.specs.Modes.{modes, mode_in, kind_number, fallback_number, same_mode, number_in, word_in, execute_number, execute_word};

// Where an execute mode leads.
#[derive(Clone, Copy, PartialEq, Eq)]
pub enum Kind {
    Unconfined,
    Profile,
    Child,
    Inherit,
}

// Where it leads if the profile is missing.
#[derive(Clone, Copy, PartialEq, Eq)]
pub enum Fallback {
    Absent,
    Inherit,
    Unconfined,
}

// An execute mode; `scrubs` says that the environment is scrubbed.
#[derive(Clone, Copy, PartialEq, Eq)]
pub struct Mode {
    pub kind: Kind,
    pub fallback: Fallback,
    pub scrubs: bool,
}

// An execute answer.
#[derive(Clone, Copy)]
pub enum Execute {
    NotAsked,
    Denied,
    Conflict,
    ByMode(Mode),
}

impl Kind {
    // The number of a kind.
    pub fn number(self) -> u8
        ensures { result ≡ kind_number self }
    {
        self as u8
    }
}

impl Fallback {
    // The number of a fallback.
    pub fn number(self) -> u8
        ensures { result ≡ fallback_number self }
    {
        self as u8
    }
}

impl Execute {
    // The number of an execute answer: 0 not asked, 1 denied, 2 conflict, from 3 on the modes in the table's order.
    pub fn number(self) -> u8
        ensures { result ≡ execute_number self }
    {
        match self {
            Execute::NotAsked => 0,
            Execute::Denied => 1,
            Execute::Conflict => 2,
            Execute::ByMode(m) => mode_number(m),
        }
    }

    // An execute answer as document 01 writes it.
    #[tactic(auto, unfolding(scan::specs::Bytes::bytes))]
    pub fn word(self) -> &'static [u8]
        ensures { result.now ≡ execute_word self }
    {
        match self {
            Execute::NotAsked => b"-",
            Execute::Denied => b"denied",
            Execute::Conflict => b"conflict",
            Execute::ByMode(m) => mode_word(m),
        }
    }
}

// A row of the table: a mode as written, and the names of its kind and its fallback, and whether it scrubs.
macro_rules! row {
    ($word:literal, $kind:ident, $fallback:ident, $scrubs:literal) => {
        (
            $word,
            Mode {
                kind: Kind::$kind,
                fallback: Fallback::$fallback,
                scrubs: $scrubs,
            },
        )
    };
}

// The table of modes.
const MODES: [(&[u8], Mode); 15] = [
    row!(b"ux", Unconfined, Absent, false),
    row!(b"Ux", Unconfined, Absent, true),
    row!(b"px", Profile, Absent, false),
    row!(b"Px", Profile, Absent, true),
    row!(b"cx", Child, Absent, false),
    row!(b"Cx", Child, Absent, true),
    row!(b"ix", Inherit, Absent, false),
    row!(b"pix", Profile, Inherit, false),
    row!(b"Pix", Profile, Inherit, true),
    row!(b"cix", Child, Inherit, false),
    row!(b"Cix", Child, Inherit, true),
    row!(b"pux", Profile, Unconfined, false),
    row!(b"PUx", Profile, Unconfined, true),
    row!(b"cux", Child, Unconfined, false),
    row!(b"CUx", Child, Unconfined, true),
];

// The mode that a word names, if any.
pub fn mode_of(word: &[u8]) -> Option<Mode>
    ensures { result ≡ mode_in modes word.now }
{
    match MODES.iter().find(|row| word == row.0) {
        Some(row) => Some(row.1),
        None => None,
    }
}

// Whether two modes are the same.
pub fn same_mode(a: Mode, b: Mode) -> bool
    ensures { result ≡ same_mode a b }
{
    a == b
}

// The number of a mode: 3 and its place in the table, 255 where no row has it.
fn mode_number(mode: Mode) -> u8
    ensures { result ≡ number_in modes 3 mode }
{
    match MODES.iter().position(|row| mode == row.1) {
        Some(i) => i as u8 + 3,
        None => 255,
    }
}

// A mode as the table writes it; nothing where no row has it.
fn mode_word(mode: Mode) -> &'static [u8]
    ensures { result.now ≡ word_in modes mode }
{
    match MODES.iter().find(|row| mode == row.1) {
        Some(row) => row.0,
        None => b"",
    }
}
