// The PERMS words of rules.
#![tactic(auto)]

ghost use Rattle.std.specs.Prelude.{◌≡◌, ◌+◌, [], ◌∷◌, drop};
ghost use Rattle.scan.specs.Bytes.{run};
ghost use Rattle.perms.specs.Sets.{perms};
ghost use Rattle.perms_word.specs.Words.{perm_letter, other, carried, named, with_mode, word_of};

use modes::Mode;
use perms::Perms;

// What a PERMS word says: the permissions that it carries, and its mode if it has one.
#[derive(Clone, Copy)]
pub struct Word {
    pub perms: Perms,
    pub transition: Option<Mode>,
}

// What the byte of a PERMS word carries: the permission of its letter, with w also a; nothing for any other byte.
fn permission_of(b: u8) -> Perms
    ensures { result ≡ perms (carried (b ∷ [])) }
{
    match b {
        b'r' => Perms::READ,
        b'w' => Perms::WRITE.union(Perms::APPEND),
        b'a' => Perms::APPEND,
        b'm' => Perms::MAP,
        b'l' => Perms::LINK,
        b'k' => Perms::LOCK,
        b'x' => Perms::EXECUTE,
        _ => Perms(0),
    }
}

// The permissions that a word carries.
fn set_of(word: &[u8]) -> Perms
    ensures { result ≡ perms (carried word.now) }
{
    let mut set = Perms(0);
    for b in word {
        set = set.union(permission_of(*b));
    }
    set
}

// Whether a byte is a letter that stands by itself.
fn is_letter(b: u8) -> bool
    ensures { result ≡ perm_letter b }
{
    b"rwamlk".contains(&b)
}

// Where the letters from a place on end.
fn letters_end(word: &[u8], at: usize) -> usize
    ensures { result ≡ at + run perm_letter (drop at word.now) }
{
    scan::end_of(word, at, is_letter)
}

// Where the bytes from a place on that are no letters end.
fn mode_end(word: &[u8], at: usize) -> usize
    ensures { result ≡ at + run other (drop at word.now) }
{
    scan::end_of(word, at, |b| !is_letter(b))
}

// The set with its transition, where the word names a mode.
fn with_transition(set: Perms, transition: Option<Mode>) -> Option<Word>
    ensures { result ≡ named set transition }
{
    match transition {
        None => None,
        Some(_) => Some(Word {
            perms: set,
            transition,
        }),
    }
}

// The set with what the mode part of a word says.
fn with_mode(deny: bool, set: Perms, mode: &[u8]) -> Option<Word>
    ensures { result ≡ with_mode deny set mode.now }
{
    let without = Word {
        perms: set,
        transition: None,
    };
    if mode.len() == 0 {
        return Some(without);
    }
    if deny {
        if scan::same_bytes(mode, b"x") {
            return Some(without);
        }
        return None;
    }
    with_transition(set, modes::mode_of(mode))
}

// What a PERMS word says in a rule that allows, or in one that denies; nothing where it is no such word.
pub fn read_word(word: &[u8], deny: bool) -> Option<Word>
    ensures { result ≡ word_of deny word.now }
{
    if word.len() == 0 {
        return None;
    }
    let start = letters_end(word, 0);
    let end = mode_end(word, start);
    if letters_end(word, end) != word.len() {
        return None;
    }
    if word.contains(&b'w') & word.contains(&b'a') {
        return None;
    }
    with_mode(deny, set_of(word), &word[start..end])
}
