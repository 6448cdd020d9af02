// The words that no statement may start with.
#![tactic(auto)]

ghost use Rattle.std.specs.Prelude.{◌≡◌, drop};
ghost use Rattle.scan.specs.Bytes.{bytes, same, some};
ghost use Rattle.keywords.specs.Keywords.{barred, first_word, fixed_words, opening};

use text::Place;
use tokens::Read;

// The fixed words.
const FIXED: [&str; 23] = [
    "include",
    "abi",
    "alias",
    "capability",
    "network",
    "mount",
    "remount",
    "umount",
    "pivot_root",
    "ptrace",
    "signal",
    "dbus",
    "unix",
    "change_profile",
    "set",
    "link",
    "hat",
    "file",
    "mqueue",
    "io_uring",
    "userns",
    "all",
    "priority",
];

// Whether a word is one of the fixed words.
fn is_fixed(word: &[u8]) -> bool
    ensures { result ≡ some (λ k. same word.now (bytes k)) fixed_words }
{
    FIXED.iter().any(|k| word == k.as_bytes())
}

// Whether a statement may not start with a word, inside a profile or outside.
fn is_barred(word: &[u8], inside: bool) -> bool
    ensures { result ≡ barred inside word.now }
{
    is_fixed(word)
        | text::starts_with(word, b"^")
        | text::starts_with(word, b"priority=")
        | (inside & scan::same_bytes(word, b"profile"))
}

// Whether a byte stands at a place that such a word may begin with: a small letter or ^.
fn may_begin(text: &[u8], at: usize) -> bool
    ensures { result ≡ opening (drop at text.now) }
{
    if let Some(b) = text.get(at) {
        return scan::is_between(b'a', b'z', *b) | (*b == b'^');
    }
    false
}

// Whether the unquoted first word at a place is one that no statement may start with, inside a profile or outside.
pub fn is_not_taken(text: &[u8], at: Place, inside: bool) -> bool
    ensures { result ≡ first_word (barred inside) text.now at.0 }
{
    let place = blanks::standing_at(text, at);
    let from = place.0;
    if !may_begin(text, from) {
        return false;
    }
    let Read::Found(t) = tokens::next_token(text, place, b',') else {
        return false;
    };
    let word = tokens::content(text, t);
    !t.quoted & is_barred(word, inside)
}
