// The form of the names of profiles and targets, and of variables.
#![tactic(auto)]

ghost use Rattle.std.specs.Prelude.{◌≡◌};
ghost use Rattle.scan.specs.Bytes.{every, letter};
ghost use Rattle.names.specs.Names.{name_byte, name_first, name_form, name_start, variable_byte, variable_fault, variable_form};

use scan::{holds_byte, is_between};
use text::{BAD_FORM, BAD_NAME};

// The most bytes of a name.
pub const NAME_BYTES: usize = 255;

// A letter.
fn is_letter(b: u8) -> bool
    ensures { result ≡ letter b }
{
    is_between(b'a', b'z', b) | is_between(b'A', b'Z', b)
}

// A byte that a name may begin with: a letter, a digit or /.
fn is_name_first(b: u8) -> bool
    ensures { result ≡ name_first b }
{
    is_letter(b) | is_between(b'0', b'9', b) | (b == b'/')
}

// A byte of a name.
fn is_name_byte(b: u8, quoted: bool) -> bool
    ensures { result ≡ name_byte quoted b }
{
    is_name_first(b)
        | (b == b'.')
        | (b == b'_')
        | (b == b'-')
        | (b == b'+')
        | (quoted & (b == b' '))
}

// Whether a name begins as names do.
fn begins_name(name: &[u8]) -> bool
    ensures { result ≡ name_start name.now }
{
    if let [first, ..] = name {
        return is_name_first(*first);
    }
    false
}

// Whether all bytes are those of a name.
fn are_name_bytes(name: &[u8], quoted: bool) -> bool
    ensures { result ≡ every (name_byte quoted) name.now }
{
    name.iter().all(|b| is_name_byte(*b, quoted))
}

// Whether these bytes have the form of a name of a profile or a target.
pub fn name_form(name: &[u8], quoted: bool) -> bool
    ensures { result ≡ name_form quoted name.now }
{
    begins_name(name) & are_name_bytes(name, quoted)
}

// ---- names of variables

// A letter, digit or underscore.
fn is_variable_byte(b: u8) -> bool
    ensures { result ≡ variable_byte b }
{
    is_letter(b) | is_between(b'0', b'9', b) | (b == b'_')
}

// Whether s has the form of a variable's name.
fn variable_form(s: &[u8]) -> bool
    ensures { result ≡ variable_form s.now }
{
    if let [first, rest @ ..] = s {
        return is_letter(*first) && rest.iter().all(|b| is_variable_byte(*b));
    }
    false
}

// The fault of an assigned name, 0 where it has none.
pub fn variable_fault(name: &[u8]) -> u8
    ensures { result ≡ variable_fault name.now }
{
    if holds_byte(name, b'"') {
        return BAD_FORM;
    }
    if variable_form(name) {
        return 0;
    }
    BAD_NAME
}
