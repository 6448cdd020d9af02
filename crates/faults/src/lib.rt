// What is refused of a value or a pattern, by the numbers of document 01; 0 where nothing is.
#![tactic(auto)]

ghost use Rattle.std.specs.Prelude.{◌≡◌};
ghost use Rattle.scan.specs.Bytes.{span};
ghost use Rattle.pattern.specs.Faults.{value_fault};
ghost use Rattle.pattern.specs.Table.{env};
ghost use Rattle.faults.specs.Sized.{size_fault, fault_by};

use form::{pattern_form, pattern_names, value_form, value_names};
use measure::pattern_size;
use scan::span;
use sizes::Size;

// The fault of the value from a to before e under the first n variables.
pub fn value_fault(text: &[u8], vars: &[usize], n: usize, a: usize, e: usize) -> u8
    ensures { result ≡ value_fault (env text.now vars.now n) (span text.now a e) }
{
    let s = span(text, a, e);
    if s.len() == 0 {
        return 4;
    }
    if 1024 < s.len() {
        return 9;
    }
    if value_form(text, a, e) {
        if value_names(text, vars, n, a, e) {
            return 0;
        }
        return 6;
    }
    7
}

// The fault of a pattern by its size.
fn size_fault(z: Size) -> u8
    ensures { result ≡ size_fault z }
{
    if (256 < z.count) | (1024 < z.longest) {
        return 9;
    }
    if z.slashed & !z.empty {
        return 0;
    }
    7
}

// The fault of the pattern from a to before e under the first n variables by a table of their sizes.
pub fn pattern_fault(
    text: &[u8],
    vars: &[usize],
    n: usize,
    sizes: &[usize; 132],
    a: usize,
    e: usize,
) -> u8
    ensures { result ≡ fault_by text.now vars.now n sizes.now (span text.now a e) }
{
    let s = span(text, a, e);
    if 1024 < s.len() {
        return 9;
    }
    if pattern_form(text, a, e) {
        if pattern_names(text, vars, n, a, e) {
            return size_fault(pattern_size(text, vars, n, sizes, a, e));
        }
        return 6;
    }
    7
}
