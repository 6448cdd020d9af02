// The assignments in front of the profiles.
#![tactic(auto)]

ghost use Rattle.std.specs.Prelude.{◌≡◌, [], true, ℕ, ◌+◌, ◌≤◌, ◌<◌, length, drop, IfOk};
ghost use Rattle.scan.specs.Bytes.{bytes, run, span};
ghost use Rattle.blanks.specs.Blanks.{in_line, stands_at};
ghost use Rattle.pattern.specs.Table.{env};
ghost use Rattle.variables.specs.Added.{room};
ghost use Rattle.preamble.specs.Preamble.{after_name, assignment_at, in_line_at, in_name, line_ends, name_fault, operator_from, preamble_at};
ghost use Rattle.preamble.specs.Places.{after_operator, assigned_of, given_to, next_fault, Opening, preamble_of, seen_operator, seen_preamble, Valued};

use blanks::{standing_at, stands_at};
use faults::value_fault;
use names::variable_fault;
use scan::{begins_at, end_of, span};
use text::{BAD_FORM, BAD_NAME, Place, Stop, TOO_MUCH, bytes_from, starts_with};
use tokens::{Read, next_token, stop_of};
use variables::{named, value_count, with_name, with_value};

// = or +=, and where reading goes on.
#[derive(Clone, Copy)]
pub struct Operator {
    pub adds: bool,
    pub next: Place,
}

// Whether a value was read, and where reading goes on.
#[derive(Clone, Copy)]
pub struct Values {
    pub given: bool,
    pub next: Place,
}

// How many variables are set, and which of them is given values.
#[derive(Clone, Copy)]
pub struct Opened {
    pub count: usize,
    pub w: usize,
}

// How many variables are set, and where reading goes on.
#[derive(Clone, Copy)]
pub struct Preamble {
    pub count: usize,
    pub next: Place,
}

// A blank other than LF.
fn is_in_line(b: u8) -> bool
    ensures { result ≡ in_line b }
{
    (b == b' ') | (b == b'\t') | (b == b'\r')
}

// The place of what stands next in the line.
fn in_line_at(text: &[u8], at: usize) -> usize
    ensures { result ≡ in_line_at text.now at }
{
    end_of(text, at, is_in_line)
}

// Whether no value stands at a place: the line or the text ends, or a comment begins.
fn line_ends(text: &[u8], at: usize) -> bool
    ensures { result ≡ line_ends (drop at text.now) }
{
    if let Some(b) = text.get(at) {
        return (*b == b'\n') | (*b == b'#');
    }
    true
}

// The operator at a place.
fn operator_at(text: &[u8], sign: usize) -> Option<Operator>
    ensures { (after : ℕ) → seen_operator text.now after result ≡ operator_from text.now after sign }
{
    if begins_at(text, sign, b'=') {
        return Some(Operator {
            adds: false,
            next: Place(sign + 1),
        });
    }
    if starts_with(bytes_from(text, sign), b"+=") {
        return Some(Operator {
            adds: true,
            next: Place(sign + 2),
        });
    }
    None
}

// The fault of the name from start to before end under the first n variables, where = or += follows it.
fn name_fault(text: &[u8], vars: &[usize], n: usize, adds: bool, start: usize, end: usize) -> u8
    ensures { result ≡ name_fault (env text.now vars.now n) adds (span text.now start end) }
{
    let number = named(text, vars, n, start, end);
    if adds {
        if number == 0 {
            return BAD_NAME;
        }
        return 0;
    }
    if number != 0 {
        return BAD_NAME;
    }
    if 32 <= n {
        return TOO_MUCH;
    }
    0
}

// The fault of the next value of variable w, which stands from a to before e.
fn next_fault(text: &[u8], vars: &[usize], w: usize, a: usize, e: usize) -> u8
    ensures { w < 32 → result ≡ next_fault (room vars.now w) (env text.now vars.now w) (span text.now a e) }
{
    if value_count(vars, w) < 16 {
        return value_fault(text, vars, w, a, e);
    }
    if span(text, a, e).len() == 0 {
        return BAD_FORM;
    }
    TOO_MUCH
}

// Gives variable w the values from a place on up to the line's end.
fn values_at(text: &[u8], vars: &mut [usize; 1120], w: usize, at: Place) -> Result<Values, Stop>
    requires { w < 32 }
    ensures { Valued text.now vars.old vars.new w (given_to text.now vars.old w at.0) result }
{
    let mut place = at;
    let mut given = false;
    loop {
        let from = place.0;
        let p = in_line_at(text, from);
        if line_ends(text, p) {
            return Ok(Values {
                given,
                next: Place(p),
            });
        }
        let r = next_token(text, Place(p), 0);
        let Read::Found(t) = r else {
            return Err(stop_of(r));
        };
        let a = t.from.0;
        let e = t.end.0;
        let number = next_fault(text, vars, w, a, e);
        if number != 0 {
            let start = t.start;
            return Err(Stop {
                number,
                place: start,
            });
        }
        with_value(vars, w, a, e);
        place = t.next;
        given = true;
    }
}

// The variable that is given values: the one of that name, or a new one.
fn open_name(
    text: &[u8],
    vars: &mut [usize; 1120],
    n: usize,
    adds: bool,
    start: usize,
    end: usize,
) -> Opened
    requires { name_fault (env text.now vars.old n) adds (span text.now start end) ≡ 0 }
    ensures opening { Opening text.now vars.new (env text.now vars.old n) adds (span text.now start end) result }
    ensures few { n ≤ 32 → result.count ≤ 32 }
{
    if adds {
        let found = named(text, vars, n, start, end);
        return Opened {
            count: n,
            w: found - 1,
        };
    }
    with_name(vars, n, start, end);
    Opened { count: n + 1, w: n }
}

// The first n variables after the assignment whose name stands from start to before end and whose operator stands at sign.
fn after_operator(
    text: &[u8],
    vars: &mut [usize; 1120],
    n: usize,
    start: usize,
    end: usize,
    sign: usize,
    adds: bool,
    next: Place,
) -> Result<Preamble, Stop>
    ensures result_after { seen_preamble text.now vars.new result ≡ assigned_of (env text.now vars.old n) (after_operator (env text.now vars.old n) text.now (span text.now start end) start sign (record { adds = adds; next = next.0 })) }
    ensures few { n ≤ 32 → IfOk result (λ p. p.count ≤ 32) }
{
    let fault = name_fault(text, vars, n, adds, start, end);
    if fault != 0 {
        return Err(Stop {
            number: fault,
            place: Place(start),
        });
    }
    let o = open_name(text, vars, n, adds, start, end);
    let v = values_at(text, vars, o.w, next)?;
    if v.given {
        return Ok(Preamble {
            count: o.count,
            next: v.next,
        });
    }
    Err(Stop {
        number: BAD_FORM,
        place: Place(sign),
    })
}

// The first n variables after the assignment whose name stands from start to before end.
fn after_name(
    text: &[u8],
    vars: &mut [usize; 1120],
    n: usize,
    start: usize,
    end: usize,
) -> Result<Preamble, Stop>
    requires { end < length text.now }
    ensures result_after { seen_preamble text.now vars.new result ≡ assigned_of (env text.now vars.old n) (after_name (env text.now vars.old n) text.now (span text.now start end) start end) }
    ensures few { n ≤ 32 → IfOk result (λ p. p.count ≤ 32) }
{
    let sign = in_line_at(text, end + 1);
    let Some(o) = operator_at(text, sign) else {
        return Err(stop_of(next_token(text, Place(end + 1), 0)));
    };
    after_operator(text, vars, n, start, end, sign, o.adds, o.next)
}

// A byte of an assigned name: a blank, #, NUL or } ends it.
fn is_in_name(b: u8) -> bool
    ensures { result ≡ in_name b }
{
    !((b == b' ')
        | (b == b'\t')
        | (b == b'\r')
        | (b == b'\n')
        | (b == b'#')
        | (b == 0)
        | (b == b'}'))
}

// Where an assigned name's bytes end.
fn name_end(text: &[u8], at: usize) -> usize
    ensures { result ≡ at + run in_name (drop at text.now) }
{
    end_of(text, at, is_in_name)
}

// The first n variables after the assignment whose @{ stands next at a place.
fn assignment_at(
    text: &[u8],
    vars: &mut [usize; 1120],
    n: usize,
    at: Place,
) -> Result<Preamble, Stop>
    requires { stands_at (bytes "@{") text.now at.0 ≡ true }
    ensures result_after { seen_preamble text.now vars.new result ≡ assigned_of (env text.now vars.old n) (assignment_at (env text.now vars.old n) text.now at.0) }
    ensures few { n ≤ 32 → IfOk result (λ p. p.count ≤ 32) }
{
    let first = standing_at(text, at).0;
    let start = first + 2;
    let end = name_end(text, start);
    if begins_at(text, end, b'}') {
        let number = variable_fault(span(text, start, end));
        if number != 0 {
            let place = Place(start);
            return Err(Stop { number, place });
        }
        return after_name(text, vars, n, start, end);
    }
    Err(Stop {
        number: BAD_FORM,
        place: Place(first),
    })
}

// Sets the variables of the assignments in front of the profiles, and says where the first profile may stand.
// What stood in the table before is of no matter; what a refusal leaves in it says nothing.
pub fn preamble_at(text: &[u8], vars: &mut [usize; 1120]) -> Result<Preamble, Stop>
    ensures result_after { seen_preamble text.now vars.new result ≡ preamble_of (preamble_at 512 [] text.now 0) }
    ensures few { IfOk result (λ p. p.count ≤ 32) }
{
    let mut count: usize = 0;
    let mut at = Place(0);
    let mut left: usize = 512;
    while stands_at(text, at, b"@{") {
        let a = assignment_at(text, vars, count, at)?;
        if left == 0 {
            return Err(Stop {
                number: TOO_MUCH,
                place: standing_at(text, at),
            });
        }
        count = a.count;
        at = a.next;
        left -= 1;
    }
    Ok(Preamble { count, next: at })
}
