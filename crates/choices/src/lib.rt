// The first choices of a pattern, held to a path before anything is expanded.
#![tactic(auto)]

ghost use Rattle.std.specs.Prelude.{◌≡◌, ◌<◌, drop};
ghost use Rattle.scan.specs.Bytes.{span};
ghost use Rattle.pattern.specs.Items.{alternatives};
ghost use Rattle.pattern.specs.Places.{item_end};
ghost use Rattle.pattern.specs.Table.{env, values_of};
ghost use Rattle.choices.specs.Choices.{leads, leads_on, some_leads, opens};

use ends::{item_end, seek};
use front::lead;
use parts::item_at;
use pattern::{ItemRead, PartRead};
use scan::{least, span};
use variables::{cell, named};

// The place behind the first item of the pattern from a to before e.
fn behind(text: &[u8], a: usize, e: usize) -> usize
    ensures { span text.now result e ≡ drop (item_end (span text.now a e) 0) (span text.now a e) }
{
    a + item_end(span(text, a, e), 0)
}

// Whether the first literals of a value begin a path and, where it is literals only, those of the pattern from a to before e
// go on, and the choices behind them, as many as the depth, may too.
#[cycle(alternative_leads_leads_on_may_open_value_leads)]
fn leads_on(
    text: &[u8],
    vars: &[usize],
    n: usize,
    depth: usize,
    value: &[u8],
    a: usize,
    e: usize,
    slash: bool,
    path: &[u8],
) -> bool
    ensures { result ≡ leads_on (leads (opens depth (env text.now vars.now n)) (span text.now a e)) slash path.now value.now }
{
    let Some(first) = lead(value, 0, value.len(), slash, path) else {
        return false;
    };
    let k = first.len;
    if k < value.len() {
        return true;
    }
    let left = span(path, k, path.len());
    let Some(next) = lead(text, a, e, first.slash, left) else {
        return false;
    };
    let m = next.len;
    let last = span(left, m, left.len());
    may_open(text, vars, n, depth, a + m, e, next.slash, last)
}

// Whether some value of variable w leads on.
#[cycle(alternative_leads_leads_on_may_open_value_leads)]
fn value_leads(
    text: &[u8],
    vars: &[usize],
    n: usize,
    depth: usize,
    w: usize,
    a: usize,
    e: usize,
    slash: bool,
    path: &[u8],
) -> bool
    requires { w < 32 }
    ensures { result ≡ some_leads (leads (opens depth (env text.now vars.now n)) (span text.now a e)) slash path.now (values_of text.now vars.now w) }
{
    for k in 0..least(16, cell(vars, 64 + w)) {
        let j = 96 + 2 * (16 * w + k);
        let value = span(text, cell(vars, j), cell(vars, j + 1));
        if leads_on(text, vars, n, depth, value, a, e, slash, path) {
            return true;
        }
    }
    false
}

// Whether some alternative of an alternation's body leads on.
#[cycle(alternative_leads_leads_on_may_open_value_leads)]
fn alternative_leads(
    text: &[u8],
    vars: &[usize],
    n: usize,
    depth: usize,
    body: &[u8],
    a: usize,
    e: usize,
    slash: bool,
    path: &[u8],
) -> bool
    ensures { result ≡ some_leads (leads (opens depth (env text.now vars.now n)) (span text.now a e)) slash path.now (alternatives body.now) }
{
    let mut i = 0;
    loop {
        let j = seek(body, i, b',');
        if leads_on(text, vars, n, depth, span(body, i, j), a, e, slash, path) {
            return true;
        }
        if body.len() <= j {
            return false;
        }
        i = j + 1;
    }
}

// Whether the first choices of the pattern from a to before e, as many as the depth, may begin a path, where a / stands
// before both, or not.
#[cycle(alternative_leads_leads_on_may_open_value_leads)]
pub fn may_open(
    text: &[u8],
    vars: &[usize],
    n: usize,
    depth: usize,
    a: usize,
    e: usize,
    slash: bool,
    path: &[u8],
) -> bool
    ensures { result ≡ opens depth (env text.now vars.now n) slash (span text.now a e) path.now }
{
    if depth == 0 {
        return true;
    }
    let i = item_at(text, a, e, 0);
    match i {
        ItemRead::Single(p) => match p {
            PartRead::Is(_) => true,
            PartRead::Use { start, end } => {
                let r = named(text, vars, n, start, end);
                if r == 0 {
                    return false;
                }
                let next = behind(text, a, e);
                value_leads(text, vars, n, depth - 1, r - 1, next, e, slash, path)
            }
            PartRead::Bad => true,
        },
        ItemRead::Among { start, end } => {
            let body = span(text, start, end);
            let next = behind(text, a, e);
            alternative_leads(text, vars, n, depth - 1, body, next, e, slash, path)
        }
    }
}
