// The answer to a text, a profile name and a request.
#![tactic(auto)]

ghost use Rattle.std.specs.Prelude.{◌≡◌, ◌≤◌};
ghost use Rattle.pattern.specs.Table.{env};
ghost use Rattle.profile.specs.Places.{profiles_from};
ghost use Rattle.weigh.specs.Weigh.{Fits};
ghost use Rattle.decide.specs.Decide.{answer_in, answer_of};
ghost use Rattle.decide.specs.Places.{found_from};

use answer::{Answer, finish, refused};
use perms::Perms;
use profile::{RULES, read};
use request::{is_bad_asked, is_bad_path};
use text::{Place, nowhere};
use weigh::findings_of;

// The numbers of the refusals that are not the text's: too long a text, a bad path, a bad asked set, no such profile.
const LONG_TEXT: u8 = 1;

const BAD_PATH: u8 = 2;

const BAD_ASKED: u8 = 3;

const NO_PROFILE: u8 = 11;

// The rules of a profile: where they start and how many they are.
#[derive(Clone, Copy)]
pub struct Rules {
    pub at: Place,
    pub count: usize,
}

// The rules of the first of n profiles that has this name.
fn find(text: &[u8], table: &[usize; 128], n: usize, name: &[u8]) -> Option<Rules>
    requires { n ≤ 32 }
    ensures { result ≡ found_from text.now table.now n 0 name.now }
{
    for i in 0..n {
        let from = table[4 * i];
        let end = table[4 * i + 1];
        if scan::same_bytes(scan::span(text, from, end), name) {
            return Some(Rules {
                at: Place(table[4 * i + 2]),
                count: table[4 * i + 3],
            });
        }
    }
    None
}

// The answer of an accepted text, by its first n variables and its profiles.
fn answer_in(
    text: &[u8],
    vars: &[usize; 1120],
    n: usize,
    profiles: &[usize; 128],
    count: usize,
    name: &[u8],
    path: &[u8],
    asked: Perms,
    owner: bool,
) -> Answer
    requires count_bound { count ≤ 32 }
    requires fits { Fits text.now path.now }
    ensures { result ≡ answer_in (env text.now vars.now n) (record { path = path.now; owner = owner }) asked.0 name.now (profiles_from (env text.now vars.now n) text.now profiles.now count 0) }
{
    let Some(rules) = find(text, profiles, count, name) else {
        return refused(nowhere(NO_PROFILE));
    };
    let found = findings_of(text, vars, n, path, owner, rules.count, rules.at);
    finish(text, found, asked)
}

// The answer to a request.
pub fn decide(text: &[u8], name: &[u8], path: &[u8], asked: Perms, owner: bool) -> Answer
    ensures { result ≡ answer_of text.now name.now path.now asked.0 owner }
{
    if 65535 < text.len() {
        return refused(nowhere(LONG_TEXT));
    }
    if is_bad_path(path) {
        return refused(nowhere(BAD_PATH));
    }
    if is_bad_asked(asked) {
        return refused(nowhere(BAD_ASKED));
    }
    let mut vars = [0usize; 1120];
    let f = match read(text, &mut vars, RULES) {
        Ok(f) => f,
        Err(refusal) => return refused(refusal),
    };
    answer_in(
        text,
        &vars,
        f.vars,
        &f.profiles,
        f.count,
        name,
        path,
        asked,
        owner,
    )
}
