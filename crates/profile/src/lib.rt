// The profiles of a text, and the whole text.
#![tactic(auto)]

ghost use Rattle.std.specs.Prelude.{◌≡◌, [], ◌≤◌, ◌<◌, min, leb, IfOk};
ghost use Rattle.tokens.specs.Tokens.{no_stop, token_at};
ghost use Rattle.pattern.specs.Table.{env};
ghost use Rattle.sizes.specs.Sizes.{Known};
ghost use Rattle.profile.specs.Profiles.{ends, file_within, profile_at, profiles_at};
ghost use Rattle.heads.specs.Places.{names_of};
ghost use Rattle.profile.specs.Places.{FileKept, Kept, OneMore, judged_of, seen_file, seen_profile, seen_profiles, seen_stopped};

use body::rules_at;
use heads::head_at;
use measure::sizes_of;
use preamble::preamble_at;
use scan::least;
use text::{Place, Refusal, Span, Stop, refusal_at};
use tokens::Read;

// The most rules of a text.
pub const RULES: usize = 512;

// The profiles of a text: profile i has the places of its name at 4 * i and 4 * i + 1 of the table, the place where its
// rules start at 4 * i + 2, and their number at 4 * i + 3. Numbers, since the table goes into the head that callers of C lend.
#[derive(Clone, Copy)]
pub struct Profiles {
    pub table: [usize; 128],
    pub count: usize,
}

// No profile.
fn no_profiles() -> Profiles
    ensures { result.count ≡ 0 }
{
    Profiles {
        table: [0; 128],
        count: 0,
    }
}

// ---- all profiles

// Whether no token stands at a place.
fn ends_at(text: &[u8], at: Place) -> bool
    ensures { result ≡ ends (token_at no_stop text.now at.0) }
{
    matches!(tokens::next_token(text, at, 0), Read::End(_))
}

// A profile: its name, where its rules start, how many they are and where reading goes on.
#[derive(Clone, Copy)]
pub struct ProfileRead {
    pub name: Span,
    pub rules: Place,
    pub count: usize,
    pub next: Place,
}

// The profile at a place, where the first k profiles are known and so many rules are left.
fn profile_at(
    text: &[u8],
    vars: &[usize],
    n: usize,
    sizes: &[usize; 132],
    table: &[usize; 128],
    k: usize,
    left: usize,
    at: Place,
) -> Result<ProfileRead, Stop>
    requires k_bound { k ≤ 32 }
    requires known { Known text.now vars.now n sizes.now }
    ensures { seen_profile (env text.now vars.now n) text.now result ≡ profile_at (leb 32 k) left (names_of text.now table.now k) (env text.now vars.now n) text.now at.0 }
{
    let head = head_at(text, table, k, at)?;
    let read = rules_at(text, vars, n, sizes, left, head.next)?;
    Ok(ProfileRead {
        name: head.name,
        rules: head.next,
        count: read.count,
        next: read.next,
    })
}

// One profile more.
fn with_profile(profiles: Profiles, name: Span, rules: Place, count: usize) -> Profiles
    requires { profiles.count < 32 }
    ensures { OneMore profiles name rules count result }
{
    let mut u = profiles;
    let i = u.count;
    u.table[4 * i] = name.from.0;
    u.table[4 * i + 1] = name.end.0;
    u.table[4 * i + 2] = rules.0;
    u.table[4 * i + 3] = count;
    u.count = i + 1;
    u
}

// The profiles, and how many rules they have.
#[derive(Clone, Copy)]
pub struct ProfilesRead {
    pub profiles: Profiles,
    pub rules: usize,
}

// The profiles from a place on, under the first n variables, whose sizes are known, where so many rules are allowed.
fn profiles_at(
    text: &[u8],
    vars: &[usize],
    n: usize,
    sizes: &[usize; 132],
    allowed: usize,
    at: Place,
) -> Result<ProfilesRead, Stop>
    requires { Known text.now vars.now n sizes.now }
    ensures result_value { seen_profiles (env text.now vars.now n) text.now result ≡ profiles_at 32 allowed [] (env text.now vars.now n) text.now at.0 }
    ensures kept { IfOk result (λ r. Kept (env text.now vars.now n) text.now allowed r) }
{
    let mut profiles = no_profiles();
    let mut place = at;
    let mut left = allowed;
    while !ends_at(text, place) {
        let k = profiles.count;
        let p = profile_at(text, vars, n, sizes, &profiles.table, k, left, place)?;
        profiles = with_profile(profiles, p.name, p.rules, p.count);
        left -= p.count;
        place = p.next;
    }
    Ok(ProfilesRead {
        profiles,
        rules: allowed - left,
    })
}

// ---- the whole text

// How many variables are set, the table of profiles, how many it has, and how many rules these have.
#[derive(Clone, Copy)]
pub struct FileRead {
    pub vars: usize,
    pub profiles: [usize; 128],
    pub count: usize,
    pub rules: usize,
}

// Reads a whole text, where so many rules are allowed, and sets its variables in the table.
fn file_at(text: &[u8], vars: &mut [usize; 1120], allowed: usize) -> Result<FileRead, Stop>
    ensures result_after { seen_stopped text.now vars.new result ≡ judged_of text.now (file_within allowed text.now) }
    ensures kept { IfOk result (λ f. FileKept text.now vars.new allowed f) }
{
    let p = preamble_at(text, vars)?;
    let n = p.count;
    let known = sizes_of(text, vars, n);
    let ps = profiles_at(text, vars, n, &known.table, allowed, p.next)?;
    let found = ps.profiles;
    let profiles = found.table;
    Ok(FileRead {
        vars: n,
        profiles,
        count: found.count,
        rules: ps.rules,
    })
}

// Judges a whole text, where so many rules have room, 512 at most, and sets its variables in the table. What stood there before is of no
// matter.
pub fn read(text: &[u8], vars: &mut [usize; 1120], rooms: usize) -> Result<FileRead, Refusal>
    ensures result_after { seen_file text.now vars.new result ≡ judged_of text.now (file_within (min 512 rooms) text.now) }
    ensures kept { IfOk result (λ f. FileKept text.now vars.new (min 512 rooms) f) }
{
    match file_at(text, vars, least(RULES, rooms)) {
        Ok(f) => Ok(f),
        Err(stop) => Err(refusal_at(text, stop)),
    }
}
