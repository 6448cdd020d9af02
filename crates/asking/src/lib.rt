// Asking what was read once: what stands before and behind the walk over the records, and what it does with one of them.
#![tactic(auto)]

ghost use Rattle.std.specs.Prelude.{◌≡◌, List, [], ℕ, min, get_or, drop};
ghost use Rattle.pattern.specs.Table.{env};
ghost use Rattle.rule.specs.Places.{rule_of};
ghost use Rattle.text.specs.Places.{span_of};
ghost use Rattle.findings.specs.Weighed.{seen_findings};
ghost use Rattle.answer.specs.Answers.{whole_of};
ghost use Rattle.entries.specs.Entries.{entry_of, names_from, policy_in};
ghost use Rattle.asking.specs.Asking.{good_end, good_target, match_of};
ghost use Rattle.asking.specs.Steps.{concluded, first_named, matched_rule, out_of, query_of, refused_for, weighed_entry};

use answer::{Answer, Brief, fill, finish_brief, refused_brief};
use entries::{PROFILE_COUNT, PROFILES_AT, RULE_COUNT, Record, VARIABLE_COUNT};
use findings::{Findings, allow, deny};
use glob::{Matched, match_pattern};
use modes::Mode;
use names::{NAME_BYTES, name_form};
use perms::Perms;
use request::{is_bad_asked, is_bad_path};
use rule::Rule;
use rule_tail::takes_target;
use scan::{least, same_bytes, span};
use text::{Span, nowhere};
use variables::cell;
use words::{Words, words_of};

// The numbers of the refusals that are not the text's.
const LONG_TEXT: u8 = 1;

const BAD_PATH: u8 = 2;

const BAD_ASKED: u8 = 3;

const NO_PROFILE: u8 = 11;

// What is known of a request before the records are walked: the number of its refusal, or 0 and the number of its profile, how many
// variables are set, how many records there are, and the first words of the path.
#[derive(Clone, Copy)]
pub struct Query {
    pub refused: u8,
    pub profile: usize,
    pub variables: usize,
    pub count: usize,
    pub words: Words,
    pub asked: Perms,
    pub owner: bool,
}

// The refusal that needs no profile: 1, 2 or 3, or 0.
fn refused_for(text: &[u8], path: &[u8], asked: Perms) -> u8
    ensures { result ≡ refused_for text.now path.now asked.0 }
{
    if 65535 < text.len() {
        return LONG_TEXT;
    }
    if is_bad_path(path) {
        return BAD_PATH;
    }
    if is_bad_asked(asked) {
        return BAD_ASKED;
    }
    0
}

// The number of the first profile of this name.
fn find(text: &[u8], head: &[usize], name: &[u8]) -> Option<usize>
    ensures { result ≡ first_named name.now 0 (names_from text.now (drop 1120 head.now) (min 32 (get_or head.now 1249 0)) 0) }
{
    let n = least(32, cell(head, PROFILE_COUNT));
    for i in 0..n {
        let at = PROFILES_AT + 4 * i;
        if same_bytes(span(text, cell(head, at), cell(head, at + 1)), name) {
            return Some(i);
        }
    }
    None
}

// What is known of a request before the records, as many as these, are walked.
pub fn begin(
    text: &[u8],
    head: &[usize],
    records: usize,
    name: &[u8],
    path: &[u8],
    asked: Perms,
    owner: bool,
) -> Query
    ensures { result ≡ query_of text.now head.now records name.now path.now asked owner }
{
    let words = words_of(path);
    let number = refused_for(text, path, asked);
    if number != 0 {
        return Query {
            refused: number,
            profile: 0,
            variables: 0,
            count: 0,
            words,
            asked,
            owner,
        };
    }
    let Some(profile) = find(text, head, name) else {
        return Query {
            refused: NO_PROFILE,
            profile: 0,
            variables: 0,
            count: 0,
            words,
            asked,
            owner,
        };
    };
    Query {
        refused: 0,
        profile,
        variables: cell(head, VARIABLE_COUNT),
        count: least(records, cell(head, RULE_COUNT)),
        words,
        asked,
        owner,
    }
}

// Whether a record adds nothing: it is another profile's, or the words of its front are not the path's.
pub fn is_out(query: Query, entry: Record) -> bool
    ensures { (s : List ℕ) → result ≡ out_of query.words query.profile (entry_of s entry) }
{
    let rule = entry.rule;
    let front = entry.front;
    let words = query.words;
    (rule.profile != query.profile) | words::is_out(words, front)
}

// Whether a target is none, or has the form of one.
fn is_good_target(text: &[u8], transition: Option<Mode>, target: Span) -> bool
    ensures { result ≡ good_target transition (span_of text.now target) }
{
    let name = span(text, target.from.0, target.end.0);
    if name.len() == 0 {
        return true;
    }
    takes_target(transition) & name_form(name, true) & (name.len() <= NAME_BYTES)
}

// Whether a rule carries some of the seven permissions and has a good target, or none.
fn is_good_end(text: &[u8], rule: Rule) -> bool
    ensures { result ≡ good_end (rule_of text.now rule) }
{
    let perms = rule.perms;
    let transition = rule.transition;
    let target = rule.target;
    (perms.0 < 128) & is_good_target(text, transition, target)
}

// How the rule of a record that is not out matches.
fn matched(
    text: &[u8],
    head: &[usize],
    path: &[u8],
    variables: usize,
    owner: bool,
    rule: Rule,
) -> Matched
    ensures { result
        ≡ matched_rule text.now (env text.now head.now variables) (record { path = path.now; owner = owner }) (rule_of text.now rule) }
{
    let none = Matched {
        some: false,
        exact: false,
    };
    if rule.owner & !owner {
        return none;
    }
    let pattern = rule.pattern;
    let m = match_pattern(text, head, variables, pattern.from.0, pattern.end.0, path);
    if !m.some {
        return none;
    }
    if !is_good_end(text, rule) {
        return none;
    }
    m
}

// How a record matches a request, whatever is asked for.
pub fn match_record(
    text: &[u8],
    head: &[usize],
    name: &[u8],
    path: &[u8],
    owner: bool,
    entry: Record,
) -> Matched
    ensures { result ≡ match_of text.now (policy_in text.now head.now []) name.now path.now owner (entry_of text.now entry) }
{
    let query = begin(text, head, 0, name, path, Perms::READ, owner);
    if (query.refused != 0) | is_out(query, entry) {
        return Matched {
            some: false,
            exact: false,
        };
    }
    let rule = entry.rule;
    matched(text, head, path, query.variables, query.owner, rule)
}

// The findings with a record more.
pub fn weigh(
    text: &[u8],
    head: &[usize],
    path: &[u8],
    query: Query,
    entry: Record,
    found: Findings,
) -> Findings
    ensures { seen_findings text.now result
        ≡ weighed_entry text.now (env text.now head.now query.variables) (record { path = path.now; owner = query.owner }) (entry_of text.now entry) (seen_findings text.now found) }
{
    let rule = entry.rule;
    let m = matched(text, head, path, query.variables, query.owner, rule);
    if !m.some {
        return found;
    }
    if rule.deny {
        return deny(text, rule, found);
    }
    allow(text, m.exact, rule, found)
}

// The answer in the end, its target told by its place in the text.
pub fn conclude_brief(query: Query, found: Findings) -> Brief
    ensures { (s : List ℕ) → whole_of s result ≡ concluded query (seen_findings s found) }
{
    if query.refused == 0 {
        let asked = query.asked;
        return finish_brief(found, asked);
    }
    refused_brief(nowhere(query.refused))
}

// The same with the bytes of its target.
pub fn conclude(text: &[u8], query: Query, found: Findings) -> Answer
    ensures { result ≡ concluded query (seen_findings text.now found) }
{
    fill(text, conclude_brief(query, found))
}
