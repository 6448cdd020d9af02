// A table of rule records that the caller lends: filled by reading once, walked by each request.
#![tactic(auto)]

ghost use Rattle.std.specs.Prelude.{◌≡◌};
ghost use Rattle.entries.specs.Entries.{policy_in};
ghost use Rattle.entries.specs.Filled.{Filled};
ghost use Rattle.asking.specs.Asking.{asked_of};

use answer::Answer;
use asking::{begin, conclude, is_out, weigh};
use entries::{Record, Unread, judge, next_record, start};
use perms::Perms;
use weigh::no_findings;

// Fills the head and the table with what the text holds, and answers how many records that are. A text that is refused leaves both
// as found.
pub fn read(table: &mut [Record], head: &mut [usize], text: &[u8]) -> Result<usize, Unread>
    ensures { Filled text.now head.old table.old result head.new table.new }
{
    let n = judge(text, head, table.len())?;
    let mut at = start(head);
    for i in 0..n {
        // there is one: as many are to come as were counted
        let one = next_record(text, head, at).unwrap();
        table[i] = one.record;
        at = one.next;
    }
    Ok(n)
}

// The answer of what a head and a table hold of the text. A record that is out is not looked at further.
pub fn ask(
    table: &[Record],
    text: &[u8],
    head: &[usize],
    name: &[u8],
    path: &[u8],
    asked: Perms,
    owner: bool,
) -> Answer
    ensures { result ≡ asked_of text.now (policy_in text.now head.now table.now) name.now path.now asked.0 owner }
{
    let query = begin(text, head, table.len(), name, path, asked, owner);
    let mut found = no_findings();
    for entry in &table[..query.count] {
        if is_out(query, *entry) {
            continue;
        }
        found = weigh(text, head, path, query, *entry, found);
    }
    conclude(text, query, found)
}
