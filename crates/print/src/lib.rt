// Writing text, numbers and answers, for the programs.
#![tactic(auto)]

ghost use Rattle.std.specs.Prelude.{◌≡◌, [], take, not, if◌then◌else◌, nat_le, ◌==◌, IfOk, OnOk, decimal};
ghost use Rattle.std.specs.Io.KnownBytes.{Appends};
ghost use Rattle.modes.specs.Modes.{execute_word};

use modes::Execute;
use std::io;
use std::io::Write;

// Writes these bytes.
pub fn put<W: Write>(out: &mut W, bytes: &[u8]) -> io::Result<()>
    ensures { OnOk result (Appends (W.contents out.old) (W.contents out.new) bytes.now) }
{
    out.write_all(bytes)
}

// Writes a number.
pub fn put_number<W: Write>(out: &mut W, n: u64) -> io::Result<()>
    ensures { OnOk result (Appends (W.contents out.old) (W.contents out.new) (decimal n)) }
{
    write!(out, "{n}")
}

// Writes an execute answer as document 01 writes it.
pub fn put_execute<W: Write>(out: &mut W, execute: Execute) -> io::Result<()>
    ensures { OnOk result (Appends (W.contents out.old) (W.contents out.new) (execute_word execute)) }
{
    put(out, execute.word())
}

// Writes the first bytes of a target, as many as counted, or these words where it has none, and answers whether it has any.
pub fn put_target<W: Write>(
    out: &mut W,
    bytes: [u8; 255],
    len: usize,
    none: &[u8],
) -> io::Result<bool>
    ensures value { IfOk result (λ some. some ≡ not (len == 0)) }
    ensures written { OnOk result (Appends (W.contents out.old) (W.contents out.new) (if len == 0 then none.now else (if nat_le len 255 then take len bytes else []))) }
{
    if len == 0 {
        put(out, none)?;
        return Ok(false);
    }
    if let Some(target) = bytes.get(..len) {
        put(out, target)?;
    }
    Ok(true)
}
