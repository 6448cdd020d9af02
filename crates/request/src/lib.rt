// What a request may not be, whatever the text holds.
#![tactic(auto)]

ghost use Rattle.std.specs.Prelude.{◌+◌, ◌≤◌, ◌≡◌, ◌||◌, length, take, drop};
ghost use Rattle.scan.specs.Bytes.{holds};
ghost use Rattle.blanks.specs.Blanks.{nul};
ghost use Rattle.request.specs.Requests.{bad_asked, bad_path, doubled};

use perms::Perms;

// Whether one of the 16 bytes from a place on is a NUL, or a slash before a slash.
fn is_block_broken(path: &[u8], at: usize) -> bool
    requires { at + 17 ≤ length path.now }
    ensures { result ≡ (holds nul (take 16 (drop at path.now)) || doubled (take 17 (drop at path.now))) }
{
    let mut broken = false;
    for i in 0..16 {
        let byte = path[at + i];
        broken = broken | (byte == 0) | ((byte == b'/') & (path[at + i + 1] == b'/'));
    }
    broken
}

// Whether a short path holds a NUL or a slash behind a slash, in one pass.
fn is_short_broken(path: &[u8]) -> bool
    ensures { result ≡ (holds nul path.now || doubled path.now) }
{
    let mut broken = false;
    let mut slash = false;
    for b in path {
        let here = *b == b'/';
        broken = broken | (*b == 0) | (slash & here);
        slash = here;
    }
    broken
}

// Whether a path holds a NUL or a slash behind a slash, 16 bytes at a time.
// The path's last block is looked at first, and the one before it may reach into it.
fn is_broken(path: &[u8]) -> bool
    ensures { result ≡ (holds nul path.now || doubled path.now) }
{
    let n = path.len();
    if n < 17 {
        return is_short_broken(path);
    }
    let last = n - 17;
    let mut broken = is_block_broken(path, last) | (path[n - 1] == 0);
    for at in (0..last).step_by(16) {
        broken = broken | is_block_broken(path, at);
    }
    broken
}

// Whether a path is refused.
pub fn is_bad_path(path: &[u8]) -> bool
    ensures { result ≡ bad_path path.now }
{
    if path.len() == 0 {
        return true;
    }
    (4095 < path.len()) | (path[0] != b'/') | is_broken(path)
}

// Whether an asked set is refused.
pub fn is_bad_asked(asked: Perms) -> bool
    ensures { result ≡ bad_asked asked.0 }
{
    (asked.0 == 0) | (127 < asked.0)
}
