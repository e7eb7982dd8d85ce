ghost use Rattle.std.specs.Prelude.{◌≡◌, ◌++◌, take, drop, ◌+◌, ◌<◌, ◌≤◌, length, vec_capacity, vec_len, IfOk};
ghost use Rattle.std.specs.List.{All};
ghost use Rattle.dp_ledger.specs.Disk.{put_at};
ghost use Rattle.dp_ledger.specs.MemDisk.{IsBlank};

use dp_count::NoMemory;
use std::alloc::Global;

/// Empty lists of bytes, each with room for `cap`.
pub(crate) fn new_blanks(alloc: Global, count: usize, cap: usize) -> Result<Vec<Vec<u8>>, NoMemory>
    ensures count { IfOk result (λ blanks. vec_len blanks ≡ count) }
    ensures blank { IfOk result (λ blanks. All (IsBlank cap) blanks.items) }
{
    let mut blanks = Vec::new(alloc);
    for _n in 0..count {
        blanks.push(Vec::with_capacity(alloc, cap)?)?;
    }
    Ok(blanks)
}

/// The bytes in one of the blanks.
pub(crate) fn copy_to_blank(blanks: &mut Vec<Vec<u8>>, cap: usize, bytes: &[u8]) -> Vec<u8>
    requires some { 0 < vec_len blanks.old }
    requires blank { All (IsBlank cap) blanks.old.items }
    requires fits { length bytes.now ≤ cap }
    ensures copy { result.items ≡ bytes.now }
    ensures rest { All (IsBlank cap) blanks.new.items }
    ensures count { vec_len blanks.new + 1 ≡ vec_len blanks.old }
{
    let Some(mut blank) = blanks.pop() else {
        unreachable!()
    };
    blank.extend_from_slice(bytes).unwrap();
    blank
}

/// Puts bytes at a place, and zeros in a gap before them.
pub(crate) fn put(content: &mut Vec<u8>, at: usize, bytes: &[u8])
    requires room { at + length bytes.now ≤ vec_capacity content.old }
    ensures put { content.new.items ≡ put_at at bytes.now content.old.items }
    ensures capacity { vec_capacity content.old ≤ vec_capacity content.new }
{
    let end = at + bytes.len();
    let len = content.len().max(end);
    content.resize(len, 0).unwrap();
    write_over(content, at, bytes);
}

/// Writes bytes over those at a place.
fn write_over(content: &mut [u8], at: usize, bytes: &[u8])
    requires { at + length bytes.now ≤ length content.old }
    ensures { content.new ≡ take at content.old ++ bytes.now ++ drop (at + length bytes.now) content.old }
{
    content[at..at + bytes.len()].copy_from_slice(bytes);
}

/// Makes the list the bytes, for which it has room.
pub(crate) fn replace(list: &mut Vec<u8>, bytes: &[u8])
    requires { length bytes.now ≤ vec_capacity list.old }
    ensures items { list.new.items ≡ bytes.now }
    ensures capacity { vec_capacity list.old ≤ vec_capacity list.new }
{
    list.clear();
    list.extend_from_slice(bytes).unwrap();
}
