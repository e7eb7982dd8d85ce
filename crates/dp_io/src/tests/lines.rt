//! Lines of texts in pieces of every size, the limit of a line, and reads that fail.
ghost use Rattle.std.specs.Prelude.{◌≡◌, ◌<◌, length, IfOk};

use super::*;

/// A shelf in memory with one file, "text", and a reader of its lines.
fn reader_of(
    alloc: Global,
    text: &[u8],
    piece: usize,
    fails: Vec<u64>,
) -> Result<(MemShelf, Lines), Fail>
    requires { 0 < piece }
    ensures { IfOk result (λ pair. pair.1.slot < length pair.0.rests) }
{
    let mut shelf = MemShelf::new(alloc, piece, fails);
    shelf.add(
        String::from_str(alloc, "text")?,
        Vec::from_slice(alloc, text)?,
    )?;
    let slot = shelf.open(alloc, "text")?;
    let lines = Lines::new(alloc, slot)?;
    Ok((shelf, lines))
}

/// Whether the next call answers so: with that line, with no more line, or with that fault.
fn is_next(
    shelf: &mut MemShelf,
    lines: &mut Lines,
    wanted: Result<Option<&[u8]>, LineFault>,
) -> bool
    requires { lines.old.slot < length shelf.old.rests }
    ensures same_slot { lines.new.slot ≡ lines.old.slot }
    ensures same_slots { length shelf.new.rests ≡ length shelf.old.rests }
{
    match (lines.next(shelf), wanted) {
        (Ok(true), Ok(Some(line))) => lines.line() == line,
        (Ok(false), Ok(None)) => lines.line().is_empty(),
        (Err(fault), Err(other)) => fault == other && lines.line().is_empty(),
        _ => false,
    }
}

/// Whether the text has those lines, in order, and no more.
fn reads_lines(alloc: Global, text: &[u8], piece: usize, wanted: &[&[u8]]) -> Result<bool, Fail>
    requires { 0 < piece }
{
    let (mut shelf, mut lines) = reader_of(alloc, text, piece, Vec::new(alloc))?;
    for line in wanted {
        if !is_next(&mut shelf, &mut lines, Ok(Some(line))) {
            return Ok(false);
        }
    }
    Ok(is_next(&mut shelf, &mut lines, Ok(None)) && is_next(&mut shelf, &mut lines, Ok(None)))
}

/// Whether the text has those lines, in pieces of 1 to 5 bytes, of 65,536 bytes and of all at once.
fn has_lines(alloc: Global, text: &[u8], wanted: &[&[u8]]) -> Result<bool, Fail> {
    for piece in 1..6 {
        if !reads_lines(alloc, text, piece, wanted)? {
            return Ok(false);
        }
    }
    Ok(reads_lines(alloc, text, 65_536, wanted)? && reads_lines(alloc, text, 1_000_000, wanted)?)
}

#[test]
fn lines_of_small_texts(rt: HostRuntime) -> Result<(), Fail> {
    let alloc = rt.alloc();
    let table: [(&[u8], &[&[u8]]); 7] = [
        (b"", &[]),
        (b"\n", &[b""]),
        (b"\n\n", &[b"", b""]),
        (b"a", &[b"a"]),
        (b"a\n", &[b"a"]),
        (b"a\r\n", &[b"a\r"]),
        (b"ab\n\nc\n\n\nlast", &[b"ab", b"", b"c", b"", b"", b"last"]),
    ];
    for (text, wanted) in table {
        assert!(rt; has_lines(alloc, text, wanted)?);
    }
    Ok(())
}

#[test]
fn line_of_65_536_bytes(rt: HostRuntime) -> Result<(), Fail> {
    let alloc = rt.alloc();
    let longest = vec![in alloc; b'x'; 65_536]?;
    assert!(rt; has_lines(alloc, &longest, &[&longest])?);
    let mut text = longest.clone()?;
    text.extend_from_slice(b"\ny")?;
    assert!(rt; has_lines(alloc, &text, &[&longest, b"y"])?);
    Ok(())
}

/// Whether the first line is too long, again and again, without a fault of the shelf.
fn is_too_long(alloc: Global, text: &[u8], piece: usize) -> Result<bool, Fail>
    requires { 0 < piece }
{
    let (mut shelf, mut lines) = reader_of(alloc, text, piece, Vec::new(alloc))?;
    let once = is_next(&mut shelf, &mut lines, Err(LineFault::TooLong));
    let again = is_next(&mut shelf, &mut lines, Err(LineFault::TooLong));
    Ok(once && again && shelf.failed() == 0)
}

#[test]
fn line_of_65_537_bytes_is_too_long(rt: HostRuntime) -> Result<(), Fail> {
    let alloc = rt.alloc();
    let mut text = vec![in alloc; b'x'; 65_537]?;
    assert!(rt; is_too_long(alloc, &text, 1)?);
    assert!(rt; is_too_long(alloc, &text, 65_536)?);
    assert!(rt; is_too_long(alloc, &text, 1_000_000)?);
    text.extend_from_slice(b"\ny\n")?;
    assert!(rt; is_too_long(alloc, &text, 1)?);
    assert!(rt; is_too_long(alloc, &text, 65_536)?);
    assert!(rt; is_too_long(alloc, &text, 1_000_000)?);
    Ok(())
}

/// Adds a line and its line feed.
fn push_line(text: &mut Vec<u8>, line: &[u8]) -> Result<(), Fail> {
    text.extend_from_slice(line)?;
    text.push(b'\n')?;
    Ok(())
}

#[test]
fn lines_longer_together_than_the_buffer(rt: HostRuntime) -> Result<(), Fail> {
    let alloc = rt.alloc();
    let first = vec![in alloc; b'a'; 50_000]?;
    let second = vec![in alloc; b'b'; 65_536]?;
    let third = vec![in alloc; b'c'; 65_535]?;
    let mut text = Vec::new(alloc);
    push_line(&mut text, &first)?;
    push_line(&mut text, &second)?;
    push_line(&mut text, &third)?;
    assert!(rt; has_lines(alloc, &text, &[&first, &second, &third])?);
    Ok(())
}

#[test]
fn reads_that_fail_lose_no_byte(rt: HostRuntime) -> Result<(), Fail> {
    let alloc = rt.alloc();
    let fails = vec![in alloc; 3, 5, 8]?;
    let (mut shelf, mut lines) = reader_of(alloc, b"ab\ncd", 2, fails)?;
    assert!(rt; is_next(&mut shelf, &mut lines, Err(LineFault::Failed)));
    assert!(rt; is_next(&mut shelf, &mut lines, Ok(Some(b"ab"))));
    assert!(rt; is_next(&mut shelf, &mut lines, Err(LineFault::Failed)));
    assert!(rt; is_next(&mut shelf, &mut lines, Ok(Some(b"cd"))));
    assert!(rt; is_next(&mut shelf, &mut lines, Ok(None)));
    assert_eq!(rt; shelf.failed(), 2);
    Ok(())
}

#[test]
fn no_read_while_a_line_feed_is_kept_or_after_the_end(rt: HostRuntime) -> Result<(), Fail> {
    let alloc = rt.alloc();
    let fails = vec![in alloc; 3, 5]?;
    let (mut shelf, mut lines) = reader_of(alloc, b"a\nb\n", 4, fails)?;
    assert!(rt; is_next(&mut shelf, &mut lines, Ok(Some(b"a"))));
    assert!(rt; is_next(&mut shelf, &mut lines, Ok(Some(b"b"))));
    assert_eq!(rt; shelf.failed(), 0);
    assert!(rt; is_next(&mut shelf, &mut lines, Err(LineFault::Failed)));
    assert!(rt; is_next(&mut shelf, &mut lines, Ok(None)));
    assert!(rt; is_next(&mut shelf, &mut lines, Ok(None)));
    assert_eq!(rt; shelf.failed(), 1);
    Ok(())
}

#[test]
fn whole_lines_before_a_read_that_fails_are_given(rt: HostRuntime) -> Result<(), Fail> {
    let alloc = rt.alloc();
    let fails = vec![in alloc; 4]?;
    let (mut shelf, mut lines) = reader_of(alloc, b"a\n\nbc\nde\n", 4, fails)?;
    assert!(rt; is_next(&mut shelf, &mut lines, Ok(Some(b"a"))));
    assert!(rt; is_next(&mut shelf, &mut lines, Ok(Some(b""))));
    assert!(rt; is_next(&mut shelf, &mut lines, Ok(Some(b"bc"))));
    assert!(rt; is_next(&mut shelf, &mut lines, Err(LineFault::Failed)));
    assert!(rt; is_next(&mut shelf, &mut lines, Ok(Some(b"de"))));
    assert!(rt; is_next(&mut shelf, &mut lines, Ok(None)));
    assert_eq!(rt; shelf.failed(), 1);
    Ok(())
}
