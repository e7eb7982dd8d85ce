ghost use Rattle.std.specs.Prelude.{◌≡◌};
ghost use Rattle.dp_session.specs.QueryLines.{end_line};

use arrayvec::ArrayString;
use itoa::Buffer;

/// The last line, in an array with room for two numbers of at most 40 digits and its words.
pub(crate) fn end_line(queries: u32, spent: u64) -> ArrayString<128>
    ensures { result.bytes ≡ end_line queries spent }
{
    let mut line = ArrayString::new();
    line.push_str("end ");
    line.push_str(Buffer::new().format(queries));
    line.push_str(" spent ");
    line.push_str(Buffer::new().format(spent));
    line.push_str("\n");
    line
}
