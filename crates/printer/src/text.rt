// A text that grows line by line.
ghost use Rattle.std.specs.Prelude.{◌+◌, ◌*◌, ◌≤◌, length};
ghost use Rattle.printer.specs.Text.{line};
ghost use Rattle.printer.specs.Growing.{Grows};

use arrayvec::ArrayString;
use itoa::Buffer;

// No text is longer than 356 bytes.
pub const ROOM: usize = 512;

pub(crate) type Text = ArrayString<ROOM>;

pub(crate) fn push_line(text: &mut Text, name: &str, numbers: &[u64])
    requires { length text.old.bytes + (length name.now + 21 * length numbers.now + 1) ≤ 512 }
    ensures { Grows (length name.now + 21 * length numbers.now + 1) (line name.now numbers.now) text.old.bytes text.new.bytes }
{
    let mut digits = Buffer::new();
    text.push_str(name);
    for n in numbers {
        text.push_str(" ");
        text.push_str(digits.format(*n));
    }
    text.push_str("\n");
}
