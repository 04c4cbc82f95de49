//! The fields of a line: a name, and the value behind it.
ghost use Rattle.std.specs.Prelude.{◌≡◌, ◌+◌, ◌≤◌, ◌++◌, length, IsTrue};
ghost use Rattle.std.specs.Char.{is_ascii};
ghost use Rattle.std.specs.List.{list_all};

use itoa::Integer;
use line_text::LongLine;

/// Adds a name and a number in decimal.
pub(crate) fn add_field<I: Integer>(line: &mut LongLine, name: &str, number: I)
    requires room { length line.old + length name.now + I.MAX_STR_LEN ≤ 256 }
    requires ascii { IsTrue (list_all is_ascii name.now) }
    ensures text { line.new ≡ line.old ++ name.now ++ I.text number }
    ensures len { length line.new ≤ length line.old + length name.now + I.MAX_STR_LEN }
{
    line.add_text(name);
    line.add_number(number);
}
