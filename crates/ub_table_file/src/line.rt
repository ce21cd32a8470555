ghost use Rattle.std.specs.Prelude.{◌≡◌, ◌≤◌, ◌+◌, ◌++◌, length, codes, decimal};

use arrayvec::ArrayString;
use itoa::Buffer;

/// A line that is told. It lies in the value itself, so that telling it takes no memory.
pub type Line = ArrayString<64>;

/// The line that is this text.
pub fn line(text: &str) -> Line
    requires { length text.now ≤ 64 }
    ensures { result.bytes ≡ text.now }
{
    let mut line = Line::new();
    line.push_str(text);
    line
}

/// A line with a number: this text, the number, and the line's end.
pub fn numbered_line(front: &str, number: u32) -> Line
    requires { length front.now ≤ 32 }
    ensures { result.bytes ≡ front.now ++ (decimal number ++ codes "\n") }
{
    let mut line = line(front);
    put_number(&mut line, number);
    line.push_str("\n");
    line
}

/// A line with two numbers: this text, the first number, that text, the second number, and the line's end.
pub fn twice_numbered_line(front: &str, first: u32, between: &str, second: u32) -> Line
    requires { length front.now + length between.now ≤ 32 }
    ensures { result.bytes
        ≡ front.now ++ (decimal first ++ (between.now ++ (decimal second ++ codes "\n"))) }
{
    let mut line = line(front);
    put_number(&mut line, first);
    line.push_str(between);
    put_number(&mut line, second);
    line.push_str("\n");
    line
}

// Puts a number after what the line has.
fn put_number(line: &mut Line, number: u32)
    requires { length line.old.bytes ≤ 54 }
    ensures bytes { line.new.bytes ≡ line.old.bytes ++ decimal number }
    ensures length { length line.new.bytes ≤ length line.old.bytes + 10 }
{
    line.push_str(Buffer::new().format(number));
}
