//! What a program reads and writes. No contract can say which bytes those are.

ghost use Rattle.std.specs.Prelude.{◌≡◌, length};
ghost use Rattle.std.specs.Io.{ReadsAtMost};
ghost use Rattle.lines.specs.Numbers.{letters_of, four_digit_text};

use std::io;
use std::io::Read;

/// Reads an input, as standard input or a file, over the front of a buffer, until that is full or the input ends; how many bytes that are.
/// An error is one of the reader's own; the buffer keeps its length, and its front may hold what was read before.
pub fn read_input<R: Read>(from: &mut R, buffer: &mut [u8]) -> io::Result<usize>
    ensures read { ReadsAtMost result buffer.new }
    ensures kept { length buffer.new ≡ length buffer.old }
{
    let mut done = 0;
    while done < buffer.len() {
        let n = from.read(&mut buffer[done..])?;
        if n == 0 {
            break;
        }
        done += n;
    }
    Ok(done)
}

/// Writes some bytes.
pub fn say(rt: &impl Print, words: &[u8]) -> io::Result<()> {
    rt.write_all(words)
}

/// Writes some bytes and a newline.
pub fn say_line(rt: &impl Print, words: &[u8]) -> io::Result<()> {
    say(rt, words)?;
    say(rt, b"\n")
}

/// Writes a number in decimal digits.
pub fn say_number(rt: &impl Print, n: usize) -> io::Result<()> {
    rt.print(n)
}

/// Writes the line of a refusal: number, position and part.
pub fn say_refusal(rt: &impl Print, number: u8, position: usize, part: u8) -> io::Result<()> {
    say(rt, b"refused ")?;
    say_number(rt, number as usize)?;
    say(rt, b" ")?;
    say_number(rt, position)?;
    say(rt, b" ")?;
    say_number(rt, part as usize)?;
    say(rt, b"\n")
}

/// The three letters of a tag.
pub fn letters(tag: u32) -> [u8; 3]
    ensures { result ≡ letters_of tag }
{
    [
        (tag / 65536 % 256) as u8,
        (tag / 256 % 256) as u8,
        (tag % 256) as u8,
    ]
}

/// The lowest four digits of a number, as document 000 writes a position.
pub fn four_digits(n: u32) -> [u8; 4]
    ensures { result ≡ four_digit_text n }
{
    [
        b'0' + (n / 1000 % 10) as u8,
        b'0' + (n / 100 % 10) as u8,
        b'0' + (n / 10 % 10) as u8,
        b'0' + (n % 10) as u8,
    ]
}
