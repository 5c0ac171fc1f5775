// The lines of standard input, through a buffer. A line is shorter than the buffer.
ghost use Rattle.std.specs.Prelude.{◌≡◌, ◌≤◌, length};

use crate::calls::{CALLS, Call, NamedCall};
use crate::line::{LineError, read_line};
use std::io::{Read, Stdin};
use text::put::OctetWriter;
use text::words::skip_blocks;

// Where the next line begins in the buffer, how far it was searched for its line feed, and where the octets that were read end.
#[derive(Clone, Copy)]
pub struct Input {
    pub start: usize,
    pub searched: usize,
    pub filled: usize,
}

// The same places, in their order and within a buffer of n octets.
fn within(input: Input, n: usize) -> Input
    ensures { (result.start ≤ result.searched) × (result.searched ≤ result.filled) × (result.filled ≤ n) }
{
    let filled = input.filled.min(n);
    let searched = input.searched.min(filled);
    Input {
        start: input.start.min(searched),
        searched,
        filled,
    }
}

// The place of the first line feed, the end if there is none.
fn line_feed(part: &[u8]) -> usize
    ensures { result ≤ length part.now }
{
    let start = skip_blocks(part, |octet| octet == b'\n');
    match part[start..].iter().position(|octet| *octet == b'\n') {
        Some(n) => start + n,
        None => part.len(),
    }
}

// Searches on for the line feed, to where it is or to the end of what was read.
pub fn find_line(input: Input, buffer: &[u8]) -> Input
    ensures { (result.start ≤ result.searched) × (result.searched ≤ result.filled) × (result.filled ≤ length buffer.now) }
{
    let places = within(input, buffer.len());
    Input {
        searched: places.searched + line_feed(&buffer[places.searched..places.filled]),
        ..places
    }
}

// Reads the line that ends where the search did. One that no line feed ends is the last, and too long if it fills the buffer.
pub fn read_found(
    input: Input,
    calls: &[NamedCall],
    buffer: &[u8],
    arguments: &mut OctetWriter,
) -> Result<Option<Call>, LineError>
    ensures { length arguments.new.octets.now ≡ length arguments.old.octets.now }
{
    let places = within(input, buffer.len());
    if places.searched >= buffer.len() {
        return Err(LineError::TooLong);
    }
    read_line(calls, &buffer[places.start..places.searched], arguments)
}

// The places after a line whose line feed was found.
pub fn behind_line(input: Input) -> Input {
    if input.searched >= input.filled {
        return input;
    }
    let next = input.searched + 1;
    Input {
        start: next,
        searched: next,
        ..input
    }
}

// Reads more of the line whose line feed was not found, which is moved to the start of the buffer. A pipe gives what it has. Nothing comes where
// the input has ended, the read has failed, or the line is too long for the buffer.
pub fn refilled(mut stdin: Stdin, input: Input, buffer: &mut [u8]) -> Input
    ensures { (result.start ≤ result.searched) × (result.searched ≤ result.filled) × (result.filled ≤ length buffer.new) }
{
    let places = within(input, buffer.len());
    if places.start > 0 {
        buffer.copy_within(places.start..places.filled, 0);
    }
    let rest = places.filled - places.start;
    let got = stdin.read(&mut buffer[rest..]).unwrap_or(0);
    Input {
        start: 0,
        searched: rest,
        filled: rest + got,
    }
}

// The lines of an input whose buffer is lent, and whether the input has ended, which it may have at any place.
#[derive(Drop)]
pub struct LineReader<'a> {
    buffer: &'a mut [u8],
    input: Input,
    ended: bool,
    ghost start_in_order: { input.start ≤ input.searched },
    ghost searched_in_order: { input.searched ≤ input.filled },
    ghost in_bounds: { input.filled ≤ length buffer.now },
}

impl<'a> LineReader<'a> {
    // An input of which nothing was read.
    pub fn new(buffer: &'a mut [u8]) -> Self {
        LineReader {
            buffer,
            input: Input {
                start: 0,
                searched: 0,
                filled: 0,
            },
            ended: false,
        }
    }

    // Searches on for the line feed, and answers whether the buffer has all of the next line. The end of the input ends the last line.
    pub fn find_line(&mut self) -> bool {
        let unsearched = &self.buffer[self.input.searched..self.input.filled];
        self.input.searched += line_feed(unsearched);
        self.input.searched < self.input.filled || self.ended
    }

    // Whether the lines have ended.
    pub fn is_at_end(&self) -> bool {
        self.ended && self.input.start == self.input.filled
    }

    // Reads the line that was found.
    pub fn read_found(&self, arguments: &mut OctetWriter) -> Result<Option<Call>, LineError>
        ensures { length arguments.new.octets.now ≡ length arguments.old.octets.now }
    {
        if self.input.searched >= self.buffer.len() {
            return Err(LineError::TooLong);
        }
        let line = &self.buffer[self.input.start..self.input.searched];
        read_line(&CALLS, line, arguments)
    }

    // Goes behind the line that was found, and its line feed.
    pub fn skip_line(&mut self) {
        self.input.searched = self.input.filled.min(self.input.searched + 1);
        self.input.start = self.input.searched;
    }

    // Reads more of the line whose line feed was not found. Where nothing comes, no line follows it.
    pub fn refill(&mut self, stdin: Stdin) {
        self.input = refilled(stdin, self.input, self.buffer);
        self.ended = self.input.searched == self.input.filled;
    }
}
