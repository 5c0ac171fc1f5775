// Reads a script of calls to the monitor from standard input, makes them one after the other, and writes a line for each with every
// field of what it answered. docs/SCRIPT.md says how calls and answers are written.
#![tactic(auto)]

mod calls;

use answers::refusal::put_malformed;
use calls::make_call;
use monitor::parts::WORDS;
use monitor::reset::new_on;
use script::calls::Call;
use script::input::LineReader;
use std::io::{Stdin, Stdout};
use text::put::OctetWriter;

// Where the script is read from and the answers are written to, the buffers of both, and how many lines were read.
#[derive(Drop)]
struct Run<'a> {
    stdin: Stdin,
    stdout: Stdout,
    lines: LineReader<'a>,
    answers: OctetWriter<'a>,
    line: u64,
}

// The run ends: the script has, a line is no call, or the answers were not written.
#[derive(Clone, Copy)]
struct Stop;

impl<'a> Run<'a> {
    // Writes the answers that stand in their buffer.
    fn write_answers(&mut self) -> Result<(), Stop> {
        let written = self.stdout.write_all(self.answers.written());
        self.answers.clear();
        written.map_err(|_| Stop)
    }

    // Writes the answers, and reads more.
    fn read_on(&mut self) -> Result<(), Stop> {
        self.write_answers()?;
        self.lines.refill(self.stdin);
        Ok(())
    }

    // Reads the line that was found. One that is no call ends the run.
    fn read_line(&mut self, arguments: &mut OctetWriter) -> Result<Option<Call>, Stop> {
        self.line = self.line.saturating_add(1);
        let read = self.lines.read_found(arguments);
        self.lines.skip_line();
        let Ok(call) = read else {
            put_malformed(&mut self.answers, self.line, read);
            return Err(Stop);
        };
        Ok(call)
    }

    // Reads the next line if the buffer has all of it: its call, if there is one. If not, reads on.
    fn next_call(&mut self, arguments: &mut OctetWriter) -> Result<Option<Call>, Stop> {
        if !self.lines.find_line() {
            self.read_on()?;
            return Ok(None);
        }
        if self.lines.is_at_end() {
            return Err(Stop);
        }
        self.read_line(arguments)
    }

    // Makes the next call on the monitor's words, or writes the answers first if there is no room for another, which has at most 2048 octets.
    fn turn(&mut self, m: &mut [u64; WORDS], buffer: &mut [u8]) -> Result<(), Stop> {
        if self.answers.room() < 2048 {
            return self.write_answers();
        }
        let mut arguments = OctetWriter::new(buffer);
        if let Some(call) = self.next_call(&mut arguments)? {
            make_call(m, call, arguments.written(), &mut self.answers);
        }
        Ok(())
    }
}

// A proved loop has to end, and nothing says that the input does. So the loop has a number of turns that no run uses up.
fn main(rt: HostRuntime) {
    let mut input = [0u8; 262144];
    let mut arguments = [0u8; 262144];
    let mut output = [0u8; 65536];
    let mut words = [0u64; WORDS];
    new_on(&mut words, false);
    let mut run = Run {
        stdin: rt.stdin(),
        stdout: rt.stdout(),
        lines: LineReader::new(&mut input),
        answers: OctetWriter::new(&mut output),
        line: 0,
    };
    for _ in 0..u64::MAX {
        if run.turn(&mut words, &mut arguments).is_err() {
            break;
        }
    }
    let _ = run.write_answers();
}
