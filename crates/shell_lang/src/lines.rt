//! A stream of bytes as lines.

ghost use Rattle.std.specs.Prelude.{◌≡◌, []};
ghost use Rattle.shell_lang.specs.Grammar.{line_answer};
ghost use Rattle.shell_lang.specs.Stream.{byte_answer, end_answer, line_after};

use crate::bad_command::BadCommand;
use crate::command::Command;
use crate::grammar::read_command;
use arrayvec::ArrayVec;
use std::marker::Model;

/// A reader of a stream of bytes as lines, which takes one byte at a time, and no memory. Of the line begun it keeps what
/// tells its answer: its first 257 bytes, where a line of more than 256 is too long. What it answers along a stream is said by
/// `stream_law`.
#[derive(Drop)]
pub struct Lines {
    begun: ArrayVec<u8, 257>,
}

impl Model for Lines {
    ghost use Rattle.std.specs.Prelude.{ℕ, List};

    ghost Value = { List ℕ };

    ghost view = { λ lines. lines.begun.items };
}

impl Lines {
    /// The reader before the first byte.
    pub fn new() -> Self
        ensures { result ≡ [] }
    {
        Lines {
            begun: ArrayVec::new(),
        }
    }

    /// Reads the line begun, and begins the next.
    fn read_begun(&mut self) -> Result<Command, BadCommand>
        ensures answer { result ≡ line_answer self.old }
        ensures line { self.new ≡ [] }
    {
        let answer = read_command(&self.begun);
        self.begun.clear();
        answer
    }

    /// Takes the next byte of the stream. A newline ends the line, which is read; at any other byte there is no answer.
    #[tactic(auto, unfolding(crate::specs::Stream::byte_answer, crate::specs::Stream::line_after))]
    pub fn push(&mut self, byte: u8) -> Option<Result<Command, BadCommand>>
        ensures answer { result ≡ byte_answer self.old byte }
        ensures line { self.new ≡ line_after self.old byte }
    {
        if byte == b'\n' {
            return Some(self.read_begun());
        }
        // A byte for which there is no room belongs to a line that is too long already.
        let _ = self.begun.try_push(byte);
        None
    }

    /// Ends the stream. A line that was begun is read; where no byte came behind the last newline there is no answer. The
    /// reader is then as it was before the first byte.
    #[tactic(auto, unfolding(crate::specs::Stream::end_answer))]
    pub fn finish(&mut self) -> Option<Result<Command, BadCommand>>
        ensures answer { result ≡ end_answer self.old }
        ensures line { self.new ≡ [] }
    {
        if self.begun.is_empty() {
            return None;
        }
        Some(self.read_begun())
    }
}
