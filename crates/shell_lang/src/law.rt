//! What the reader of lines answers along a stream, for callers that reason about it.

ghost use Rattle.std.specs.Prelude.{◌≡◌, ◌++◌, ℕ, [], List, map};
ghost use Rattle.shell_lang.specs.Grammar.{line_answer};
ghost use Rattle.shell_lang.specs.Stream.{answers_along, end_answer, ended_lines, line_along, open_line};
ghost use Rattle.shell_lang.specs.Words.{Text};

/// From its start the reader answers, along any bytes, the lines that a newline ends, each as it is read alone; and where the
/// stream then ends, what stands behind the last newline. How the stream was cut into pieces is not to be seen in its
/// answers, nor in what it keeps.
pub fn stream_law()
    ensures lines { (bytes : List ℕ)
        → answers_along [] bytes ≡ map line_answer (ended_lines bytes) }
    ensures rest { (bytes : List ℕ)
        → end_answer (line_along [] bytes) ≡ end_answer (open_line bytes) }

    ensures pieces { (line : Text) (prefix back : List ℕ)
        → answers_along line (prefix ++ back)
        ≡ answers_along line prefix ++ answers_along (line_along line prefix) back }
    ensures kept { (line : Text) (prefix back : List ℕ)
        → line_along line (prefix ++ back) ≡ line_along (line_along line prefix) back }
{}
