//! Tests of rows: texts that are refused, each with its line, and a row with all that can be told of one.

use row_lang::{Content, File, Row, RowsEnd, escaped, read_rows};
use std::alloc::{AllocError, Global};
use std::test::Fail;

/// The line of a text that is refused, and why; nothing where it has rows.
fn refusal_of(alloc: Global, text: &str) -> Result<String, AllocError> {
    match read_rows(alloc, text) {
        Err(RowsEnd::Bad { line, wrong }) => format!(in alloc; "{line}: {wrong}"),
        Err(RowsEnd::Memory) => Err(AllocError),
        Ok(_) => Ok(String::new(alloc)),
    }
}

/// Texts that are no rows, each with the line that is refused, and why.
const REFUSED: &[(&str, &str)] = &[
    // Cut: within a row, before the count, within the count, and before everything.
    ("row a\nwords pump\nstatus 2\n", "3: the text is cut"),
    ("row a\nwords pump\nstatus 2\nend\n", "4: the text is cut"),
    (
        "row a\nwords pump\nstatus 2\nend\nrows\n",
        "5: a bad number",
    ),
    ("", "1: the text is cut"),
    ("# A comment.\n", "1: the text is cut"),
    // The count.
    ("rows 0\n", "1: the count of rows is another, or none"),
    (
        "row a\nwords pump\nstatus 2\nend\nrows 2\n",
        "5: the count of rows is another, or none",
    ),
    (
        "row a\nwords pump\nstatus 2\nend\nrows 1\nrow b\n",
        "6: something is behind the count of rows",
    ),
    // Keys.
    ("row a\nword pump\n", "2: unknown key"),
    ("row a\nstatus 2\nstatus 2\n", "3: given twice"),
    ("row a\ninput b\nsession\n    > c\n", "3: given twice"),
    ("row a\nfile b text c\nfile b text c\n", "3: given twice"),
    ("row a\nfail-puts 1 0\ntorn-puts 0 2\n", "3: given twice"),
    (
        "row a\nstatus 2\nend\n",
        "3: the row has no words or no status",
    ),
    (
        "row a\nwords pump\nend\n",
        "3: the row has no words or no status",
    ),
    ("words pump\n", "1: no row has begun"),
    ("row a\nrow b\n", "2: the row before has no end"),
    (
        "row a\nwords pump\nrows 0\n",
        "3: the row before has no end",
    ),
    // Names.
    ("row\n", "1: a name is missing or isn't one word"),
    (
        "row a\nwords pump\nstatus 2\nend\n\nrow a\n",
        "6: given twice",
    ),
    (
        "program a b\n    nop\n",
        "1: a name is missing or isn't one word",
    ),
    ("program a\n    nop\nprogram a\n", "3: given twice"),
    ("row a\nfile b\n", "2: a name is missing or isn't one word"),
    ("row a\nfile b program c\n", "2: no program has this name"),
    ("row a\nfile b bytes c\n", "2: unknown kind of content"),
    // Values.
    ("row a\nstatus 256\n", "2: a bad number"),
    ("row a\nleft x\n", "2: a bad number"),
    ("row a\ncaches\n", "2: a bad number"),
    ("row a\npieces 0\n", "2: a bad number"),
    ("row a\ntorn-tells 0\n", "2: a bad number"),
    ("row a\nfile b hex 5\n", "2: bad hexadecimal"),
    (
        "row a\nfile b hex\n    00 # five\n    0x\n",
        "4: bad hexadecimal",
    ),
    ("row a\nout b\\q\n", "2: a bad escape"),
    ("row a\nout\n    b\n    \\{9*4}\n", "4: a bad escape"),
    // Lines.
    (
        "row a\nout b\n    c\n",
        "2: this key has either text on its line or a block",
    ),
    ("    a\n", "1: no key is before this block"),
    (
        "row a\n  words pump\n",
        "2: a line begins with four blanks or with none",
    ),
    ("row a \n", "1: a blank too many"),
    ("row a\nout \tb\n", "2: a byte that ASCII doesn't print"),
];

#[test]
fn no_line_is_passed_over(rt: HostRuntime) -> Result<(), Fail> {
    for &(text, refusal) in REFUSED {
        let told = refusal_of(rt.alloc(), text)?;
        assert_eq!(rt; told.as_str(), refusal, "{text:?}");
    }
    Ok(())
}

/// A row with every key.
const WHOLE: &str = "program p
    nop

row the whole
words
    pump run image
    pump \"\" \\x20
caches 0 1
file image program p
file other text
    a\\n
    b
file third hex 00 fF
input \\{3*41}\\\\
pieces 2
fail-reads 3
fail-files 4
fail-puts 5
torn-puts 9 1
torn-tells 0 6
fail-tells 6
out
    c
err d\\x07
status 7
left 8
holds image nothing
holds other beside name
end

rows 1
";

/// Whether a file has that name and that content, as bytes, as a source, or beside the rows.
fn is_file(file: &File, name: &str, kind: &str, content: &[u8]) -> bool {
    let (told, bytes) = match &file.content {
        Some(Content::Bytes(bytes)) => ("bytes", bytes.as_slice()),
        Some(Content::Source(source)) => ("source", source.as_slice()),
        Some(Content::Beside(name)) => ("beside", name.as_bytes()),
        None => ("nothing", b"".as_slice()),
    };
    file.name.as_str() == name && told == kind && bytes == content
}

/// Whether the calls are those of the text: two, the second with an empty word and a blank, each with two numbers of rules.
fn is_called(row: &Row) -> bool {
    let [_, call] = row.calls.as_slice() else {
        return false;
    };
    let [_, empty, blank] = call.as_slice() else {
        return false;
    };
    empty.as_str() == "" && blank.as_str() == " " && row.caches.as_slice() == [0, 1].as_slice()
}

/// Whether the input and the calls that fail are those of the text.
fn is_given(row: &Row) -> bool {
    let (input, failing) = (&row.input, &row.failing);
    input.bytes.as_slice() == b"AAA\\".as_slice()
        && input.piece.get() == 2
        && failing.reads.as_slice() == [3].as_slice()
        && failing.files.as_slice() == [4].as_slice()
        && failing.puts.as_slice() == [(5, 0), (9, 1)].as_slice()
        && failing.tells.as_slice() == [(0, 6), (6, 0)].as_slice()
}

/// Whether what is due is what the text has, but for files.
fn is_due(row: &Row) -> bool {
    let due = &row.due;
    due.out.as_slice() == b"c\n".as_slice()
        && due.err.as_slice() == b"d\x07".as_slice()
        && due.status == 7
        && due.left == Some(8)
}

/// Whether the files are those of the text, before the call and after it.
fn has_files(row: &Row) -> bool {
    let [image, other, third] = row.files.as_slice() else {
        return false;
    };
    let [image_after, other_after] = row.due.held.as_slice() else {
        return false;
    };
    is_file(image, "image", "source", b"nop\n")
        && is_file(other, "other", "bytes", b"a\n\nb\n")
        && is_file(third, "third", "bytes", b"\x00\xFF")
        && is_file(image_after, "image", "nothing", b"")
        && is_file(other_after, "other", "beside", b"name")
}

#[test]
fn the_whole_row(rt: HostRuntime) -> Result<(), Fail> {
    let rows = read_rows(rt.alloc(), WHOLE).ok().ok_or("no rows")?;
    let [row] = rows.as_slice() else {
        return Err("one row".into());
    };
    assert!(rt; row.line == 4 && row.name.as_str() == "the whole");
    assert!(rt; is_called(row));
    assert!(rt; is_given(row));
    assert!(rt; is_due(row));
    assert!(rt; has_files(row));
    Ok(())
}

#[test]
fn bytes_are_told_as_a_row_has_them(rt: HostRuntime) -> Result<(), Fail> {
    let told = escaped(rt.alloc(), b"a \\\n\x07\xFF")?;
    assert!(rt; told.as_str() == "a \\\\\\n\\x07\\xFF");
    Ok(())
}
