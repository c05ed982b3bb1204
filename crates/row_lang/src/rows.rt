//! A row: what a call of the program is given, and what is due of it.

use std::num::NonZeroUsize;

/// What a file holds, or is to hold.
#[derive(Drop)]
pub enum Content {
    /// These bytes.
    Bytes(Vec<u8>),
    /// The file of the image that this source is assembled to.
    Source(Vec<u8>),
    /// The bytes of the file of this name, which lies beside the rows.
    Beside(String),
}

/// A file, by its name.
#[derive(Drop)]
pub struct File {
    /// The number of the line that tells it.
    pub line: u64,
    /// The name that the program asks for.
    pub name: String,
    /// What it holds, `None` where there is no file of that name.
    pub content: Option<Content>,
}

/// The input of a call.
#[derive(Drop)]
pub struct Input {
    /// All of its bytes.
    pub bytes: Vec<u8>,
    /// The most bytes that a read gives.
    pub piece: NonZeroUsize,
}

/// The numbers, counted from 0, of the calls that fail; of puts each with how many bytes of its piece it takes.
#[derive(Drop)]
pub struct Failing {
    /// Of the reads of the input.
    pub reads: Vec<u64>,
    /// Of the loads and saves of files, counted together.
    pub files: Vec<u64>,
    /// Of the puts on standard output.
    pub puts: Vec<(u64, usize)>,
    /// Of the puts on standard error.
    pub tells: Vec<(u64, usize)>,
}

/// What is due of a call.
#[derive(Drop)]
pub struct Due {
    /// The bytes on standard output.
    pub out: Vec<u8>,
    /// The bytes on standard error.
    pub err: Vec<u8>,
    /// The status, by its number.
    pub status: u8,
    /// How many bytes of the input are left, where that is asked.
    pub left: Option<u64>,
    /// What files hold afterwards.
    pub held: Vec<File>,
}

/// A row.
#[derive(Drop)]
pub struct Row {
    /// The number of the line that begins it.
    pub line: u64,
    /// What it is called.
    pub name: String,
    /// The words of each call, of which the same is due.
    pub calls: Vec<Vec<String>>,
    /// How many rules are kept in each run, where that is told: the same is due of all.
    pub caches: Vec<u64>,
    /// The files that are there.
    pub files: Vec<File>,
    /// The input.
    pub input: Input,
    /// The calls that fail.
    pub failing: Failing,
    /// What is due.
    pub due: Due,
}
