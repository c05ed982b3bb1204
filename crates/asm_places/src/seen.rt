//! What the lines so far have already, and no later line may have again.

ghost use Rattle.std.specs.Prelude.{◌≡◌, ℤ, ◌||◌, List, [], ◌∷◌, ◌++◌, is_some, OnOk, Some};
ghost use Rattle.std.specs.BTreeSet.{contains};
ghost use Rattle.std.specs.Ordering.{int_cmp};
ghost use Rattle.asm_read.specs.declared.statements.Line.{Line};
ghost use Rattle.asm_places.specs.Names.{names_with_label};
ghost use Rattle.asm_places.specs.Seen.{IsSeen, enters, is_again, is_named, sets_heap, some_before};
ghost use Rattle.asm_places.specs.Sizes.{harts_in, ram_in, version_in};

use asm_read::{Line, Name, Statement};
use asm_words::Names;
use std::alloc::{AllocError, Global};
use std::collections::BTreeSet;

/// What the lines so far have: a `.version`, a `.harts`, a `.ram`, a `.heap`, a `.entry` of each of these harts, and these names.
#[derive(Drop)]
pub(crate) struct Seen<'a> {
    version: bool,
    harts: bool,
    ram: bool,
    heap: bool,
    entries: BTreeSet<i64>,
    names: Names<'a>,
}

/// Gives the name of a line its place, if the line has one.
pub(crate) fn give_label<'a>(
    names: &mut Names<'a>,
    label: &Option<Name<'a>>,
    place: u32,
) -> Result<(), AllocError>
    ensures { OnOk result (names.new ≡ names_with_label names.old label.now place) }
{
    match label {
        Some(name) => names.give(name.text(), place),
        None => Ok(()),
    }
}

impl<'a> Seen<'a> {
    /// Before the first line.
    pub(crate) fn new(alloc: Global) -> Seen<'a>
        ensures { IsSeen result [] }
    {
        Seen {
            version: false,
            harts: false,
            ram: false,
            heap: false,
            entries: BTreeSet::new(alloc),
            names: Names::new(alloc),
        }
    }

    /// Whether a line so far has the name.
    pub(crate) fn has_label(&self, label: &Option<Name<'a>>) -> bool
        ensures { (before : List Line) → IsSeen self.now before →
            result ≡ is_named label.now before }
    {
        match label {
            Some(name) => self.names.place(name.text()).is_some(),
            None => false,
        }
    }

    /// Whether a line so far has a `.entry` of the hart.
    fn has_entry(&self, hart: &i64) -> bool
        ensures { (before : List Line) → IsSeen self.now before →
            result ≡ some_before (enters hart.now) before }
    {
        self.entries.contains(hart)
    }

    /// Whether this statement may stand once only, and stands in a line so far.
    fn is_second(&self, statement: &Statement<'_>) -> bool
        ensures { (before : List Line) → IsSeen self.now before →
            result ≡ is_again (Some statement.now) before }
    {
        match statement {
            Statement::Version(_) => self.version,
            Statement::Harts(_) => self.harts,
            Statement::Ram(_) => self.ram,
            Statement::Heap { .. } => self.heap,
            Statement::Entry { hart, .. } => self.has_entry(hart),
            _ => false,
        }
    }

    /// Whether the statement, if there is one, may stand once only, and stands in a line so far.
    pub(crate) fn is_again(&self, statement: &Option<Statement<'_>>) -> bool
        ensures { (before : List Line) → IsSeen self.now before →
            result ≡ is_again statement.now before }
    {
        match statement {
            Some(statement) => self.is_second(statement),
            None => false,
        }
    }

    /// Notes the statement.
    fn note_statement(&mut self, statement: &Option<Statement<'_>>) -> Result<(), AllocError>
        ensures names { self.new.names ≡ self.old.names }
        ensures version { self.new.version ≡
            (self.old.version || is_some (version_in statement.now)) }
        ensures harts { self.new.harts ≡ (self.old.harts || is_some (harts_in statement.now)) }
        ensures ram { self.new.ram ≡ (self.old.ram || is_some (ram_in statement.now)) }
        ensures heap { self.new.heap ≡ (self.old.heap || sets_heap statement.now) }
        ensures entries { OnOk result ((hart : ℤ) → contains int_cmp self.new.entries hart ≡
            (contains int_cmp self.old.entries hart || enters hart statement.now)) }
    {
        match statement {
            Some(Statement::Version(_)) => self.version = true,
            Some(Statement::Harts(_)) => self.harts = true,
            Some(Statement::Ram(_)) => self.ram = true,
            Some(Statement::Heap { .. }) => self.heap = true,
            Some(Statement::Entry { hart, .. }) => {
                self.entries.insert(*hart)?;
            }
            _ => {}
        }
        Ok(())
    }

    /// Notes what the line has.
    pub(crate) fn note(&mut self, line: &Line<'a>) -> Result<(), AllocError>
        ensures { OnOk result ((before : List Line) → IsSeen self.old before →
            IsSeen self.new (before ++ line.now ∷ [])) }
    {
        give_label(&mut self.names, &line.label, 0)?;
        self.note_statement(&line.statement)
    }
}
