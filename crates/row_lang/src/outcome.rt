//! What is due of a call beside what came of it.

ghost use Rattle.std.specs.Prelude.{◌≡◌, ◌≢◌, ◌↔◌, ◌<◌, ℕ, All, IsTrue, IsNone, IfSome, length, slice_index, vec_len};
ghost use Rattle.row_lang.specs.Compared.{IsAsDue, bytes_held, files_held};

/// What a call of the program leaves, as far as a row asks.
#[derive(Drop)]
pub struct Outcome {
    /// The bytes on standard output.
    pub out: Vec<u8>,
    /// The bytes on standard error.
    pub err: Vec<u8>,
    /// The status, by its number.
    pub status: u8,
    /// How many bytes of the input are left, where that is asked.
    pub left: Option<u64>,
    /// What the files hold that are asked for, `None` where there is no file.
    pub held: Vec<Option<Vec<u8>>>,
}

/// Whether two files hold the same bytes, or neither is there.
fn is_same_file(due: &Option<Vec<u8>>, came: &Option<Vec<u8>>) -> bool
    ensures { IsTrue result ↔ (bytes_held due.now ≡ bytes_held came.now) }
{
    match (due, came) {
        (Some(due), Some(came)) => due.as_slice() == came.as_slice(),
        (None, None) => true,
        _ => false,
    }
}

/// Whether that holds of each two files, and there are as many.
fn are_same_files(due: &[Option<Vec<u8>>], came: &[Option<Vec<u8>>]) -> bool
    ensures { IsTrue result ↔ (files_held due.now ≡ files_held came.now) }
{
    match (due, came) {
        ([], []) => true,
        ([one, due @ ..], [other, came @ ..]) => {
            is_same_file(one, other) && are_same_files(due, came)
        }
        _ => false,
    }
}

/// Whether all came that is due, and nothing else.
pub fn is_as_due(due: &Outcome, came: &Outcome) -> bool
    ensures { IsTrue result ↔ IsAsDue due.now came.now }
{
    due.out.as_slice() == came.out.as_slice()
        && due.err.as_slice() == came.err.as_slice()
        && due.status == came.status
        && due.left == came.left
        && are_same_files(&due.held, &came.held)
}

/// What is due of each call of a row, and what came of each.
#[derive(Drop)]
pub struct Ran {
    /// What is due of each.
    pub due: Outcome,
    /// What came, call by call.
    pub came: Vec<Outcome>,
}

/// Whether a row is as told: some call was made, and of each came what is due.
pub fn is_as_told(ran: &Ran) -> bool
    ensures { IsTrue result ↔ ((0 < vec_len ran.now.came)
        × All (IsAsDue ran.now.due) ran.now.came.items) }
{
    !ran.came.is_empty() && ran.came.iter().all(|came| is_as_due(&ran.due, came))
}

/// The first place at which two lists of bytes differ, or at which one of them ends.
pub fn first_difference(due: &[u8], came: &[u8]) -> Option<usize>
    ensures same { IsNone result ↔ (due.now ≡ came.now) }
    ensures before { IfSome result (λ place. (k : ℕ) → k < place →
        slice_index due.now k ≡ slice_index came.now k) }
    ensures differs { IfSome result (λ place. place < length due.now → place < length came.now →
        slice_index due.now place ≢ slice_index came.now place) }
{
    if due == came {
        return None;
    }
    let most = due.len().min(came.len());
    for place in 0..most {
        if due[place] != came[place] {
            return Some(place);
        }
    }
    Some(most)
}
