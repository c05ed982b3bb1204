//! Which policies are chosen, and the texts that name them.

ghost use Rattle.std.specs.Prelude.{◌≡◌};
ghost use Rattle.std.specs.List.{list_all};
ghost use Rattle.policy_choice.specs.Choice.{choice_of, is_name, is_none, names_in, no_policy, times_named};

/// Which policies are chosen.
#[derive(Clone, Copy, Debug, PartialEq, Eq)]
pub struct Choice {
    /// Whether sealing is.
    pub seal: bool,
    /// Whether the policy of compartments is.
    pub comp: bool,
    /// Whether control-flow integrity is.
    pub flow: bool,
    /// Whether heap safety is.
    pub heap: bool,
    /// Whether secrecy is.
    pub secret: bool,
}

impl Choice {
    /// The choice of no policy.
    pub fn none() -> Choice
        ensures { result ≡ no_policy }
    {
        Choice {
            seal: false,
            comp: false,
            flow: false,
            heap: false,
            secret: false,
        }
    }

    /// Whether no policy is chosen.
    pub fn is_none(self) -> bool
        ensures { result ≡ is_none self }
    {
        !self.seal && !self.comp && !self.flow && !self.heap && !self.secret
    }
}

/// How often a list names a policy.
fn times_named(list: &[u8], name: &[u8]) -> usize
    ensures { result ≡ times_named (names_in list.now) name.now }
{
    list.split(|byte| *byte == b',')
        .filter(|part| *part == name)
        .count()
}

/// Whether the text is the name of a policy.
fn is_name(name: &[u8]) -> bool
    ensures { result ≡ is_name name.now }
{
    name == b"seal".as_slice()
        || name == b"comp".as_slice()
        || name == b"flow".as_slice()
        || name == b"heap".as_slice()
        || name == b"secret".as_slice()
}

/// Whether each part of the text between commas is the name of a policy.
fn are_names(list: &[u8]) -> bool
    ensures { result ≡ list_all is_name (names_in list.now) }
{
    list.split(|byte| *byte == b',').all(|part| is_name(part))
}

/// The choice that a text names: `none` is no policy. Any other is a list of the names `seal`, `comp`, `flow`, `heap` and
/// `secret` with commas between, in any order, none twice. `None` for any other text.
pub fn read_choice(text: &[u8]) -> Option<Choice>
    ensures { result ≡ choice_of text.now }
{
    if text == b"none".as_slice() {
        return Some(Choice::none());
    }
    let seal = times_named(text, b"seal");
    let comp = times_named(text, b"comp");
    let flow = times_named(text, b"flow");
    let heap = times_named(text, b"heap");
    let secret = times_named(text, b"secret");
    if !are_names(text) || seal > 1 || comp > 1 || flow > 1 || heap > 1 || secret > 1 {
        return None;
    }
    Some(Choice {
        seal: seal == 1,
        comp: comp == 1,
        flow: flow == 1,
        heap: heap == 1,
        secret: secret == 1,
    })
}
