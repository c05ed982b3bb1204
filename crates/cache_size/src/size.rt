//! The size of a rule cache.

ghost use Rattle.std.specs.Prelude.{◌≡◌};
ghost use Rattle.cache_size.specs.Sizes.{keeps_no_rule, one_set};

/// How many rules may be kept: in each of `sets` sets at most `ways`. A rule belongs to one set, by the group of its operation. With one set
/// the cache is fully associative: any rule may stand beside any other. With 0 ways no rule is kept.
#[derive(Clone, Copy, Debug, PartialEq, Eq)]
pub struct CacheSize {
    /// How many sets there are, at least 1.
    pub sets: u32,
    /// How many rules each set has room for.
    pub ways: u32,
}

impl CacheSize {
    /// One set of so many rules.
    pub fn one_set(ways: u32) -> CacheSize
        ensures { result ≡ one_set ways }
    {
        CacheSize { sets: 1, ways }
    }

    /// Whether no rule is kept.
    pub fn keeps_no_rule(self) -> bool
        ensures { result ≡ keeps_no_rule self }
    {
        self.ways == 0
    }
}
