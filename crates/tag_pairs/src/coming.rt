//! A pair of tags that comes to three tables, or to none of them.

ghost use Rattle.std.specs.Prelude.{◌≡◌, ◌<◌, [], ◌∷◌, ◌++◌, Contains, IfErr, OnErr, OnOk, length};
ghost use Rattle.tag_pairs.specs.Pairs.{ArePaired, paired};

use tag_intern::{InternEnd, Interner, TagTable};

/// Gives words to a pair of tags that is new: to its tags on their sides, and to the pair of their words. There is room for
/// it, so that memory alone can be wanting; then all three tables are as they were.
pub(crate) fn intern_new<A: TagTable, B: TagTable>(
    lefts: &mut A,
    rights: &mut B,
    pairs: &mut Interner<(u32, u32)>,
    tag: (A::Tag, B::Tag),
) -> Result<(), InternEnd>
    requires paired { ArePaired (A.state lefts.old) (B.state rights.old) pairs.old }
    requires absent { ¬ Contains
        (paired (A.state lefts.old) (B.state rights.old) pairs.old).tags tag }
    requires room { length pairs.old.tags < pairs.old.limit }

    ensures paired { OnOk result (ArePaired (A.state lefts.new) (B.state rights.new) pairs.new) }
    ensures grown { OnOk result (paired (A.state lefts.new) (B.state rights.new) pairs.new
        ≡ record (paired (A.state lefts.old) (B.state rights.old) pairs.old)
        { tags = (paired (A.state lefts.old) (B.state rights.old) pairs.old).tags ++ tag ∷ [] }) }

    // Neither side is full before the pairs are.
    ensures memory { IfErr result (λ end. end ≡ InternEnd.Memory) }
    ensures lefts { OnErr result (A.state lefts.new ≡ A.state lefts.old) }
    ensures rights { OnErr result (B.state rights.new ≡ B.state rights.old) }
    ensures pairs { OnErr result (pairs.new ≡ pairs.old) }
{
    let left_len = lefts.len();
    let right_len = rights.len();
    let left = lefts.intern(tag.0)?;
    let right = match rights.intern(tag.1) {
        Ok(right) => right,
        Err(end) => {
            lefts.cut(left_len);
            return Err(end);
        }
    };
    match pairs.intern((left, right)) {
        Ok(_) => Ok(()),
        Err(end) => {
            lefts.cut(left_len);
            rights.cut(right_len);
            Err(end)
        }
    }
}
