//! Laws of secrecy over the start of every image.

ghost use Rattle.std.specs.Prelude.{◌≡◌, ℕ, Bool, List};
ghost use Rattle.image_format.specs.Conditions.{IsImage};
ghost use Rattle.image_format.specs.Picture.{Picture};
ghost use Rattle.turn_steps.specs.Feeds.{Tape};
ghost use Rattle.engine_trait.specs.Runs.{Item, run_along};
ghost use Rattle.policy_choice.specs.declared.basis.Basis.{Basis};
ghost use Rattle.rounds.specs.Course.{rounds};
ghost use Rattle.rounds.specs.Same.{ShowsSame};
ghost use Rattle.run_props.specs.Beside.{seen_by_four};
ghost use Rattle.run_props.specs.EngineRuns.{engine_along};
ghost use Rattle.run_props.specs.Safe.{IsSafe};
ghost use Rattle.secret_runs.specs.Pairs.{SameBeside, shows};
ghost use Rattle.secret_runs.specs.Same.{RunsAlike};
ghost use Rattle.pump_loader.specs.Wholes.{HiddenTag, hidden};
ghost use Rattle.secret_props.specs.Hidden.{asked_start, hidden_start, kept_start};

/// Along any list of turns and fed bytes, the runs of an image with any two lists of secret bytes differ in secret values alone, and what
/// their events tell without values is the same: pcs, ends, groups and tags, accesses, services and ranges.
pub fn secret_law()
    ensures { (basis : Basis) (g : Picture) (one other : List ℕ) (feed : Tape) (items : List Item)
        → IsImage g → RunsAlike shows SameBeside
        (run_along hidden (hidden_start basis one g) feed items)
        (run_along hidden (hidden_start basis other g) feed items) }
{}

/// The rounds of an image with any two lists of secret bytes show the same, whether rules are kept or not: the bytes that are put, the
/// order of turns, each hart's stop, and whether tag numbers ran out.
pub fn told_law()
    ensures asked { (eq : HiddenTag → HiddenTag → Bool) (basis : Basis) (g : Picture)
        (one other : List ℕ) (limit : ℕ) (feed : Tape) → IsImage g
        → ShowsSame (rounds eq hidden limit 0 (asked_start basis one g) feed)
        (rounds eq hidden limit 0 (asked_start basis other g) feed) }
    ensures kept { (eq : HiddenTag → HiddenTag → Bool) (basis : Basis) (g : Picture)
        (one other : List ℕ) (sets ways tags limit : ℕ) (feed : Tape) → IsImage g
        → ShowsSame (rounds eq hidden limit 0 (kept_start eq basis one sets ways tags g) feed)
        (rounds eq hidden limit 0 (kept_start eq basis other sets ways tags g) feed) }
{}

/// Along any list of turns and fed bytes, engines that keep rules have the same account with any two lists of secret bytes: counts, which
/// tags have words, and which rules are kept.
pub fn count_law()
    ensures { (eq : HiddenTag → HiddenTag → Bool) (basis : Basis) (g : Picture)
        (one other : List ℕ) (sets ways tags : ℕ) (feed : Tape) (items : List Item) → IsImage g
        → (engine_along eq hidden (kept_start eq basis other sets ways tags g) feed items).account
        ≡ (engine_along eq hidden (kept_start eq basis one sets ways tags g) feed items).account }
{}

/// Along any list of turns and fed bytes, what is said of each chosen one of the four policies holds of an image's run with any secret
/// bytes.
pub fn safe_law()
    ensures { (basis : Basis) (g : Picture) (bytes : List ℕ) (feed : Tape) (items : List Item)
        → IsImage g → IsSafe basis g
        (seen_by_four (run_along hidden (hidden_start basis bytes g) feed items).events) }
{}
