//! What callers know of stores.

ghost use Rattle.std.specs.Prelude.{◌≡◌, ℕ, ◌≤◌, false, is_some, true};
ghost use Rattle.std.specs.List.{AllByRecursion};
ghost use Rattle.std.specs.Map.{keys_of};
ghost use Rattle.policy_trait.specs.declared.rules.Outs.{Outs};
ghost use Rattle.engine_trait.specs.Accounts as accounts;
ghost use Rattle.engine_trait.specs.Accounts.{Account, is_kept, looked_up};
ghost use Rattle.rule_cache.specs.Named.{IsAccountOf, IsKeyBelow, IsToldApart, TellsBelow, key_by};
ghost use Rattle.rule_cache.specs.Stores.{IsStore, Store, store_without_rules, empty_store, lookup_of, looked_for, set_rules, store_with};
ghost use Rattle.rule_cache.specs.declared.key.Key.{Key as StoreKey};

use pump_words::Same;

/// A store is one after each call: the keys of each set are distinct and no more than its ways.
pub fn store_law()
    ensures made { (sets ways : ℕ) → 1 ≤ sets → 1 ≤ ways → IsStore (empty_store sets ways) }
    ensures find { (key : StoreKey) (store : Store) → IsStore store
        → IsStore (looked_for key store) }
    ensures keep { (key : StoreKey) (words : Outs ℕ) (store : Store) → IsStore store
        → IsStore (store_with key words store) }
    ensures clear { (store : Store) → IsStore store → IsStore (store_without_rules store) }
{}

/// Beside a store, an account that has its keys by their tags finds as it does and keeps as it does.
pub fn account_law<T: Same>()
    ensures apart { (tag_of : ℕ → T) (bound : ℕ) (store : Store) (key : StoreKey)
        → TellsBelow tag_of T.eq bound → IsKeyBelow bound key
        → AllByRecursion (IsKeyBelow bound) (keys_of (set_rules key store))
        → IsToldApart tag_of T.eq key store }
    ensures is_kept { (tag_of : ℕ → T) (account : Account T) (store : Store) (key : StoreKey)
        → IsAccountOf tag_of account store → IsToldApart tag_of T.eq key store
        → is_kept T.eq (key_by tag_of key) account ≡ is_some (lookup_of key store) }
    ensures hit { (tag_of : ℕ → T) (account : Account T) (store : Store) (key : StoreKey)
        → IsAccountOf tag_of account store → IsToldApart tag_of T.eq key store
        → is_some (lookup_of key store) ≡ true
        → IsAccountOf tag_of (looked_up T.eq (key_by tag_of key) account) (looked_for key store) }
    ensures miss { (tag_of : ℕ → T) (account : Account T) (store : Store) (key : StoreKey)
        → IsAccountOf tag_of account store → IsToldApart tag_of T.eq key store
        → is_some (lookup_of key store) ≡ false
        → IsAccountOf tag_of (looked_up T.eq (key_by tag_of key) account) (looked_for key store) }
    ensures keep { (tag_of : ℕ → T) (account : Account T) (store : Store) (key : StoreKey)
        (words : Outs ℕ) → IsAccountOf tag_of account store → IsToldApart tag_of T.eq key store
        → IsAccountOf tag_of (accounts.keeping T.eq (key_by tag_of key) account)
        (store_with key words store) }
{}
