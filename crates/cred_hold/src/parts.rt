//! Parts of a credential, in words that are known to be one's.
ghost use Rattle.std.specs.Prelude.{◌≡◌, ℕ, List, ◌∷◌, [], take, drop, true};
ghost use Rattle.cred_record.specs.Words.{are_words, credential_in};
ghost use Rattle.cred_record.specs.declared.layout.TheConstants.{USER, PERMITTED, NAMESPACE};

use cred_caps::CapSet;
use cred_ids::Ids4;
use cred_packed::ids_from_valid_words;

/// The user ids and the group ids in the four words from `USER` on.
pub(crate) fn ids_from_valid(words: [u64; 4]) -> (Ids4, Ids4)
    requires { (ws : List ℕ) × (are_words ws ≡ true) × (words ≡ take 4 (drop USER ws)) }
    ensures { (ws : List ℕ) → are_words ws ≡ true → words ≡ take 4 (drop USER ws) →
        (result.0 ≡ (credential_in ws).uid) × (result.1 ≡ (credential_in ws).gid) }
{
    let [user, saved_user, group, saved_group] = words;
    let uid = ids_from_valid_words(user, saved_user);
    let gid = ids_from_valid_words(group, saved_group);
    (uid, gid)
}

/// The permitted, inheritable, effective, bounding and ambient set, in the five words from
/// `PERMITTED` on.
pub(crate) fn caps_from_valid(words: [u64; 5]) -> [CapSet; 5]
    requires { (ws : List ℕ) × (are_words ws ≡ true) × (words ≡ take 5 (drop PERMITTED ws)) }
    ensures { (ws : List ℕ) → are_words ws ≡ true → words ≡ take 5 (drop PERMITTED ws) →
        result ≡ (credential_in ws).perm ∷ (credential_in ws).inh ∷ (credential_in ws).eff
        ∷ (credential_in ws).bound ∷ (credential_in ws).amb ∷ [] }
{
    let [perm, inh, eff, bound, amb] = words;
    [
        CapSet::from_valid(perm),
        CapSet::from_valid(inh),
        CapSet::from_valid(eff),
        CapSet::from_valid(bound),
        CapSet::from_valid(amb),
    ]
}

/// The user namespace, in the one word at `NAMESPACE`.
pub(crate) fn ns_from_valid(words: [u64; 1]) -> u32
    requires { (ws : List ℕ) × (are_words ws ≡ true) × (words ≡ take 1 (drop NAMESPACE ws)) }
    ensures { (ws : List ℕ) → are_words ws ≡ true → words ≡ take 1 (drop NAMESPACE ws) →
        result ≡ (credential_in ws).ns }
{
    let [ns] = words;
    ns as u32
}
