//! The words of a credential that has no groups.
ghost use Rattle.std.specs.Prelude.{◌≡◌, ◌≢◌, ◌<◌, ℕ, List, [], true, take, slice_index};
ghost use Rattle.std.specs.Prelude.{MatchOption};
ghost use Rattle.cred_record.specs.Words.{are_words, credential_in, words_of, IsCredential};
ghost use Rattle.cred_record.specs.declared.layout.TheConstants.{GROUPS};

use crate::reading::group_count;
use cred_record::layout::{FLAGS, GROUPS};
use std::marker::Model;

/// The words of a credential that has no supplementary groups: those before the words of groups,
/// since all others are 0. Contracts see the credential.
#[derive(Clone, Copy, Debug, Drop)]
pub struct Head {
    words: [u64; GROUPS],
}

impl Model for Head {
    ghost use Rattle.std.specs.Prelude.{◌≡◌, [], take};
    ghost use Rattle.cred_record.specs.Credential.{Credential};
    ghost use Rattle.cred_record.specs.Words.{credential_in, words_of, IsCredential};
    ghost use Rattle.cred_record.specs.declared.layout.TheConstants.{GROUPS};

    ghost Value = { Credential };

    ghost view = { λ h. credential_in h.words };

    ghost invariant = { λ h. IsCredential (credential_in h.words)
        × ((credential_in h.words).groups ≡ [])
        × (take GROUPS (words_of (credential_in h.words)) ≡ h.words) };

    ghost inverse = { λ c. record { words = take GROUPS (words_of c) } };

    ghost inverse_ok = { λ h is k. record { words = is.2 k } };
}

impl Head {
    /// The head that has these words, which stand before those of groups of a credential. `None`
    /// exactly where that one has groups.
    pub fn of(words: [u64; GROUPS]) -> Option<Head>
        requires { (ws : List ℕ) × (are_words ws ≡ true) × (words ≡ take GROUPS ws) }
        ensures { (ws : List ℕ) → are_words ws ≡ true → words ≡ take GROUPS ws →
            MatchOption result ((credential_in ws).groups ≢ [])
            (λ head. head ≡ credential_in ws) }
    {
        if group_count(words[FLAGS]) == 0 {
            Some(Head { words })
        } else {
            None
        }
    }

    /// The word at a place.
    #[inline(always)]
    pub fn word(&self, place: usize) -> u64
        requires { place < GROUPS }
        ensures { result ≡ slice_index (words_of self.now) place }
    {
        self.words[place]
    }

    /// That it has no groups, and that its words are a credential's. There is nothing to run.
    pub fn is_credential(&self)
        ensures is { IsCredential self.now }
        ensures groups { self.now.groups ≡ [] }
    {
        let _ = &self.words;
    }
}
