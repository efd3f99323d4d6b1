//! Laws of the words of a credential, over the definitions that `to_words` and `of_words` are
//! proved to follow. There is nothing to run.
ghost use Rattle.cred_record.specs.WordLaws.{NoWordsSpellTwo, WordsAreTested};

/// No words spell two credentials.
#[tactic(auto, using(crate::proofs::WordLemmas::no_words_spell_two))]
pub fn no_words_spell_two()
    ensures { NoWordsSpellTwo }
{}

/// The test of words, by which shared words are sealed, holds exactly for a credential's.
#[tactic(auto, using(crate::proofs::WordLemmas::words_are_tested))]
pub fn words_are_tested()
    ensures { WordsAreTested }
{}
