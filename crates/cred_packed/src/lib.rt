//! The credential as words of 64 bits, written and read: read it as part of `cred_record`, which
//! says what each word holds, and which words are a credential's.
#![tactic(auto)]

mod heads;
mod reading;
mod writing;

pub use heads::Head;
pub use reading::{
    group_count, group_from_valid, group_in, head_from_valid, ids_from_valid_words, ids_in,
    of_words, secure_bits,
};
pub use writing::{
    flags_with, group_word, head, id_words, to_words, word_of_groups, words_of_groups,
};
