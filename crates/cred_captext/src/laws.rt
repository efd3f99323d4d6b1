//! A law of texts, over the definitions that `read_text` and `print_text` are proved to follow.
//! There is nothing to run.
ghost use Rattle.cred_captext.specs.Laws.{NoTextSaysTwo};

/// No text says two things of a file.
pub fn no_text_says_two()
    ensures { NoTextSaysTwo }
{}
