//! Words, and words with a number after each.
ghost use Rattle.std.specs.Prelude.{◌≡◌, ◌≤◌, ◌+◌, ◌*◌, ◌++◌, decimal, length};
ghost use Rattle.cred_report.specs.Room.{NUMBER};

use crate::pen::Pen;

/// Writes the word.
#[inline(always)]
pub fn prepend_word(out: &mut Pen, word: &str)
    requires { length word.now ≤ out.old.room }
    ensures text { out.new.text ≡ word.now ++ out.old.text }
    ensures room { out.new.room + length word.now ≡ out.old.room }
{
    out.word(word)
}

/// Writes the word and the number, of 64 bits as a credential's number is.
#[inline(always)]
pub fn prepend_long(out: &mut Pen, word: &str, number: u64)
    requires { length word.now + NUMBER ≤ out.old.room }
    ensures text { out.new.text ≡ (word.now ++ decimal number) ++ out.old.text }
    ensures room { out.old.room ≤ out.new.room + (length word.now + NUMBER) }
{
    out.number(number);
    prepend_word(out, word)
}

/// Writes the word and the number, in decimal.
#[inline(always)]
pub fn prepend_number(out: &mut Pen, word: &str, number: u32)
    requires { length word.now + NUMBER ≤ out.old.room }
    ensures text { out.new.text ≡ (word.now ++ decimal number) ++ out.old.text }
    ensures room { out.old.room ≤ out.new.room + (length word.now + NUMBER) }
{
    prepend_long(out, word, u64::from(number))
}

/// Writes two words, each with its number.
#[inline(always)]
pub fn prepend_two(out: &mut Pen, first: (&str, u32), second: (&str, u32))
    requires { length first.0.now + length second.0.now + 2 * NUMBER ≤ out.old.room }
    ensures text { out.new.text ≡ (first.entry.0.now ++ decimal first.entry.1
        ++ second.entry.0.now ++ decimal second.entry.1) ++ out.old.text }
    ensures room { out.old.room
        ≤ out.new.room + (length first.entry.0.now + length second.entry.0.now + 2 * NUMBER) }
{
    prepend_number(out, second.0, second.1);
    prepend_number(out, first.0, first.1)
}

/// Writes three words, each with its number.
#[inline(always)]
pub fn prepend_three(out: &mut Pen, first: (&str, u32), second: (&str, u32), third: (&str, u32))
    requires { length first.0.now + length second.0.now + length third.0.now + 3 * NUMBER
        ≤ out.old.room }
    ensures text { out.new.text ≡ (first.entry.0.now ++ decimal first.entry.1
        ++ second.entry.0.now ++ decimal second.entry.1
        ++ third.entry.0.now ++ decimal third.entry.1) ++ out.old.text }
    ensures room { out.old.room ≤ out.new.room + (length first.entry.0.now
        + length second.entry.0.now + length third.entry.0.now + 3 * NUMBER) }
{
    prepend_number(out, third.0, third.1);
    prepend_two(out, first, second)
}

/// Writes the word and the label.
#[inline(always)]
pub fn prepend_label(out: &mut Pen, word: &str, label: u32)
    requires { length word.now + NUMBER ≤ out.old.room }
    ensures text { out.new.text ≡ (word.now ++ decimal label) ++ out.old.text }
    ensures room { out.old.room ≤ out.new.room + (length word.now + NUMBER) }
{
    out.label(label);
    prepend_word(out, word)
}
