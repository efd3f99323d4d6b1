//! The lines of a text.
ghost use Rattle.std.specs.Prelude.{◌≡◌, ◌≢◌, ◌≤◌, ◌<◌, ◌∷◌, ℕ, true, length, slice_index};
ghost use Rattle.cred_spelling.specs.Lines as spec;
ghost use Rattle.cred_spelling.specs.Lines.{line_ends};

/// How many lines a text has.
pub fn line_count(bytes: &[u8]) -> usize
    ensures count { result ≡ length (spec.lines_of bytes.now) }
{
    if bytes.is_empty() {
        return 0;
    }
    let ends = end_count(bytes);
    if bytes[bytes.len() - 1] == b'\n' {
        ends
    } else {
        ends + 1
    }
}

/// How many bytes are looked at together: so few that the LF among them are counted in a byte, and
/// so the processor compares many at once.
const TOGETHER: usize = 240;

/// How many LF there are.
fn end_count(bytes: &[u8]) -> usize
    ensures count { result ≡ line_ends bytes.now }
    ensures few { result ≤ length bytes.now }
{
    let mut count = 0;
    let mut rest = bytes;
    while rest.len() > TOGETHER {
        let (together, after) = rest.split_at(TOGETHER);
        count += usize::from(few_ends(together));
        rest = after;
    }
    count + usize::from(few_ends(rest))
}

/// How many LF there are among few bytes.
fn few_ends(bytes: &[u8]) -> u8
    requires { length bytes.now ≤ 255 }
    ensures count { result ≡ line_ends bytes.now }
    ensures few { result ≤ length bytes.now }
{
    let mut count = 0;
    for byte in bytes {
        if *byte == b'\n' {
            count += 1;
        }
    }
    count
}

/// The first line, without its LF, the bytes after it, and whether each byte of the line is from
/// 0x20 to 0x7E.
pub fn first_line(bytes: &[u8]) -> (&[u8], &[u8], bool)
    requires { 0 < length bytes.now }
    ensures line { spec.lines_of bytes.now ≡ result.0.now ∷ spec.lines_of result.1.now }
    ensures printable { result.2 ≡ spec.is_printable result.0.now }
    ensures shorter { length result.1.now < length bytes.now }
{
    let end = printable_end(bytes);
    if end == bytes.len() {
        return (bytes, &bytes[end..], true);
    }
    if bytes[end] == b'\n' {
        return (&bytes[..end], &bytes[end + 1..], true);
    }
    let (line, after) = any_line(bytes);
    (line, after, is_printable(line))
}

/// The first line, without its LF, and the bytes after it.
pub(crate) fn any_line(bytes: &[u8]) -> (&[u8], &[u8])
    requires { 0 < length bytes.now }
    ensures line { spec.lines_of bytes.now ≡ result.0.now ∷ spec.lines_of result.1.now }
    ensures shorter { length result.1.now < length bytes.now }
{
    let end = line_end(bytes);
    if end < bytes.len() {
        (&bytes[..end], &bytes[end + 1..])
    } else {
        (bytes, &bytes[end..])
    }
}

/// The place of the first LF, or the length where there is none.
fn line_end(bytes: &[u8]) -> usize
    ensures within { result ≤ length bytes.now }
    ensures before { (k : ℕ) → k < result → slice_index bytes.now k ≢ 10 }
    ensures found { result < length bytes.now → slice_index bytes.now result ≡ 10 }
{
    bytes
        .iter()
        .position(|byte| *byte == b'\n')
        .unwrap_or(bytes.len())
}

/// The place of the first byte outside 0x20 to 0x7E, or the length where there is none.
fn printable_end(bytes: &[u8]) -> usize
    ensures within { result ≤ length bytes.now }
    ensures before { (k : ℕ) → k < result
        → spec.is_printable_byte (slice_index bytes.now k) ≡ true }
{
    bytes
        .iter()
        .position(|byte| !is_printable_byte(*byte))
        .unwrap_or(bytes.len())
}

/// Whether each byte of a line is from 0x20 to 0x7E.
fn is_printable(line: &[u8]) -> bool
    ensures { result ≡ spec.is_printable line.now }
{
    line.iter().all(|byte| is_printable_byte(*byte))
}

fn is_printable_byte(byte: u8) -> bool
    ensures { result ≡ spec.is_printable_byte byte }
{
    32 <= byte && byte <= 126
}
