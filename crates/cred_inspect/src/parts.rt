//! The parts of an input of `audit`: a script, a line that is exactly `report`, and a report.
ghost use Rattle.std.specs.Prelude.{◌≡◌, ◌+◌, ◌<◌, drop};
ghost use Rattle.std.specs.Option.{option_map};
ghost use Rattle.cred_inspect.specs.Parts as spec;

use cred_spelling::{first_line, is};

/// The line that ends the script.
const REPORT: &str = "report";

/// What stands before the first line that is exactly `report`, and what follows that line; `None`
/// where no line is.
pub fn input_parts(input: &[u8]) -> Option<(&[u8], &[u8])>
    ensures { option_map (λ parts. (parts.0.now, parts.1.now)) result ≡ spec.input_parts input.now }
{
    let mut rest = input;
    while !rest.is_empty() {
        let (line, _, _) = first_line(rest);
        let after = behind(rest, line.len());
        if is(line, REPORT) {
            return Some((&input[..input.len() - rest.len()], after));
        }
        rest = after;
    }
    None
}

/// What follows the first line, which has so many bytes, and its LF.
fn behind(bytes: &[u8], count: usize) -> &[u8]
    ensures { result.now ≡ drop (count + 1) bytes.now }
{
    if count < bytes.len() {
        &bytes[count + 1..]
    } else {
        &bytes[bytes.len()..]
    }
}
