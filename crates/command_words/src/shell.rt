//! Writes words of a `pstops` command line so that a shell reads them back.
ghost use Rattle.std.specs.Prelude.{◌≡◌, ◌++◌, ◌<◌, OnOk, flat_map, option_map};
ghost use Rattle.std.specs.Str.{chars};
ghost use Rattle.rules.specs.Numbers.{number_text};
ghost use Rattle.command_words.specs.Shell as meaning;

use lengths::{Grains, Number, print_number};
use std::alloc::AllocError;

/// Appends the text if `said` is true.
pub fn append_if(said: bool, text: &[u8], out: &mut Vec<u8>) -> Result<(), AllocError>
    ensures { OnOk result (out.new.items ≡ out.old.items ++ meaning.text_if said text.now) }
{
    if said {
        out.extend_from_slice(text)
    } else {
        Ok(())
    }
}

/// Whether a word begins with a minus sign, so that a command may take it for an option.
pub fn begins_with_minus(text: &str) -> bool
    ensures { result ≡ meaning.begins_with_minus text.now }
{
    text.as_bytes().starts_with(b"-")
}

/// Appends a length with its unit: the first of pt, mm, in and cm in which the length is a number from 0 to 99,999.999999999 with at most nine
/// decimals. Nothing is appended if there is no such unit.
pub fn append_length(length: Grains, out: &mut Vec<u8>) -> Result<(), AllocError>
    ensures { OnOk result (out.new.items ≡ out.old.items ++ meaning.length_text length) }
{
    if let Some(points) = in_units(length, 127) {
        return append_with_unit(points, b"pt", out);
    }
    if let Some(millimetres) = in_units(length, 360) {
        return append_with_unit(millimetres, b"mm", out);
    }
    if let Some(inches) = in_units(length, 9_144) {
        return append_with_unit(inches, b"in", out);
    }
    match in_units(length, 3_600) {
        Some(centimetres) => append_with_unit(centimetres, b"cm", out),
        None => Ok(()),
    }
}

fn append_with_unit(number: Number, unit: &[u8], out: &mut Vec<u8>) -> Result<(), AllocError>
    ensures { OnOk result (out.new.items ≡ out.old.items ++ (number_text number ++ unit.now)) }
{
    print_number(number, out)?;
    out.extend_from_slice(unit)
}

/// A length as a number of units. One unit is 10^9 times `grains` grains. None if this number would need more than nine decimals, or would be below
/// 0, or 100,000 or more.
fn in_units(length: Grains, grains: u128) -> Option<Number>
    requires { 0 < grains }
    ensures { result ≡ meaning.in_units length grains }
{
    let length = length.get();
    if length < 0 {
        return None;
    }
    let size = length.unsigned_abs();
    if size % grains != 0 {
        return None;
    }
    let billionths = size / grains;
    if billionths > 99_999_999_999_999 {
        return None;
    }
    Number::new(billionths as i64)
}

/// Appends the option `-s` with the number of sides of a signature, if this number is given.
pub fn append_sides(sides: Option<u32>, out: &mut Vec<u8>) -> Result<(), AllocError>
    ensures { OnOk result (out.new.items ≡ out.old.items ++ meaning.sides_option sides) }
{
    match sides {
        Some(sides) => {
            let alloc = *out.allocator();
            let text = format!(in alloc; " -s {sides}")?;
            out.extend_from_slice(text.as_str().as_bytes())
        }
        None => Ok(()),
    }
}

/// Appends the option `-d` with the width of a border, if there is a border.
pub fn append_border_option(border: Option<Grains>, out: &mut Vec<u8>) -> Result<(), AllocError>
    ensures { OnOk result (out.new.items ≡ out.old.items ++ meaning.border_option border) }
{
    match border {
        Some(width) => {
            out.extend_from_slice(b" -d ")?;
            append_length(width, out)
        }
        None => Ok(()),
    }
}

/// Appends the names of the input file and the output file. Nothing is appended for a file without a name, which is a standard stream. If only the
/// output file has a name, `/dev/stdin` is appended for the input.
pub fn append_files(
    infile: Option<&str>,
    outfile: Option<&str>,
    out: &mut Vec<u8>,
) -> Result<(), AllocError>
    ensures { OnOk result (out.new.items ≡ out.old.items
        ++ meaning.files_text (option_map (λ n. n.now) infile.entry) (option_map (λ n. n.now) outfile.entry)) }
{
    match (infile, outfile) {
        (None, None) => Ok(()),
        (Some(infile), None) => append_file(infile, out),
        // If an output file follows, `pstops` needs a name for standard input.
        (None, Some(outfile)) => {
            append_file("/dev/stdin", out)?;
            append_file(outfile, out)
        }
        (Some(infile), Some(outfile)) => {
            append_file(infile, out)?;
            append_file(outfile, out)
        }
    }
}

/// Appends a blank and the name of a file in single quotes. A name that begins with a minus sign gets `./` before it, so that a command doesn't read
/// it as an option.
fn append_file(name: &str, out: &mut Vec<u8>) -> Result<(), AllocError>
    ensures { OnOk result (out.new.items ≡ out.old.items ++ meaning.file_text name.now) }
{
    out.extend_from_slice(b" '")?;
    append_if(begins_with_minus(name), b"./", out)?;
    append_quoted(name, out)?;
    out.extend_from_slice(b"'")
}

fn append_quoted(name: &str, out: &mut Vec<u8>) -> Result<(), AllocError>
    ensures { OnOk result (out.new.items ≡ out.old.items ++ flat_map meaning.quoted_char (chars name.now)) }
{
    for letter in name.chars() {
        append_char(letter, out)?;
    }
    Ok(())
}

/// Appends a character of a text in single quotes. For a single quote, the quoted text ends, `\'` follows, and quoted text begins again. For a hidden
/// character, the quoted text also ends and begins again, with the character's bytes as octal digits in between, for example `$'\033'`.
fn append_char(letter: char, out: &mut Vec<u8>) -> Result<(), AllocError>
    ensures { OnOk result (out.new.items ≡ out.old.items ++ meaning.quoted_char letter) }
{
    if letter == '\'' {
        return out.extend_from_slice(b"'\\''");
    }
    let mut room = [0; 4];
    let bytes = letter.encode_utf8(&mut room).as_bytes();
    if !is_hidden(letter) {
        return out.extend_from_slice(bytes);
    }
    out.extend_from_slice(b"'$'")?;
    append_octal(bytes, out)?;
    out.extend_from_slice(b"''")
}

/// Appends each byte as a backslash and three octal digits.
fn append_octal(bytes: &[u8], out: &mut Vec<u8>) -> Result<(), AllocError>
    ensures { OnOk result (out.new.items ≡ out.old.items ++ flat_map meaning.octal_byte bytes.now) }
{
    for byte in bytes {
        let digits = [
            b'\\',
            b'0' + *byte / 64,
            b'0' + *byte / 8 % 8,
            b'0' + *byte % 8,
        ];
        out.extend_from_slice(&digits)?;
    }
    Ok(())
}

/// Whether a character is invisible and may change how other characters are shown: a control character, or one that sets the direction of text.
pub fn is_hidden(letter: char) -> bool
    ensures { result ≡ meaning.is_hidden letter }
{
    matches!(letter, '\0'..='\u{1f}' | '\u{7f}'..='\u{9f}' | '\u{61c}' | '\u{200e}'..='\u{200f}')
        || matches!(letter, '\u{202a}'..='\u{202e}' | '\u{2066}'..='\u{2069}')
}
