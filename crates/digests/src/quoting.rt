//! Names in messages, quoted as `sha256sum` quotes them if its locale is UTF-8.
use std::alloc::AllocError;

/// Adds a name to a text, in quotes if a shell would not take it as it stands.
///
/// # Errors
///
/// `AllocError` if memory is refused.
pub fn push_quoted(text: &mut String, name: &[u8]) -> Result<(), AllocError> {
    match std::str::from_utf8(name) {
        Ok(name) if !needs_quotes(name) => text.push_str(name),
        Ok(name) if fits_double_quotes(name) => {
            text.push('"')?;
            text.push_str(name)?;
            text.push('"')
        }
        _ => push_in_quotes(text, name),
    }
}

fn needs_quotes(name: &str) -> bool {
    matches!(name, "" | "{" | "}") || name.starts_with(['#', '~']) || name.chars().any(is_special)
}

// Whether a shell, or whoever reads the message, would take it for more than a part of a name.
fn is_special(c: char) -> bool {
    !is_printed(c) || " !\"$&'()*:;<=>?[\\^`|".contains(c)
}

// Controls are not printed, nor are the separators of lines and of paragraphs.
fn is_printed(c: char) -> bool {
    !c.is_control() && c != '\u{2028}' && c != '\u{2029}'
}

// An apostrophe is read more easily in double quotes, if nothing else is special there.
fn fits_double_quotes(name: &str) -> bool {
    let rest = name.strip_prefix(['#', '~']).unwrap_or(name);
    name.contains('\'') && rest.chars().all(is_plain_in_double_quotes)
}

fn is_plain_in_double_quotes(c: char) -> bool {
    match c {
        ' ' | '\'' | ':' => true,
        '#' | '~' | '{' | '}' => false,
        _ => !is_special(c),
    }
}

// In apostrophes. What is not printed stands between $' and ' in escapes.
fn push_in_quotes(text: &mut String, name: &[u8]) -> Result<(), AllocError> {
    let mut quoted = Quoted {
        text,
        in_escapes: false,
    };
    quoted.text.push('\'')?;
    for chunk in name.utf8_chunks() {
        for c in chunk.valid().chars() {
            quoted.push(c)?;
        }
        for byte in chunk.invalid() {
            quoted.push_octal(*byte)?;
        }
    }
    quoted.text.push('\'')
}

// A text in apostrophes, and whether it is within $' and '.
#[derive(Drop)]
struct Quoted<'a> {
    text: &'a mut String,
    in_escapes: bool,
}

impl Quoted<'_> {
    fn push(&mut self, c: char) -> Result<(), AllocError> {
        if c == '\'' {
            self.in_escapes = false;
            return self.text.push_str("'\\''");
        }
        if let Some(letter) = letter_of(c) {
            self.begin_escapes()?;
            self.text.push('\\')?;
            return self.text.push(letter);
        }
        if !is_printed(c) {
            for byte in c.encode_utf8(&mut [0; 4]).as_bytes() {
                self.push_octal(*byte)?;
            }
            return Ok(());
        }
        if self.in_escapes {
            self.text.push_str("''")?;
            self.in_escapes = false;
        }
        self.text.push(c)
    }

    fn push_octal(&mut self, byte: u8) -> Result<(), AllocError> {
        self.begin_escapes()?;
        self.text.push('\\')?;
        for digit in [byte >> 6, byte >> 3, byte] {
            self.text.push(octal_digit(digit))?;
        }
        Ok(())
    }

    fn begin_escapes(&mut self) -> Result<(), AllocError> {
        if !self.in_escapes {
            self.text.push_str("'$'")?;
            self.in_escapes = true;
        }
        Ok(())
    }
}

// The last octal digit of a number.
fn octal_digit(number: u8) -> char {
    (b'0' + (number & 7)) as char
}

// In quotes, the letter of an escape that has one.
fn letter_of(c: char) -> Option<char> {
    match c {
        '\x07' => Some('a'),
        '\x08' => Some('b'),
        '\x0c' => Some('f'),
        '\n' => Some('n'),
        '\r' => Some('r'),
        '\t' => Some('t'),
        '\x0b' => Some('v'),
        _ => None,
    }
}
