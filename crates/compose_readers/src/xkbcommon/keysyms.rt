//! The keysyms of names, and the characters of keysyms.
use crate::xkbcommon::strings::before_nul;
use crate::xkbcommon::vendor_names::{NEW_NAMES, VENDOR_NAMES};
use crate::xkbcommon::{Reader, Version};
use compose_text::hexadecimal_number;
use keysym_core::Keysym;
use std::alloc::{AllocError, Global};

/// Returns the keysym of a character by its number; there is none for controls.
fn keysym_of_character(number: u32) -> Option<u32> {
    match number {
        0x20..=0x7e | 0xa0..=0xff => Some(number),
        0x100..=0x10_ffff => Some(0x0100_0000 + number),
        _ => None,
    }
}

/// Returns the number of a name in a list of names.
fn number_in(rows: &[(&str, u32)], name: &str) -> Option<u32> {
    let row = rows.iter().find(|row| row.0 == name)?;
    Some(row.1)
}

/// Returns the character that libxkbcommon gives to a keysym of another meaning here, or of none.
fn own_character(keysym: u32) -> Option<u32> {
    match keysym {
        0xff08..=0xff0b | 0xff0d | 0xff1b | 0xff89 | 0xff8d => Some(keysym % 0x80),
        0xffaa..=0xffaf | 0xffbd => Some(keysym % 0x80),
        0xffff => Some(0x7f),
        0xff80 => Some(0x20),
        0xabc => Some(0x27e8),
        0xabe => Some(0x27e9),
        0x0100_0000..=0x0110_ffff => Some(keysym - 0x0100_0000),
        _ => None,
    }
}

impl Reader<'_> {
    /// Returns the keysym of a name in the headers of this version. O(names of vendors).
    fn listed(&self, name: &str) -> Option<u32> {
        if self.version == Version::V1_5 && NEW_NAMES.iter().any(|new| *new == name) {
            return None;
        }
        match self.names.lookup(name) {
            Some(keysym) if keysym.value() > 0 => Some(keysym.value()),
            _ => number_in(&VENDOR_NAMES, name),
        }
    }

    /// Returns the keysym that `0x` and these digits name.
    fn numbered(&self, digits: &[u8]) -> Option<u32> {
        let number = hexadecimal_number(1, 8, digits)?;
        if number == 0 || number > self.version.greatest_keysym() {
            return None;
        }
        Some(number)
    }

    /// Returns the keysym of a name without a byte 0.
    fn named(&self, alloc: Global, name: &str) -> Result<Option<u32>, AllocError> {
        let bytes = name.as_bytes();
        if let Some(digits) = bytes.strip_prefix(b"0x") {
            return Ok(self.numbered(digits));
        }
        if let Some(digits) = bytes.strip_prefix(b"U") {
            if !digits.is_empty() && digits.iter().all(|digit| digit.is_ascii_hexdigit()) {
                return Ok(hexadecimal_number(1, 8, digits).and_then(keysym_of_character));
            }
        }
        match name.strip_prefix("XF86_") {
            Some(rest) => {
                let name = format!(in alloc; "XF86{}", rest.trim_start_matches('_'))?;
                Ok(self.listed(&name))
            }
            None => Ok(self.listed(name)),
        }
    }

    /// Returns the keysym of a name, which ends before its first byte 0.
    pub(crate) fn keysym(&self, alloc: Global, name: &[u8]) -> Result<Option<u32>, AllocError> {
        match str::from_utf8(before_nul(name)) {
            Ok(name) => self.named(alloc, name),
            Err(_) => Ok(None),
        }
    }

    /// Returns the number of the character of a keysym.
    fn character(&self, keysym: u32) -> Option<u32> {
        if let Some(number) = own_character(keysym) {
            return Some(number);
        }
        let character = self.names.text_of(Keysym::new(keysym)?)?;
        Some(u32::from(character))
    }

    /// Returns the text of a result that is a keysym alone. A surrogate is none, or three bytes.
    pub(crate) fn text_of(&self, alloc: Global, keysym: u32) -> Result<Vec<u8>, AllocError> {
        let mut text = Vec::new(alloc);
        let number = self.character(keysym).unwrap_or(0);
        if number == 0 {
            return Ok(text);
        }
        match char::from_u32(number) {
            Some(character) => push_character(&mut text, character)?,
            None if self.version == Version::V1_5 => push_surrogate(&mut text, number)?,
            None => {}
        }
        Ok(text)
    }
}

/// Appends a character in UTF-8.
fn push_character(text: &mut Vec<u8>, character: char) -> Result<(), AllocError> {
    let mut buffer = [0; 4];
    let encoded = character.encode_utf8(&mut buffer);
    text.extend_from_slice(encoded.as_bytes())
}

/// Appends three bytes for a number of 16 bits, as UTF-8 would write it.
fn push_surrogate(text: &mut Vec<u8>, number: u32) -> Result<(), AllocError> {
    text.push((0xe0 + number / 4096 % 16) as u8)?;
    text.push((0x80 + number / 64 % 64) as u8)?;
    text.push((0x80 + number % 64) as u8)?;
    Ok(())
}
