//! Texts of bytes.

/// The text that bytes are, or "no UTF-8" where they are none.
pub fn text_in(bytes: &[u8]) -> &str {
    match str::from_utf8(bytes) {
        Ok(text) => text,
        Err(_) => "no UTF-8",
    }
}
