//! Words that are most likely ranges or names of files.

/// Whether a word is most likely a range of pages or a number: it has a digit, and nothing but digits, minus signs, commas and underscores.
pub fn is_range(word: &str) -> bool {
    let bytes = word.as_bytes();
    bytes.iter().any(|byte| byte.is_ascii_digit()) && bytes.iter().all(|byte| is_of_range(*byte))
}

fn is_of_range(byte: u8) -> bool {
    byte.is_ascii_digit() || matches!(byte, b'-' | b',' | b'_')
}

/// Whether a word is most likely the name of a file: it has a slash, or one of a few endings such as `.ps`.
pub fn looks_like_file(word: &str) -> bool {
    has_file_ending(word) || word.contains("/")
}

/// Whether a word ends with `.ps`, `.eps`, `.pdf` or `.gz`, as the names of documents do.
pub(crate) fn has_file_ending(word: &str) -> bool {
    word.ends_with(".ps")
        || word.ends_with(".eps")
        || word.ends_with(".pdf")
        || word.ends_with(".gz")
}
