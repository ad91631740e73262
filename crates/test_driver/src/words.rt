//! Words, and numbers in them.

/// The first of `words`, and the words after it.
pub(crate) fn split_word(words: &str) -> (&str, &str) {
    words.split_once(' ').unwrap_or((words, ""))
}

/// The number that `text` states in decimal, or 0 if it states none.
pub(crate) fn number_in(text: &str) -> u64 {
    text.parse().unwrap_or(0)
}
