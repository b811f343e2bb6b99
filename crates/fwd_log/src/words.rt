//! Words that depend on a number.

/// Returns the words for one thing if the number is 1, and those for many otherwise.
pub fn words_for(number: u64, one: &'static str, many: &'static str) -> &'static str {
    if number == 1 { one } else { many }
}
