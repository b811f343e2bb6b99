//! Words for true and false.

ghost use Rattle.std.specs.Prelude.{◌≡◌};
ghost use Rattle.fwd_settings_values.specs.Text.{truth_of, is_true_word, is_false_word};

use crate::texts::same_name;

/// Returns a truth value: On, True and Yes, or Off, False and No, case ignored.
pub fn truth(text: &[u8]) -> Option<bool>
    ensures { result ≡ truth_of text.now }
{
    if is_true(text) {
        return Some(true);
    }
    if is_false(text) { Some(false) } else { None }
}

fn is_true(text: &[u8]) -> bool
    ensures { result ≡ is_true_word text.now }
{
    same_name(text, b"on") || same_name(text, b"true") || same_name(text, b"yes")
}

/// Returns whether a text is a word for false: Off, False or No, case ignored.
pub fn is_false(text: &[u8]) -> bool
    ensures { result ≡ is_false_word text.now }
{
    same_name(text, b"off") || same_name(text, b"false") || same_name(text, b"no")
}
