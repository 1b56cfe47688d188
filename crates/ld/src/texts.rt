// Which input and output are text.
use ld_text::Form;
use ld_words::{Command, Shown, read};
use std::alloc::Global;

/// How the lines of the input are spelt, and those of the output are written.
#[derive(Clone, Copy, Drop)]
pub struct Forms {
    /// Whether each line of the input is the text of a payload.
    pub is_text: bool,
    /// How what a reader gets is written.
    pub shown: Form,
}

/// How what a reader gets is written.
fn form_of(shown: Shown) -> Form {
    match shown {
        Shown::Lines => Form::Line,
        Shown::Text => Form::Text,
        Shown::Json => Form::Json,
    }
}

/// What the arguments say of the input and the output. Where they ask for no such command nothing is text; none when out of
/// memory.
pub fn forms_of(alloc: Global, words: &[String]) -> Option<Forms> {
    match read(alloc, words) {
        Ok(Some(Command::Append(append))) => Some(Forms {
            is_text: append.text,
            shown: Form::Line,
        }),
        Ok(Some(Command::Tail(tail))) => Some(Forms {
            is_text: false,
            shown: form_of(tail.shown),
        }),
        Ok(_) => Some(Forms {
            is_text: false,
            shown: Form::Line,
        }),
        Err(_) => None,
    }
}
