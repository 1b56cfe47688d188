// A line with a syntax error, as a person is shown it.
use crate::forms::{FORMS, is_meant};
use std::alloc::{AllocError, Global};
use std::fmt::Write;

/// How many bytes of a line are shown before its offset, and how many from it on.
const BEFORE: usize = 50;

const BEHIND: usize = 20;

/// From how many events on only their words are told.
const FEW: usize = 4;

/// The line with a mark under the offset, counted from 0, and below it how the events that it may have meant are spelt:
/// lines of text, each ended. Bytes that aren't printed as one sign are shown as `?`.
pub fn explain(alloc: Global, line: &[u8], place: usize) -> Result<String, AllocError> {
    let mut text = String::new(alloc);
    show(&mut text, line, place)?;
    let mut count = 0usize;
    for form in &FORMS {
        if is_meant(form, line, place) {
            count = count.saturating_add(1);
        }
    }
    if count > FEW {
        words(&mut text, line, place)?;
    } else {
        forms(&mut text, line, place)?;
    }
    Ok(text)
}

/// The bytes round the offset, and a mark under it.
fn show(text: &mut String, line: &[u8], place: usize) -> Result<(), AllocError> {
    let begin = place.saturating_sub(BEFORE);
    let part = match line.get(begin..) {
        Some(part) => part,
        None => &[],
    };
    text.push_str("    ")?;
    for byte in part.iter().take(BEFORE + BEHIND) {
        let sign = if byte.is_ascii_graphic() || *byte == b' ' {
            *byte as char
        } else {
            '?'
        };
        text.push(sign)?;
    }
    text.push_str("\n    ")?;
    for _ in begin..place {
        text.push(' ')?;
    }
    text.push_str("^\n")?;
    Ok(())
}

/// The words of the events that the line may have meant, in one line.
fn words(text: &mut String, line: &[u8], place: usize) -> Result<(), AllocError> {
    text.push_str("    an event begins with one of:")?;
    for form in &FORMS {
        if is_meant(form, line, place) {
            write!(text, " {}", form.word)?;
        }
    }
    text.push('\n')?;
    Ok(())
}

/// The forms of the events that the line may have meant, a line each.
fn forms(text: &mut String, line: &[u8], place: usize) -> Result<(), AllocError> {
    for form in &FORMS {
        if is_meant(form, line, place) {
            text.push_str("    ")?;
            text.push_str(form.word)?;
            if !form.fields.is_empty() {
                text.push(' ')?;
            }
            writeln!(text, "{}: {}", form.fields, form.bounds)?;
        }
    }
    Ok(())
}
