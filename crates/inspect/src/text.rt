// What a text says.
use crate::limits_text::limits_text;
use crate::request::Topic;
use crate::rows_text::rows_text;
use crate::status_text::status_text;
use crate::trouble::Trouble;
use cli::pulled::Pulled;
use sources::input::{Form, Input};
use std::alloc::Global;

/// The text that bytes hold in this form.
pub fn pulled<'a>(alloc: Global, form: Form, bytes: &[u8]) -> Result<Pulled, Trouble<'a>> {
    Ok(Pulled::new(alloc, &mut Input::new(form, bytes)?)?)
}

/// What the text of a topic says that bytes hold in this form; `text` is that text.
pub fn said<'a>(
    alloc: Global,
    topic: Topic,
    form: Form,
    bytes: &[u8],
    text: &Pulled,
) -> Result<String, Trouble<'a>> {
    let mut source = Input::new(form, bytes)?;
    match topic {
        Topic::Rows => rows_text(alloc, &mut source, text.bytes.as_slice()),
        Topic::Status => status_text(alloc, &mut source),
        Topic::Limits => limits_text(alloc, &mut source),
    }
}
