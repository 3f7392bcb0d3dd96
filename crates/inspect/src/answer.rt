// What a request is answered.
use crate::note::Note;
use crate::request::{Request, Topic};
use crate::support_text::{call_text, pages_text, target_text};
use crate::text::{pulled, said};
use crate::trouble::Trouble;
use cli::failure::Failure;
use cli::refused::{Named, meaning};
use cli::text_file::{TextFile, read_given};
use sources::fault::Refusal;
use std::alloc::{AllocError, Global};
use std::rt::Files;

/// An answer or a refusal, as it is printed, and what is told beside it.
#[derive(Drop)]
pub struct Answer<'a> {
    pub text: String,
    pub is_refusal: bool,
    pub note: Option<Note<'a>>,
}

fn refusal_text(
    alloc: Global,
    refusal: Refusal,
    fields: &'static [&'static str],
) -> Result<String, AllocError> {
    let named = Named { refusal, fields };
    format!(in alloc; "{named}: {}\n", meaning(refusal.reason))
}

impl<'a> Answer<'a> {
    // What came of a text whose fields have these names.
    fn new(
        alloc: Global,
        outcome: Result<String, Trouble<'a>>,
        fields: &'static [&'static str],
        note: Option<Note<'a>>,
    ) -> Result<Answer<'a>, Failure<'a>> {
        match outcome {
            Ok(text) => Ok(Answer {
                text,
                is_refusal: false,
                note,
            }),
            Err(Trouble::Refused(refusal)) => Ok(Answer {
                text: refusal_text(alloc, refusal, fields)?,
                is_refusal: true,
                note,
            }),
            Err(Trouble::Failed(failure)) => Err(failure),
        }
    }

    // What came of what has neither fields nor an ending.
    fn plain(
        alloc: Global,
        outcome: Result<String, Trouble<'a>>,
    ) -> Result<Answer<'a>, Failure<'a>> {
        Answer::new(alloc, outcome, &[], None)
    }

    // What the text of a topic says that a file holds in these bytes.
    fn of_text(
        alloc: Global,
        topic: Topic,
        file: TextFile<'a>,
        bytes: &[u8],
    ) -> Result<Answer<'a>, Failure<'a>> {
        let text = match pulled(alloc, file.form, bytes) {
            Ok(text) => text,
            Err(trouble) => return Answer::plain(alloc, Err(trouble)),
        };
        let note = Note::new(topic, file, bytes.len(), &text);
        let outcome = said(alloc, topic, file.form, bytes, &text);
        Answer::new(alloc, outcome, topic.fields(), note)
    }

    /// What a request is answered, where its file can be read.
    pub fn to(
        rt: &(impl Files + Input + AllocGlobal),
        request: &Request<'a>,
    ) -> Result<Answer<'a>, Failure<'a>> {
        let alloc = rt.alloc();
        let bytes = read(rt, request)?;
        let bytes = bytes.as_slice();
        match *request {
            Request::Text(topic, file) => Answer::of_text(alloc, topic, file, bytes),
            Request::Target(text) => Answer::plain(alloc, target_text(alloc, text)),
            Request::Syscall(_) => Answer::plain(alloc, call_text(alloc, bytes)),
            Request::Pages { .. } => Answer::plain(alloc, pages_text(alloc, bytes)),
        }
    }
}

// The bytes of a request's file that matter; none where it has no file.
fn read<'a>(
    rt: &(impl Files + Input + AllocGlobal),
    request: &Request<'a>,
) -> Result<Vec<u8>, Failure<'a>> {
    match request.file() {
        Some((path, most)) => {
            read_given(rt, path, most).map_err(|error| Failure::reading(path, error))
        }
        None => Ok(Vec::new(rt.alloc())),
    }
}
