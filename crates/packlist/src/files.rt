// The files that a script names, and the calls with their texts.
ghost use Rattle.std.specs.Prelude.{◌≡◌, IfOk, length, map, vec_len};
ghost use Rattle.runs.specs.Run.{textual};
ghost use Rattle.sources.specs.Inputs.{text_in};
ghost use Rattle.packlist.specs.Files.{call_with, calls_of};

use crate::mistake::{Fault, Mistake, at_line};
use crate::script::Line;
use cli::text_file::TextFile;
use runs::call::Call;
use sources::input::Input;
use sources::source::Source;
use std::alloc::Global;
use std::rt::Files;

/// The file that a call names.
pub fn file_of<'a>(call: &Call<TextFile<'a>>) -> Option<TextFile<'a>> {
    match call {
        Call::Measure { text } | Call::Note { text, .. } | Call::Bound { text, .. } => Some(*text),
        _ => None,
    }
}

// What the file holds that a call names; nothing where it names none.
fn read_text<'a>(
    rt: &(impl Files + AllocGlobal),
    call: &Call<TextFile<'a>>,
) -> Result<Vec<u8>, Mistake<'a>> {
    let Some(file) = file_of(call) else {
        return Ok(Vec::new(rt.alloc()));
    };
    let path = file.path;
    file.read(rt)
        .map_err(|error| Mistake::Unread { path, error })
}

/// The texts of lines, one for each.
pub fn read_texts<'a>(
    rt: &(impl Files + AllocGlobal),
    lines: &[Line<'a>],
) -> Result<Vec<Vec<u8>>, Fault<'a>>
    ensures { IfOk result (λ v. vec_len v ≡ length lines.now) }
{
    let mut texts = Vec::new(rt.alloc());
    for line in lines {
        texts.push(at_line(line.number, read_text(rt, &line.call))?)?;
    }
    Ok(texts)
}

fn input<'a, 'b>(file: TextFile<'a>, bytes: &'b [u8]) -> Result<Input<'b>, Mistake<'a>>
    ensures { IfOk result (λ i. ⟦<Input<'b> as Source>⟧.text i ≡ text_in file.entry.form bytes.now) }
{
    Input::new(file.form, bytes).map_err(|_| Mistake::Spool(file.path))
}

// A call with a text in the place of its file.
fn with_text<'a, 'b>(
    call: &Call<TextFile<'a>>,
    bytes: &'b [u8],
) -> Result<Call<Input<'b>>, Mistake<'a>>
    ensures { IfOk result (λ c. textual ⟦<Input<'b> as Source>⟧.text c ≡ call_with bytes.now call.now) }
{
    Ok(match call {
        Call::Measure { text } => Call::Measure {
            text: input(*text, bytes)?,
        },
        Call::Admit {
            pid,
            headroom,
            measure,
        } => Call::Admit {
            pid: *pid,
            headroom: *headroom,
            measure: *measure,
        },
        Call::Remeasure { pid, measure } => Call::Remeasure {
            pid: *pid,
            measure: *measure,
        },
        Call::Note { pid, text } => Call::Note {
            pid: *pid,
            text: input(*text, bytes)?,
        },
        Call::Bound { pid, text } => Call::Bound {
            pid: *pid,
            text: input(*text, bytes)?,
        },
        Call::Release { pid } => Call::Release { pid: *pid },
        Call::Look { pid } => Call::Look { pid: *pid },
        Call::Used => Call::Used,
    })
}

/// The calls of the run: that of each line, and after it one that asks what is used.
pub fn calls<'a, 'b>(
    alloc: Global,
    lines: &[Line<'a>],
    texts: &'b [Vec<u8>],
) -> Result<Vec<Call<Input<'b>>>, Fault<'a>>
    ensures { IfOk result (λ v. map (textual ⟦<Input<'b> as Source>⟧.text) v.items ≡ calls_of (λ l b. call_with b.items l.call) lines.now texts.now) }
{
    let mut calls = Vec::new(alloc);
    for (line, text) in lines.iter().zip(texts) {
        calls.push(at_line(line.number, with_text(&line.call, text.as_slice()))?)?;
        calls.push(Call::Used)?;
    }
    Ok(calls)
}
