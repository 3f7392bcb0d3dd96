// Measures the smaps text on standard input, and prints one line of it.
#![tactic(auto)]

mod report;

ghost use Rattle.std.specs.Prelude.{◌≡◌, ◌<◌, ◌≤◌, ◌++◌, [], ◌∷◌, length, take, IfOk, IfSome, OnOk};
ghost use Rattle.std.specs.Io.KnownBytes.{Appends, Consumes, IsAtEnd};
ghost use Rattle.std.specs.Fmt.{with_newline};
ghost use Rattle.std.specs.Process.{exit_status};
ghost use Rattle.charge.specs.Report.{report_of, line_of, status_of};

use arrayvec::ArrayVec;
use report::{Charged, LONGEST, Refused, charge};
use std::fmt::Display;
use std::io::{Read, Write};
use std::process::ExitCode;
use std::{env, io};

const USAGE: &str =
    "charge < FILE       measures the smaps text on standard input, and prints one line: its figures, or
                    the number and line of the refusal; the exit status is 0 or 1
charge --help       this text
";

// Room for the longest line: four names, a number of 32 bits and three of 64, and its end have 99 bytes.
const LINE: usize = 128;

// One byte more than an input may have.
const ROOM: usize = LONGEST + 1;

// Reads until the end of the input or of the buffer, and answers how many bytes came.
// No Vec: want of memory would be an error of this program, which has none of its own now (docs/DECISIONS.md).
fn read_all<R: Read>(input: &mut R, buf: &mut [u8]) -> io::Result<usize>
    ensures bound { IfOk result (λ n. n ≤ length buf.new) }
    ensures bytes { IfOk result (λ n. Consumes (R.remaining input.old) (R.remaining input.new) (take n buf.new)) }
    ensures end { IfOk result (λ n. n < length buf.old → IsAtEnd (R.remaining input.new)) }
{
    let mut len = 0;
    while len < buf.len() {
        let n = input.read(&mut buf[len..])?;
        if n == 0 {
            break;
        }
        len += n;
    }
    Ok(len)
}

// The charge of all that the input gives.
fn charge_all<R: Read>(input: &mut R) -> io::Result<Result<Charged, Refused>>
    ensures { IfOk result (λ said. IfSome (R.remaining input.old) (λ bytes. said ≡ report_of bytes)) }
{
    let mut buf = [0u8; ROOM];
    let len = read_all(input, &mut buf)?;
    Ok(charge(&buf[..len]))
}

// Writes what a value is printed as, and its line's end, by one write, so that no other writer's bytes come between its parts, and no reader gets one of them alone.
fn write_line<W: Write, D: Display + Drop>(output: &mut W, value: D) -> io::Result<()>
    ensures { OnOk result (IfSome (with_newline (D.output value)) (Appends (W.contents output.old) (W.contents output.new))) }
{
    let mut line = ArrayVec::<u8, LINE>::new();
    line.writeln(value)?;
    output.write_all(line.as_slice())
}

// Writes the line, and answers the exit status.
fn say<W: Write>(output: &mut W, said: Result<Charged, Refused>) -> io::Result<ExitCode>
    ensures line { OnOk result (Appends (W.contents output.old) (W.contents output.new) (line_of said ++ (10 ∷ []))) }
    ensures status { IfOk result (λ code. exit_status code ≡ status_of said) }
{
    match said {
        Ok(charged) => {
            write_line(output, charged)?;
            Ok(ExitCode::SUCCESS)
        }
        Err(refused) => {
            write_line(output, refused)?;
            Ok(ExitCode::FAILURE)
        }
    }
}

// The program: of all bytes of the input, where they are known, the line and the status.
fn run<R: Read, W: Write>(input: &mut R, output: &mut W) -> io::Result<ExitCode>
    ensures line { OnOk result (IfSome (R.remaining input.old) (λ bytes. Appends (W.contents output.old) (W.contents output.new) (line_of (report_of bytes) ++ (10 ∷ [])))) }
    ensures status { IfOk result (λ code. IfSome (R.remaining input.old) (λ bytes. exit_status code ≡ status_of (report_of bytes))) }
{
    let said = charge_all(input)?;
    say(output, said)
}

fn main(rt: HostRuntime) -> anyhow::Result<ExitCode> {
    let mut args = match env::args(&rt) {
        Ok(args) => args.skip(1),
        // Arguments that there is no memory for are not looked at: measuring takes none.
        Err(error) if error.kind() == io::ErrorKind::OutOfMemory => {
            return Ok(run(&mut rt.stdin(), &mut io::writer(&rt))?);
        }
        Err(error) => return Err(error.into()),
    };
    let Some(first) = args.next() else {
        return Ok(run(&mut rt.stdin(), &mut io::writer(&rt))?);
    };
    if first.as_str() == "--help" && args.next().is_none() {
        print!(rt; "{USAGE}")?;
        return Ok(ExitCode::SUCCESS);
    }
    eprint!(rt; "{USAGE}")?;
    Ok(ExitCode::from(2))
}

#[cfg(test)]
mod tests {
    use super::*;
    use std::test::Fail;

    // Three totals at the cap: no clause says that so long a line finds room.
    #[test]
    fn long_line(rt: HostRuntime) -> Result<(), Fail> {
        let text =
            b"1-2 r 0 0:0 0 \nRss: 72057594037927936\nPss: 72057594037927936\nSwapPss: 72057594037927936\n";
        let mut output = Vec::new(rt.alloc());
        let ran = run(&mut &text[..], &mut output);
        assert!(rt; ran.is_ok());
        assert_eq!(rt;
            output.as_slice(),
            b"mappings 1 rss 72057594037927936 pss 72057594037927936 swappss 72057594037927936\n".as_slice()
        );
        Ok(())
    }
}
