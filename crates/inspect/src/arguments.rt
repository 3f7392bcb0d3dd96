// The arguments: a request, or a script of requests.
use crate::request::{Request, Topic, WORDS};
use clap::{Arg, ArgMatches, Command, value_parser};
use cli::text_file::TextFile;
use sources::input::Form;
use std::alloc::{AllocError, Global};

/// What the arguments ask for.
#[derive(Clone, Copy)]
pub enum Asked<'a> {
    Request(Request<'a>),
    Script(&'a str),
}

static FORMS: [&str; 1] = ["recording"];

const EXAMPLES: &str = "Examples:
  inspect rows /proc/self/smaps
  inspect status /proc/1/status
  inspect target 'socket:[2248868]'
  inspect pages /proc/self/pagemap 16

'inspect help REQUEST' says more about one.";

fn file<'a>(alloc: Global, help: &'a str) -> Arg<'a> {
    Arg::new(alloc, "FILE").required(true).help(help)
}

// A request for what a text says.
fn text_command<'a>(
    alloc: Global,
    name: &'a str,
    about: &'a str,
) -> Result<Command<'a>, AllocError> {
    let recording = Arg::new(alloc, "recording")
        .value_parser(FORMS.as_slice())
        .hide_possible_values(true)
        .help("The word `recording`: FILE holds a recording of the text");
    Command::new(alloc, name)
        .about(about)
        .allow_missing_positional(true)
        .arg(recording)?
        .arg(file(alloc, "The file of the text; - is standard input"))
}

fn target_command<'a>(alloc: Global) -> Result<Command<'a>, AllocError> {
    let text = Arg::new(alloc, "TEXT")
        .required(true)
        .allow_hyphen_values(true)
        .help("The target, as readlink prints it");
    Command::new(alloc, "target")
        .about("What a link of /proc/PID/fd stands for")
        .arg(text)
}

fn syscall_command<'a>(alloc: Global) -> Result<Command<'a>, AllocError> {
    Command::new(alloc, "syscall")
        .about("The system call that a process is in")
        .arg(file(alloc, "A file like /proc/PID/syscall; - is standard input"))
}

fn pages_command<'a>(alloc: Global) -> Result<Command<'a>, AllocError> {
    let count = Arg::new(alloc, "COUNT")
        .value_parser(value_parser!(u64))
        .default_value("512")
        .help("How many words to read at most");
    Command::new(alloc, "pages")
        .about("The words of a page table, a line each")
        .arg(file(alloc, "A file like /proc/PID/pagemap; - is standard input"))?
        .arg(count)
}

fn script_command<'a>(alloc: Global) -> Result<Command<'a>, AllocError> {
    Command::new(alloc, "script")
        .about("Answers requests from a file, one a line, without the word inspect")
        .arg(file(alloc, "The file of requests; - is standard input"))
}

/// The command of this program.
pub fn command<'a>(alloc: Global) -> Result<Command<'a>, AllocError> {
    let rows = text_command(
        alloc,
        "rows",
        "The mappings of an smaps text, a line each, and their totals",
    )?;
    let status = text_command(alloc, "status", "The fields of a status text, a line each")?;
    let limits = text_command(alloc, "limits", "The limits of a limits text, a line each")?;
    Command::new(alloc, "inspect")
        .bin_name("inspect")?
        .version("0.1.0")
        .about("Prints what the texts of /proc say of a process")
        .after_help(EXAMPLES)
        .subcommand_required(true)
        .subcommand_value_name("REQUEST")
        .subcommand_help_heading("Requests")
        .subcommand(rows)?
        .subcommand(status)?
        .subcommand(limits)?
        .subcommand(target_command(alloc)?)?
        .subcommand(syscall_command(alloc)?)?
        .subcommand(pages_command(alloc)?)?
        .subcommand(script_command(alloc)?)
}

fn text_file<'a>(matches: &ArgMatches<'a>) -> Option<TextFile<'a>> {
    let form = match matches.get_str("recording") {
        Some(_) => Form::Recording,
        None => Form::Plain,
    };
    let path = matches.get_str("FILE")?;
    Some(TextFile { form, path })
}

fn request<'a>(name: &str, matches: &ArgMatches<'a>) -> Option<Request<'a>> {
    match name {
        "target" => Some(Request::Target(matches.get_str("TEXT")?)),
        "syscall" => Some(Request::Syscall(matches.get_str("FILE")?)),
        "pages" => Some(Request::Pages {
            path: matches.get_str("FILE")?,
            count: matches.get_one("COUNT").unwrap_or(WORDS),
        }),
        _ => Some(Request::Text(Topic::named(name)?, text_file(matches)?)),
    }
}

impl<'a> Asked<'a> {
    /// What matches of the command ask for. It requires a request with what that needs, so there is always something.
    pub fn from_matches(matches: &ArgMatches<'a>) -> Option<Asked<'a>> {
        let (name, matches) = matches.subcommand()?;
        match name {
            "script" => Some(Asked::Script(matches.get_str("FILE")?)),
            _ => Some(Asked::Request(request(name, matches)?)),
        }
    }
}
