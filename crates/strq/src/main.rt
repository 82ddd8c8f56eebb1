//! The program: its words, standard input and output, and a status with a line that says why.
//!
//! Meaning: `specs/Messages.antt`, and of the run itself `query_program`.
#![tactic(auto)]

ghost use Rattle.std.specs.Prelude.{◌≡◌};
ghost use Rattle.strq.specs.Messages.{message};

use outside::{IoSink, IoSource, OpenGate};
use query_program::run;
use std::process::ExitCode;
use std::{env, io};
use text_spec::TextList;

/// The words of the command line.
enum Words {
    /// All of them, without the program's name.
    Read(TextList),
    /// One of them is no text.
    Faulty,
    /// Memory was wanting.
    OutOfMemory,
}

fn read_words(rt: &HostRuntime) -> Words {
    let mut list = TextList::new(rt.alloc());
    let args = match env::args(rt) {
        Ok(args) => args,
        Err(e) if e.kind() == io::ErrorKind::OutOfMemory => return Words::OutOfMemory,
        Err(_) => return Words::Faulty,
    };
    for word in args.skip(1) {
        if list.push(word.as_str()).is_err() {
            return Words::OutOfMemory;
        }
    }
    Words::Read(list)
}

/// What is said of a status, 2 to 7; of another nothing.
fn told(status: u8) -> &'static str
    ensures { result.now ≡ message status }
{
    match status {
        2 => "strq: usage: strq [--workers N] [--make NUMBER --lines N]",
        3 => "strq: read fault",
        4 => "strq: write fault",
        5 => "strq: out of memory",
        6 => "strq: line too long",
        7 => "strq: input too long",
        _ => "",
    }
}

fn main(rt: HostRuntime) -> ExitCode {
    let status = match read_words(&rt) {
        Words::Read(words) => {
            let mut source = IoSource::new(rt.reader());
            let mut sink = IoSink::new(io::writer(&rt));
            run(&rt, rt.alloc(), &words, &mut source, &mut sink, &OpenGate).status
        }
        Words::Faulty => 2,
        Words::OutOfMemory => 5,
    };
    if status != 0 {
        let text = told(status);
        // Where standard error is closed, the status alone says why.
        let _ = eprintln!(rt; "{text}");
    }
    ExitCode::from(status)
}
