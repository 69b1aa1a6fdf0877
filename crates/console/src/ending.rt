// Why a run ended before its input.
use arrayvec::ArrayString;
use std::fmt::Write;
use std::{fmt, io};

// Room for the text of an error: at most 256 bytes, and the operating system's number of it.
const ROOM: usize = 320;

// An error in the operating system's words, without its number.
#[derive(Clone, Copy)]
struct Reason(io::Error);

impl fmt::Display for Reason {
    fn fmt<W: fmt::Write>(&self, f: &mut fmt::Formatter<W>) -> fmt::Result {
        let mut text: ArrayString<ROOM> = ArrayString::new();
        let error = self.0;
        write!(text, "{error}")?;
        match text.as_str().split_once(" (os error ") {
            Some((words, _)) => f.write_str(words),
            None => f.write_str(text.as_str()),
        }
    }
}

// What failed.
#[derive(Clone, Copy)]
pub enum Failure {
    Input(io::Error),
    Output(io::Error),
}

impl fmt::Display for Failure {
    fn fmt<W: fmt::Write>(&self, f: &mut fmt::Formatter<W>) -> fmt::Result {
        let (stream, error) = match *self {
            Failure::Input(error) => ("standard input", error),
            Failure::Output(error) => ("standard output", error),
        };
        let reason = Reason(error);
        write!(f, "{stream}: {reason}")
    }
}
