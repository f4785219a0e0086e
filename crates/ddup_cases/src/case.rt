//! One case: the words and the input of a command, and how it should go.

use crate::judging::{Verdict, judge, judge_digest};
use dd_io::{Bytes, MemSink, MemSource, Numbers};
use dd_prog::plain;
use hex::FromHexError;
use std::alloc::{AllocError, Global};
use std::mem;

/// How many bytes the devices move in a call, where a case says nothing of it.
const PIECE: usize = 4096;

/// Whose next line it is.
#[derive(Clone, Copy, Debug, PartialEq, Eq)]
enum Part {
    Head,
    Input,
    Output,
}

/// A case, as far as its lines have come.
///
/// Its lines are, in this order: `case NAME`; `word WORD` for each word of the command; `status
/// NAME`; `fails read N` or `fails write N`, where that device fails its N-th call; `piece N`, where
/// the devices move N bytes in a call, and not 4,096; `writes DIGITS` or `md5 DIGITS`, where the
/// output or its digest is told by hexadecimal digits; then `spaces N`, `bytes DIGITS`, `times N
/// TEXT` for each part of the input, or `input` and the input's lines; then `output` and the
/// output's lines.
#[derive(Debug, Drop)]
pub struct Case {
    name: String,
    words: Vec<String>,
    /// The line of the status that is wanted.
    line: String,
    input: Vec<u8>,
    output: Vec<u8>,
    /// The digest of the output, where that isn't told itself.
    digest: Option<Vec<u8>>,
    /// How many bytes the devices move in a call, from 1.
    piece: usize,
    /// The calls of the source and of the sink that fail.
    read_fails: Vec<u64>,
    write_fails: Vec<u64>,
    part: Part,
}

/// Appends a line and its line feed.
fn push_line(bytes: &mut Vec<u8>, line: &str) -> Result<(), AllocError> {
    bytes.extend_from_slice(line.as_bytes())?;
    bytes.push(b'\n')?;
    Ok(())
}

/// Appends a text so many times as the number before it says; nothing where there is none.
fn push_times(bytes: &mut Vec<u8>, counted: &str) -> Result<(), AllocError> {
    let Some((count, text)) = counted.split_once(' ') else {
        return Ok(());
    };
    let count: u32 = count.parse().unwrap_or(0);
    for _ in 0..count {
        bytes.extend_from_slice(text.as_bytes())?;
    }
    Ok(())
}

/// The line of the status of this name: of Done nothing is printed.
fn line_of(alloc: Global, name: &str) -> Result<String, AllocError> {
    if name == "Done" {
        Ok(String::new(alloc))
    } else {
        format!(in alloc; "{name}\n")
    }
}

/// The bytes of hexadecimal digits; none where they are something else.
fn bytes_of(alloc: Global, digits: &str) -> Result<Vec<u8>, AllocError> {
    match hex::decode(alloc, digits) {
        Ok(bytes) => Ok(bytes),
        Err(FromHexError::OutOfMemory) => Err(AllocError),
        Err(_) => Ok(Vec::new(alloc)),
    }
}

impl Case {
    pub fn new(alloc: Global) -> Case {
        Case {
            name: String::new(alloc),
            words: Vec::new(alloc),
            line: String::new(alloc),
            input: Vec::new(alloc),
            output: Vec::new(alloc),
            digest: None,
            piece: PIECE,
            read_fails: Vec::new(alloc),
            write_fails: Vec::new(alloc),
            part: Part::Head,
        }
    }

    pub fn name(&self) -> &str {
        &self.name
    }

    /// Takes in the case's next line.
    pub fn take_in(&mut self, alloc: Global, line: &str) -> Result<(), AllocError> {
        match (self.part, line) {
            (Part::Head, "input") => self.part = Part::Input,
            (Part::Head, "output") | (Part::Input, "output") => self.part = Part::Output,
            (Part::Head, _) => self.take_head(alloc, line)?,
            (Part::Input, _) => push_line(&mut self.input, line)?,
            (Part::Output, _) => push_line(&mut self.output, line)?,
        }
        Ok(())
    }

    /// Takes in a line before the input's. One of no known key says nothing.
    fn take_head(&mut self, alloc: Global, line: &str) -> Result<(), AllocError> {
        let Some((key, rest)) = line.split_once(' ') else {
            return Ok(());
        };
        match key {
            "case" => self.name = String::from_str(alloc, rest)?,
            "word" => self.words.push(String::from_str(alloc, rest)?)?,
            "status" => self.line = line_of(alloc, rest)?,
            "fails" => self.take_fails(rest)?,
            "piece" => self.piece = rest.parse().unwrap_or(PIECE).max(1),
            "spaces" => self.input = vec![in alloc; b' '; rest.parse().unwrap_or(0)]?,
            "bytes" => self.input = bytes_of(alloc, rest)?,
            "times" => push_times(&mut self.input, rest)?,
            "writes" => self.output = bytes_of(alloc, rest)?,
            "md5" => self.digest = Some(bytes_of(alloc, rest)?),
            _ => {}
        }
        Ok(())
    }

    /// Takes in which call of which device fails; one that isn't told says nothing.
    fn take_fails(&mut self, told: &str) -> Result<(), AllocError> {
        let Some((device, call)) = told.split_once(' ') else {
            return Ok(());
        };
        let call = call.parse().unwrap_or(1);
        if device == "read" {
            self.read_fails.push(call)?;
        } else {
            self.write_fails.push(call)?;
        }
        Ok(())
    }

    /// Does the command, and says how it went. The input and the calls that fail are given up.
    pub fn run(&mut self, alloc: Global) -> Result<Verdict, AllocError> {
        let piece = self.piece.max(1);
        let input = mem::replace(&mut self.input, Vec::new(alloc));
        let fails = mem::replace(&mut self.read_fails, Vec::new(alloc));
        let mut source = MemSource::new(Bytes::from_vec(input), piece, Numbers::from_vec(fails));
        let fails = mem::replace(&mut self.write_fails, Vec::new(alloc));
        let mut sink = MemSink::new(alloc, piece, Numbers::from_vec(fails));
        let status = plain(alloc, &self.words, &mut source, &mut sink);
        Ok(match &self.digest {
            Some(digest) => judge_digest(status, &self.line, sink.bytes(), digest),
            None => judge(status, &self.line, sink.bytes(), &self.output),
        })
    }
}
