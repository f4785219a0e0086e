//! The words of the program, as the system gives them.

ghost use Rattle.std.specs.Prelude.{◌≡◌, drop, Err, IfOk, IfErr};
ghost use Rattle.std.specs.Vec.Iter.{into_iter_items};
ghost use Rattle.std.specs.IoError.{error_kind};
ghost use Rattle.dd_prog.specs.declared.arguments.WordsFault.TheVariants as wants;
ghost use Rattle.dd_prog.specs.Words.{words_fault, status_of_words};

use crate::status::Status;
use dd_io::OutOfMemory;
use std::alloc::Global;
use std::env::Args;
use std::io;
use std::io::ErrorKind;
use thiserror::Error;

/// Why the words of the program weren't had.
#[derive(Clone, Copy, Debug, PartialEq, Eq, Error)]
pub enum WordsFault {
    #[error("a word is no text in UTF-8")]
    NotText,
    #[error("out of memory")]
    OutOfMemory,
}

impl WordsFault {
    /// The status of a program that has no words: text that is no UTF-8 is no command.
    pub fn status(self) -> Status
        ensures { result ≡ status_of_words self }
    {
        match self {
            WordsFault::NotText => Status::BadWords,
            WordsFault::OutOfMemory => Status::OutOfMemory,
        }
    }
}

impl From<io::Error> for WordsFault {
    ghost from_gives = { λ e fault. fault ≡ words_fault (error_kind e) };

    fn from(e: io::Error) -> WordsFault {
        match e.kind() {
            ErrorKind::OutOfMemory => WordsFault::OutOfMemory,
            _ => WordsFault::NotText,
        }
    }
}

impl From<OutOfMemory> for WordsFault {
    ghost from_gives = { λ _ fault. fault ≡ wants.OutOfMemory };

    fn from(_e: OutOfMemory) -> WordsFault {
        WordsFault::OutOfMemory
    }
}

/// The words that are left.
fn rest_of(alloc: Global, args: Args) -> Result<Vec<String>, OutOfMemory>
    ensures { IfOk result (λ words. words.items ≡ into_iter_items args) }
{
    let mut words = Vec::new(alloc);
    for word in args {
        words.push(word).map_err(|_| OutOfMemory)?;
    }
    Ok(words)
}

/// The words after the program's name, of the arguments that `env::args` gives.
pub fn words(alloc: Global, args: io::Result<Args>) -> Result<Vec<String>, WordsFault>
    ensures refused { IfErr args (λ e. result ≡ Err (words_fault (error_kind e))) }
    ensures given { IfOk args (λ a. IfOk result (λ words. words.items ≡ drop 1 (into_iter_items a))) }
    ensures wants { IfOk args (λ _. IfErr result (λ fault. fault ≡ WordsFault.OutOfMemory)) }
{
    let mut args = args?;
    let _name = args.next();
    Ok(rest_of(alloc, args)?)
}
