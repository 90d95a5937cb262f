//! The words that a program was started with.

ghost use Rattle.std.specs.Prelude.{◌≡◌, IfOk, IfErr};
ghost use Rattle.sot_cli.specs.Words.{AreWordsOf};

use crate::status::Status;
use std::alloc::Global;
use std::env::Args;
use std::io;
use std::io::ErrorKind;

/// The words behind the program's name. Where they are no text, one empty word, which no program
/// asks for, stands for them: no word at all might ask for something. Where there is no memory for
/// them, status 6.
pub(crate) fn words_of(alloc: Global, args: io::Result<Args>) -> Result<Vec<String>, Status>
    ensures words { IfOk result (λ words. AreWordsOf args words.items) }
    ensures status { IfErr result (λ status. status.0 ≡ 6) }
{
    let mut words = Vec::new(alloc);
    match args {
        Ok(args) => {
            for word in args.skip(1) {
                if words.push(word).is_err() {
                    return Err(Status(6));
                }
            }
        }
        Err(error) if error.kind() == ErrorKind::InvalidData => {
            if words.push(String::new(alloc)).is_err() {
                return Err(Status(6));
            }
        }
        Err(_) => return Err(Status(6)),
    }
    Ok(words)
}
