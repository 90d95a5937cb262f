//! Texts in memory.

ghost use Rattle.std.specs.Prelude.{◌≡◌, true, false, OnOk, OnErr};
ghost use Rattle.sot_text_output.specs.Scratches.{Keeps};
ghost use Rattle.sot_text_output.specs.ScratchLaws.{keeps_nothing, keeps_more};

use crate::out::Out;
use std::alloc::AllocError;

/// A text in memory that grows by what is put, as long as there is memory for it.
#[derive(Drop)]
pub struct Scratch<'t> {
    text: &'t mut String,
    is_whole: bool,
}

impl<'t> Scratch<'t> {
    /// What is put comes behind this text. Nothing is put yet.
    pub fn new(text: &'t mut String) -> Scratch<'t>
        ensures text { result.text.ghost_name ≡ text.entry.ghost_name }
        ensures same { result.text.now ≡ text.old }
        ensures whole { result.is_whole ≡ true }
    {
        Scratch {
            text,
            is_whole: true,
        }
    }

    /// Whether there was memory for all that was put. The error is want of it.
    pub fn end(&self) -> Result<(), AllocError>
        ensures whole { OnOk result (self.now.is_whole ≡ true) }
        ensures in_part { OnErr result (self.now.is_whole ≡ false) }
    {
        if self.is_whole {
            Ok(())
        } else {
            Err(AllocError)
        }
    }
}

impl<'t> Out for Scratch<'t> {
    ghost puts = { Keeps };

    fn put(&mut self, text: &str) {
        if self.text.push_str(text).is_err() {
            self.is_whole = false;
        }
    }

    fn put_byte(&mut self, byte: u8) {
        if self.text.push(char::from(byte)).is_err() {
            self.is_whole = false;
        }
    }

    ghost nothing = { keeps_nothing };

    ghost more = { keeps_more };
}
