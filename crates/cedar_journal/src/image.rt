//! A journal's file made in memory, to replace another one at one stroke.

ghost use Rattle.std.specs.Prelude.{◌+◌, ◌++◌, ◌≡◌, ◌∷◌, [], IfOk, length, OnErr, OnOk};
ghost use Rattle.cedar_journal.specs.Fields.{AreWhole, image_of, records_of, Summed};

use crate::records::{SUMMED_HEADER, open_gate};
use crate::{Format, Frame};
use std::alloc::{AllocError, Allocator};

/// The bytes of a journal's file of version 2 that is at rest: the header, whole records, and a closed gate after them.
#[derive(Drop)]
pub struct Image<A: Allocator> {
    bytes: Vec<u8, A>,
    ghost shape: { bytes.items ≡ image_of (records_of bytes.items) },
    ghost whole: { AreWhole Summed (records_of bytes.items) },
}

impl<A: Allocator> Image<A> {
    ghost use Rattle.cedar_journal.specs.Words.{image_bytes, payload_of, payloads_of};

    /// Returns the file of a journal without records.
    ///
    /// # Errors
    /// If an allocation failed.
    pub fn new(alloc: A) -> Result<Image<A>, AllocError>
        //= A new image represents no payload, and has the 14 bytes of the header and of a closed gate. [with length]
        ensures none { IfOk result (λ image. payloads_of image ≡ []) }
        ensures length { IfOk result (λ image. length (image_bytes image) ≡ 14) }
    {
        let mut bytes = Vec::with_capacity(alloc, SUMMED_HEADER.len() + 1)?;
        bytes.extend_from_slice(&SUMMED_HEADER)?;
        bytes.push(0)?;
        Ok(Image { bytes })
    }

    /// Adds a record after the others.
    ///
    /// # Errors
    /// If an allocation failed. Then nothing has changed.
    pub fn push<B: Allocator>(&mut self, frame: &Frame<B>) -> Result<(), AllocError>
        //= An image to which a record is pushed represents one more payload, this one, and is longer by the record; a refused one is as it
        //  was. [with longer, refused]
        ensures pushed { OnOk result (payloads_of self.new ≡ payloads_of self.old ++ payload_of frame.now ∷ []) }
        ensures longer { OnOk result (length (image_bytes self.new) ≡ length (image_bytes self.old) + 9 + length (payload_of frame.now)) }
        ensures refused { OnErr result (image_bytes self.new ≡ image_bytes self.old) }
    {
        let gate = self.bytes.len() - 1;
        self.bytes.extend_from_slice(frame.bytes(Format::Summed))?;
        self.bytes[gate] = open_gate(Format::Summed);
        Ok(())
    }

    /// Returns all bytes: the header's, the records' and the closed gate.
    pub fn bytes(&self) -> &[u8]
        //= An image's bytes can be read.
        ensures { result.now ≡ image_bytes self.now }
    {
        &self.bytes
    }
}
