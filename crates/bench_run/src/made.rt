//! Numbers that are made from a seed, and lists of texts.

use anyhow::Result;
use std::alloc::{AllocError, Global};

/// Which input a job makes, and how much of it: one of so many parts.
#[derive(Clone, Copy)]
pub(crate) struct Scale {
    pub(crate) seed: u64,
    pub(crate) parts: usize,
}

impl Scale {
    /// Returns how many of something this part has, of which the whole has so many: at least 40.
    pub(crate) fn of(self, whole: usize) -> usize {
        if self.parts < 2 {
            return whole;
        }
        (whole / self.parts).max(40)
    }

    /// Returns numbers for one use of a job. Each use has others.
    pub(crate) fn random(self, usage: u64) -> Random {
        let mut random = Random {
            state: self.seed.wrapping_mul(0xD6E8_FEB8_6659_FD93) ^ usage,
        };
        let _ = random.next();
        random
    }
}

/// Numbers that a seed determines, by the method SplitMix64 of Steele, Lea and Flood.
#[derive(Clone, Copy)]
pub(crate) struct Random {
    state: u64,
}

impl Random {
    /// Returns the next number.
    #[inline(always)]
    pub(crate) fn next(&mut self) -> u64 {
        self.state = self.state.wrapping_add(0x9E37_79B9_7F4A_7C15);
        let mut mixed = self.state;
        mixed = (mixed ^ (mixed >> 30)).wrapping_mul(0xBF58_476D_1CE4_E5B9);
        mixed = (mixed ^ (mixed >> 27)).wrapping_mul(0x94D0_49BB_1331_11EB);
        mixed ^ (mixed >> 31)
    }

    /// Returns a number below a limit of at most 2^32, each as often; 0 if the limit is 0.
    #[inline(always)]
    pub(crate) fn below(&mut self, limit: usize) -> usize {
        let high = (self.next() >> 32) as usize;
        high.wrapping_mul(limit) >> 32
    }

    /// Returns a number below a limit, small ones more often than large ones: about as often as words of this rank come in texts.
    #[inline(always)]
    pub(crate) fn rank(&mut self, limit: usize) -> usize {
        let bits = 64_u32.saturating_sub(limit.leading_zeros());
        let top = 1_usize << (self.below(bits as usize) & 31);
        let low = top.wrapping_add(self.below(top)).wrapping_sub(1);
        if low < limit { low } else { self.below(limit) }
    }

    /// Returns whether something happens that happens so many times in a thousand.
    #[inline(always)]
    pub(crate) fn happens(&mut self, times: usize) -> bool {
        self.below(1000) < times
    }
}

/// A list of texts, one behind the other in memory.
#[derive(Drop)]
pub(crate) struct Texts {
    bytes: Vec<u8>,
    ends: Vec<usize>,
}

impl Texts {
    /// Returns an empty list.
    pub(crate) fn new(alloc: Global) -> Texts {
        Texts {
            bytes: Vec::new(alloc),
            ends: Vec::new(alloc),
        }
    }

    /// Goes on with the text that comes last.
    #[inline(always)]
    pub(crate) fn push(&mut self, byte: u8) -> Result<(), AllocError> {
        Ok(self.bytes.push(byte)?)
    }

    /// Goes on with the text that comes last.
    pub(crate) fn extend(&mut self, bytes: &[u8]) -> Result<(), AllocError> {
        self.bytes.extend_from_slice(bytes)
    }

    /// Ends the text that comes last.
    pub(crate) fn end(&mut self) -> Result<(), AllocError> {
        Ok(self.ends.push(self.bytes.len())?)
    }

    /// Returns how many bytes the text that comes last has so far.
    pub(crate) fn pending(&self) -> usize {
        let begun = self.ends.last().copied().unwrap_or(0);
        self.bytes.len().saturating_sub(begun)
    }

    /// Returns the bytes of all texts.
    pub(crate) fn into_bytes(self) -> Vec<u8> {
        self.bytes
    }

    /// Returns all texts.
    pub(crate) fn all(&self, alloc: Global) -> Result<Vec<&[u8]>, AllocError> {
        let mut texts = Vec::with_capacity(alloc, self.ends.len())?;
        let mut begun = 0;
        for end in &self.ends {
            texts.push(self.bytes.get(begun..*end).unwrap_or(&[]))?;
            begun = *end;
        }
        Ok(texts)
    }
}

/// Returns one of some texts.
#[inline(always)]
pub(crate) fn pick<'a>(texts: &[&'a [u8]], at: usize) -> &'a [u8] {
    texts.get(at).copied().unwrap_or(&[])
}

/// Returns a value for each text: its index in the list.
pub(crate) fn pairs_of<'a>(alloc: Global, texts: &[&'a [u8]]) -> Result<Vec<(&'a [u8], i32)>> {
    let mut pairs = Vec::with_capacity(alloc, texts.len())?;
    let mut value: i32 = 0;
    for text in texts {
        pairs.push((*text, value))?;
        value = value.saturating_add(1);
    }
    Ok(pairs)
}
