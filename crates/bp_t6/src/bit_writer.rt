// Bits gathered into bytes, the first bit highest.
ghost use Rattle.std.specs.Prelude.{◌≡◌, ◌<◌, ◌≤◌, ◌^◌, ◌++◌, Bool, List, [], OnOk, OnErr, IfOk};
ghost use Rattle.bp_codes.specs.Bits.{code_bits};
ghost use Rattle.bp_rows.specs.Packed.{packed_row};
ghost use Rattle.bp_t6.specs.Marks.{IsMarked, Continues};

use crate::lengths::LONGEST_CODE;
use crate::mark::Mark;
use bp_codes::Code;
use std::alloc::{AllocError, Global};
use std::marker::Model;
use std::mem;

/// Whole words of four bytes, and up to 31 bits that wait for more.
#[derive(Drop)]
pub struct BitWriter {
    bytes: Vec<u8>,
    held: u64,
    fill: u32,
}

// Clauses see the bits that were put.
impl Model for BitWriter {
    ghost use Rattle.std.specs.Prelude.{Bool, List};
    ghost use Rattle.bp_t6.specs.Gathered.{gathered, IsOut};

    ghost Value = { List Bool };

    ghost view = { λ w. gathered w.bytes.items w.held w.fill };

    ghost invariant = { λ w. IsOut w.bytes.items w.held w.fill };
}

impl BitWriter {
    /// No bits.
    pub fn new(alloc: Global) -> BitWriter
        ensures { result ≡ [] }
    {
        BitWriter {
            bytes: Vec::new(alloc),
            held: 0,
            fill: 0,
        }
    }

    /// Adds the bits of a code.
    #[inline(always)]
    pub fn put(&mut self, code: Code) -> Result<(), AllocError>
        requires short { code.len ≤ LONGEST_CODE }
        requires fits { code.bits < 2 ^ code.len }
        ensures ok { OnOk result (self.new ≡ self.old ++ code_bits code) }
        ensures err { OnErr result (self.new ≡ self.old) }
    {
        let held = self.held << code.len | u64::from(code.bits);
        let fill = self.fill + u32::from(code.len);
        if fill < 32 {
            self.held = held;
            self.fill = fill;
            return Ok(());
        }
        let rest = fill - 32;
        let word = (held >> rest) as u32;
        self.bytes.extend_from_slice(&word.to_be_bytes())?;
        self.held = held & ((1 << rest) - 1);
        self.fill = rest;
        Ok(())
    }

    /// Makes room for so many bytes more, in which putting takes no memory.
    pub fn reserve(&mut self, bytes: usize) -> Result<(), AllocError>
        ensures { self.new ≡ self.old }
    {
        self.bytes.reserve(bytes)
    }

    /// The place behind the bits so far.
    pub fn mark(&self) -> Mark
        ensures { IsMarked result self.now }
    {
        Mark {
            bytes: self.bytes.len(),
            held: self.held,
            fill: self.fill,
        }
    }

    /// Takes back the bits behind a place. It takes no memory.
    pub fn go_back(&mut self, mark: &Mark)
        ensures { (bits : List Bool) →
            IsMarked mark.now bits → Continues bits self.old → self.new ≡ bits }
    {
        self.bytes.truncate(mark.bytes);
        self.held = mark.held;
        self.fill = mark.fill;
    }

    /// The bytes of the bits, with zero bits to the byte. No bits are left.
    pub fn finish(&mut self, alloc: Global) -> Result<Vec<u8>, AllocError>
        ensures bytes { IfOk result (λ bytes. bytes.items ≡ packed_row self.old) }
        ensures none { OnOk result (self.new ≡ []) }
        ensures kept { OnErr result (self.new ≡ self.old) }
    {
        let word = (self.held << (32 - self.fill)) as u32;
        let last = word.to_be_bytes();
        let count = (self.fill as usize + 7) / 8;
        self.bytes.extend_from_slice(&last[..count])?;
        self.held = 0;
        self.fill = 0;
        Ok(mem::replace(&mut self.bytes, Vec::new(alloc)))
    }
}
