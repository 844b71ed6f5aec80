// Lines coded, one below another.
ghost use Rattle.std.specs.Prelude.{◌≡◌, ◌≤◌, ◌++◌, Bool, List, [], OnOk, OnErr, IfOk};
ghost use Rattle.bp_codes.specs.CodeLists.{end_of_block};
ghost use Rattle.bp_rows.specs.Changes.{Rises, Shows};
ghost use Rattle.bp_rows.specs.Packed.{packed_row};
ghost use Rattle.bp_t6.specs.Marks.{Continues};
ghost use Rattle.bp_t6.specs.Written.{row_code};

use crate::bit_copy::copy_bits;
use crate::bit_writer::BitWriter;
use crate::row::code_row;
use crate::row_code::RowCode;
use crate::same_row::{ones_of, put_ones};
use crate::tables::{CodeTables, put_end_of_block};
use bp_rows::MAX_WIDTH;
use std::alloc::{AllocError, Global};
use std::mem;

/// The bits of the lines so far, and the changing elements of the last line, which is the reference
/// line of the next.
#[derive(Drop)]
pub struct LineWriter {
    pub tables: CodeTables,
    pub out: BitWriter,
    pub above: Vec<u32>,
    pub width: u32,
}

impl LineWriter {
    /// No lines of that width: the reference line of the first is white.
    pub fn new(alloc: Global, width: u32) -> LineWriter
        ensures out { result.out ≡ [] }
        ensures above { result.above.items ≡ [] }
        ensures width { result.width ≡ width }
    {
        LineWriter {
            tables: CodeTables::new(),
            out: BitWriter::new(alloc),
            above: Vec::new(alloc),
            width,
        }
    }

    /// Adds the line whose changing elements are lent. The list comes back with those of the line
    /// before. A refusal takes back what was put.
    pub fn add(&mut self, line: &mut Vec<u32>) -> Result<(), AllocError>
        requires wide { self.old.width ≤ MAX_WIDTH }
        requires line { Rises line.old.items self.old.width }
        requires above { Rises self.old.above.items self.old.width }
        ensures width { self.new.width ≡ self.old.width }
        ensures above { OnOk result (self.new.above.items ≡ line.old.items) }
        ensures coded { (row over : List Bool) →
            Shows line.old.items self.old.width row →
            Shows self.old.above.items self.old.width over →
            OnOk result (self.new.out ≡ self.old.out ++ row_code over row) }
        ensures out_kept { OnErr result (self.new.out ≡ self.old.out) }
        ensures above_kept { OnErr result (self.new.above.items ≡ self.old.above.items) }
    {
        let mark = self.out.mark();
        if let Err(error) = put_row(line, &self.above, self.width, &self.tables, &mut self.out) {
            self.out.go_back(&mark);
            return Err(error);
        }
        mem::swap(line, &mut self.above);
        Ok(())
    }

    /// Adds the line whose changing elements are lent, with these bits as its code. The list comes back
    /// with those of the line before. A refusal takes back what was put.
    pub fn copy(&mut self, line: &mut Vec<u32>, code: &RowCode) -> Result<(), AllocError>
        ensures width { self.new.width ≡ self.old.width }
        ensures above { OnOk result (self.new.above.items ≡ line.old.items) }
        ensures copied { OnOk result (self.new.out ≡ self.old.out ++ code.now) }
        ensures out_kept { OnErr result (self.new.out ≡ self.old.out) }
        ensures above_kept { OnErr result (self.new.above.items ≡ self.old.above.items) }
    {
        let mark = self.out.mark();
        if let Err(error) = copy_bits(&mut self.out, code) {
            self.out.go_back(&mark);
            return Err(error);
        }
        mem::swap(&mut self.above, line);
        Ok(())
    }

    /// The bytes, with the end of the facsimile block and zero bits to the byte. No lines are left.
    /// A refusal takes back what was put.
    pub fn finish(&mut self, alloc: Global) -> Result<Vec<u8>, AllocError>
        ensures bytes { let bits = self.old.out ++ end_of_block in
            IfOk result (λ bytes. bytes.items ≡ packed_row bits) }
        ensures width { self.new.width ≡ self.old.width }
        ensures out { OnOk result (self.new.out ≡ []) }
        ensures above { OnOk result (self.new.above.items ≡ []) }
        ensures out_kept { OnErr result (self.new.out ≡ self.old.out) }
        ensures above_kept { OnErr result (self.new.above.items ≡ self.old.above.items) }
    {
        let mark = self.out.mark();
        match end_bits(alloc, &mut self.out) {
            Ok(bytes) => {
                self.above.clear();
                Ok(bytes)
            }
            Err(error) => {
                self.out.go_back(&mark);
                Err(error)
            }
        }
    }
}

// The code of a row goes out, given the changes of the row and of the row above it. Of a row that is the
// same as that above no mode is looked for.
fn put_row(
    line: &[u32],
    above: &[u32],
    width: u32,
    tables: &CodeTables,
    out: &mut BitWriter,
) -> Result<(), AllocError>
    requires wide { width ≤ MAX_WIDTH }
    requires line { Rises line.now width }
    requires above { Rises above.now width }
    ensures coded { (row over : List Bool) →
        Shows line.now width row →
        Shows above.now width over →
        OnOk result (out.new ≡ out.old ++ row_code over row) }
    ensures begins { Continues out.old out.new }
{
    if line == above {
        return put_ones(out, ones_of(line, width));
    }
    code_row(line, above, width, tables, out)
}

// The bytes of the bits and of the end of the facsimile block.
fn end_bits(alloc: Global, out: &mut BitWriter) -> Result<Vec<u8>, AllocError>
    ensures bytes { IfOk result (λ bytes. bytes.items ≡ packed_row (out.old ++ end_of_block)) }
    ensures none { OnOk result (out.new ≡ []) }
    ensures begins { OnErr result (Continues out.old out.new) }
{
    put_end_of_block(out)?;
    out.finish(alloc)
}
