// What stands in the lists of bodies: texts, boxes, held fields, words and items.
use crate::parts::Part;
use crate::read_fault::ReadFault;
use crate::reading::{take_box_part, take_held_part, take_item, take_text, take_word_part};
use crate::rows::{BoxRow, HeldRow, Item};
use crate::writing::{put_box_part, put_held_part, put_item, put_text, put_word_part};
use bp_core::{OutOfMemory, Text};
use bp_text::Word;
use std::alloc::Global;

impl Part for Text {
    ghost use Rattle.bp_matter.specs.Fields.{text_kept};
    ghost use Rattle.bp_matter.specs.Written.{is_short};
    ghost use Rattle.bp_matter.specs.Reading.{text_at};

    ghost part_of = { text_kept };

    ghost is_written = { is_short };

    ghost read_at = { text_at };

    fn put(&self, out: &mut Vec<u8>) -> Result<(), OutOfMemory> {
        put_text(out, self)
    }

    fn take(alloc: Global, bytes: &[u8]) -> Result<(Text, &[u8]), ReadFault> {
        take_text(alloc, bytes)
    }
}

impl Part for BoxRow {
    ghost use Rattle.bp_matter.specs.Bodies.{box_part};
    ghost use Rattle.bp_matter.specs.Written.{box_row_written};
    ghost use Rattle.bp_matter.specs.Reading.{box_part_at};

    ghost part_of = { box_part };

    ghost is_written = { box_row_written };

    ghost read_at = { box_part_at };

    fn put(&self, out: &mut Vec<u8>) -> Result<(), OutOfMemory> {
        put_box_part(out, self)
    }

    fn take(_alloc: Global, bytes: &[u8]) -> Result<(BoxRow, &[u8]), ReadFault> {
        take_box_part(bytes)
    }
}

impl Part for HeldRow {
    ghost use Rattle.bp_matter.specs.Bodies.{held_part};
    ghost use Rattle.bp_matter.specs.Written.{held_row_written};
    ghost use Rattle.bp_matter.specs.Reading.{held_part_at};

    ghost part_of = { held_part };

    ghost is_written = { held_row_written };

    ghost read_at = { held_part_at };

    fn put(&self, out: &mut Vec<u8>) -> Result<(), OutOfMemory> {
        put_held_part(out, self)
    }

    fn take(_alloc: Global, bytes: &[u8]) -> Result<(HeldRow, &[u8]), ReadFault> {
        take_held_part(bytes)
    }
}

impl Part for Word {
    ghost use Rattle.bp_matter.specs.Bodies.{word_part};
    ghost use Rattle.bp_matter.specs.Written.{word_written};
    ghost use Rattle.bp_matter.specs.Reading.{word_part_at};

    ghost part_of = { word_part };

    ghost is_written = { word_written };

    ghost read_at = { word_part_at };

    fn put(&self, out: &mut Vec<u8>) -> Result<(), OutOfMemory> {
        put_word_part(out, self)
    }

    fn take(alloc: Global, bytes: &[u8]) -> Result<(Word, &[u8]), ReadFault> {
        take_word_part(alloc, bytes)
    }
}

impl Part for Item {
    ghost use Rattle.bp_matter.specs.Bodies.{item_part};
    ghost use Rattle.bp_matter.specs.Written.{item_written};
    ghost use Rattle.bp_matter.specs.Reading.{item_at};

    ghost part_of = { item_part };

    ghost is_written = { item_written };

    ghost read_at = { item_at };

    fn put(&self, out: &mut Vec<u8>) -> Result<(), OutOfMemory> {
        put_item(out, self)
    }

    fn take(alloc: Global, bytes: &[u8]) -> Result<(Item, &[u8]), ReadFault> {
        take_item(alloc, bytes)
    }
}
