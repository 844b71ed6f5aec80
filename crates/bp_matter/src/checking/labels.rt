// What tells the rows of each kind apart.
ghost use Rattle.std.specs.Prelude.{◌≡◌, encode_utf8_all};
ghost use Rattle.std.specs.Str.{chars};

use crate::rows::{BatchRow, FieldRow, PrefixRow, ProductionRow, StaffRow};
use bp_core::{Text, UniqueText};

// The characters in UTF-8.
pub(crate) fn text_bytes(text: &Text) -> &[u8]
    ensures bytes { result.now ≡ encode_utf8_all text.now }
    ensures text { chars result.now ≡ text.now }
{
    text.as_str().as_bytes()
}

pub struct StaffDigest;

pub struct FieldName;

pub struct BatchName;

pub struct PrefixText;

pub struct ProductionId;

pub struct VolumeName;

pub struct ChosenField;

impl UniqueText<StaffRow> for StaffDigest {
    ghost use Rattle.bp_matter.specs.ValidProductions.{itself};
    ghost use Rattle.bp_matter.specs.ValidStaff.{staff_digest};

    ghost text_of = { staff_digest };

    ghost coded = { itself };

    ghost decoded = { itself };

    fn bytes(row: &StaffRow) -> &[u8] {
        row.digest.as_slice()
    }
}

impl UniqueText<FieldRow> for FieldName {
    ghost use Rattle.std.specs.Prelude.{encode_utf8_all};
    ghost use Rattle.std.specs.Str.{chars};
    ghost use Rattle.bp_matter.specs.ValidFields.{field_name};

    ghost text_of = { field_name };

    ghost coded = { encode_utf8_all };

    ghost decoded = { chars };

    fn bytes(row: &FieldRow) -> &[u8] {
        text_bytes(&row.name)
    }
}

impl UniqueText<BatchRow> for BatchName {
    ghost use Rattle.std.specs.Prelude.{encode_utf8_all};
    ghost use Rattle.std.specs.Str.{chars};
    ghost use Rattle.bp_matter.specs.ValidBatches.{batch_name};

    ghost text_of = { batch_name };

    ghost coded = { encode_utf8_all };

    ghost decoded = { chars };

    fn bytes(row: &BatchRow) -> &[u8] {
        text_bytes(&row.name)
    }
}

impl UniqueText<PrefixRow> for PrefixText {
    ghost use Rattle.std.specs.Prelude.{encode_utf8_all};
    ghost use Rattle.std.specs.Str.{chars};
    ghost use Rattle.bp_matter.specs.ValidPrefixes.{prefix_text};

    ghost text_of = { prefix_text };

    ghost coded = { encode_utf8_all };

    ghost decoded = { chars };

    fn bytes(row: &PrefixRow) -> &[u8] {
        text_bytes(&row.prefix.text)
    }
}

impl UniqueText<ProductionRow> for ProductionId {
    ghost use Rattle.std.specs.Prelude.{encode_utf8_all};
    ghost use Rattle.std.specs.Str.{chars};
    ghost use Rattle.bp_matter.specs.ValidProductions.{production_id};

    ghost text_of = { production_id };

    ghost coded = { encode_utf8_all };

    ghost decoded = { chars };

    fn bytes(row: &ProductionRow) -> &[u8] {
        text_bytes(&row.production.request.id)
    }
}

impl UniqueText<ProductionRow> for VolumeName {
    ghost use Rattle.std.specs.Prelude.{encode_utf8_all};
    ghost use Rattle.std.specs.Str.{chars};
    ghost use Rattle.bp_matter.specs.ValidProductions.{production_volume};

    ghost text_of = { production_volume };

    ghost coded = { encode_utf8_all };

    ghost decoded = { chars };

    fn bytes(row: &ProductionRow) -> &[u8] {
        text_bytes(&row.production.request.volume)
    }
}

impl UniqueText<Text> for ChosenField {
    ghost use Rattle.std.specs.Prelude.{encode_utf8_all};
    ghost use Rattle.std.specs.Str.{chars};
    ghost use Rattle.bp_matter.specs.ValidProductions.{itself};

    ghost text_of = { itself };

    ghost coded = { encode_utf8_all };

    ghost decoded = { chars };

    fn bytes(row: &Text) -> &[u8] {
        text_bytes(row)
    }
}
