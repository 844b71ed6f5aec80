// The rules that a request can break, with the number and the name under which each is printed.
ghost use Rattle.std.specs.Prelude.{◌≡◌};
ghost use Rattle.bp_core.specs.Rules.{rule_number, rule_name, bare_rule, rule_at_line, page_limit_rule, bates_full_rule};
ghost use Rattle.bp_core.specs.Rules.{rule_naming, rule_naming_both, rule_with_line, check_gap_rule, not_listed_rule, not_produced_rule, notice_twice_rule};

use crate::numbers::DocNo;
use std::fmt;

/// A rule that a request can break.
#[derive(Clone, Copy, Debug, PartialEq, Eq)]
pub enum RuleKind {
    /// No member of the staff has the key.
    KeyUnknown,
    /// The matter has no such document; `a` is its number.
    NoDocument,
    /// The document has no such page; `a` is its number.
    NoPage,
    /// The caller's role may not make the call.
    RoleRefused,
    /// The box passes an edge of the page.
    BoxOutside,
    /// The number of the box is out of range, or a side of it is 0.
    BoxShape,
    /// The document is not called Redact.
    WrongTreatment,
    /// A box or a held field stands, so the document stays called Redact.
    BoxesRemain,
    /// A whole document is not withheld on this ground.
    BadBasis,
    /// The document has no call to confirm.
    NotCalled,
    /// The caller edited the document last.
    SamePerson,
    /// The document is called Redact, and has no box and no held field.
    NothingRedacted,
    /// What is held back for privilege has no log entry.
    EntryMissing,
    /// The matter has no field of that name.
    NoField,
    /// A text is over its limit, or has a character that it may not have.
    TextRefused,
    /// The range begins at document 0, begins behind its end, or ends behind the last document of the matter.
    RangeEmpty,
    /// A family reaches outside the range; `a` is its least document in the range.
    SplitFamily,
    /// A document is not settled; `a` is its number.
    Unsettled,
    /// No family of the range is left to produce.
    NothingResponsive,
    /// The id belongs to a production of another request.
    RequestDiffers,
    /// The prefix or its width is not of the form of a Bates prefix.
    BadPrefix,
    /// The prefix is kept with another width, which is `a`.
    PrefixDiffers,
    /// The numbers under the prefix end at `a`.
    BatesFull,
    /// The id or the name of the volume is not of its form.
    BadVolume,
    /// No production has that id.
    NoProduction,
    /// A batch of that name was imported with other files.
    BatchDiffers,
    /// A limit of a matter would be passed: `a` says which, `b` is the number reached.
    MatterFull,
    /// The key belongs to another member of the staff, whose number is `a`.
    StaffThere,
    /// The volume has no such file.
    NoFile,
    /// A field is chosen twice, or has the name of a fixed column.
    FieldChoice,
    /// The name of the volume belongs to a production.
    VolumeTaken,
    /// The keeper has a matter already.
    MatterThere,
    /// The keeper has no matter.
    NoMatter,
    /// `line` of the DAT file is not of its form.
    DatShape,
    /// The DAT file is not UTF-8.
    DatEncoding,
    /// The columns of the DAT file are not those of an import.
    DatColumns,
    /// `line` of the OPT file is not of its form.
    OptShape,
    /// There is no such file; in an import `a` says which, and `line` the OPT line of an image.
    FileAbsent,
    /// The file is too long to be read; in an import `a` says which, and `line` the OPT line of an image.
    FileTooLong,
    /// Record `line` of the words file is not of its form.
    WordShape,
    /// The word of record `line` passes an edge of its page.
    WordOutside,
    /// The word of record `line` is on a page that the OPT file does not name.
    WordsPage,
    /// Record `line` of the DAT file begins no family and belongs to none.
    FamilyBroken,
    /// The document breaks of the OPT file and the records of the DAT file part at OPT line `line`.
    DocBreaks,
    /// A side of a page is 0 or the page is too large: `a` is its width, `b` its height, in pixels.
    PageLimit,
    /// A path is empty, begins with `/`, holds `:`, or has an empty or `..` part, once each `\` is a `/` and each part `.` is gone.
    PathRefused,
    /// The T.6 data ends within row `a`; `b` is the bit.
    T6ShortData,
    /// The T.6 data has its end code within row `a`; `b` is the bit.
    T6EarlyEnd,
    /// The T.6 data has an extension code in row `a`; `b` is the bit.
    T6Extension,
    /// The T.6 data has no code where one is due, in row `a`; `b` is the bit.
    T6BadCode,
    /// A T.6 code leads back, past the edge, or nowhere, in row `a`; `b` is the bit.
    T6BadPlace,
    /// The file has no TIFF header.
    TiffHead,
    /// What the TIFF directory names leaves the file; `a` is the tag, or 0 for the directory.
    TiffBounds,
    /// The TIFF file lacks the tag `a`.
    TiffMissing,
    /// The TIFF field with the tag `a` has another type or count.
    TiffType,
    /// The TIFF file has another compression, which is `a`.
    TiffCompression,
    /// The TIFF field with the tag `a` has another value.
    TiffMeaning,
    /// The TIFF file has more than one page.
    TiffManyPages,
    /// The strips of the TIFF file are too few, too many or too short.
    TiffStrips,
    /// A kept row is not of its form: `a` is its kind, `b` is k1 times 2^32 plus k2.
    KeptRowBad,
    /// The DAT file of a volume has no column BEGDOC or ENDDOC, or a column twice.
    CheckColumns,
    /// The label of OPT `line` doesn't end in 1 to 18 digits.
    CheckLabel,
    /// The label of OPT `line` isn't the one that follows: `a` is the number due, `b` the number found.
    CheckGap,
    /// The documents of the OPT file and the records of the DAT file part at OPT line `line`.
    CheckBreaks,
    /// The count of pages of the document at OPT `line` is wrong, or stands where none may.
    CheckCount,
    /// `line` of the manifest is not of its form.
    ManifestShape,
    /// The file at `line` of the manifest has another digest.
    DigestDiffers,
    /// A file of the volume isn't in the manifest: `a` is its place among them, from 0.
    NotListed,
    /// Record `line` of the notice is not of its form.
    NoticeShape,
    /// The notice has no record.
    NoticeEmpty,
    /// The document of record `line` isn't produced, or is withheld; `a` is its number.
    NotProduced,
    /// The document of record `line` has an earlier record; `a` is its number.
    NoticeTwice,
    /// No receiver has that number of the staff.
    NotReceiver,
    /// Record `line` of the grants is not of its form.
    GrantShape,
    /// A search has no term or more than 8, or one that is empty, too long, or has a control character.
    TermRefused,
}

/// A broken rule: which one, the line of a file where there is one, and two values that the rule
/// names. What a rule does not use is 0.
#[derive(Clone, Copy, Debug, PartialEq, Eq)]
pub struct Rule {
    pub kind: RuleKind,
    pub line: u32,
    pub a: u64,
    pub b: u64,
}

impl Rule {
    /// A rule that uses no line and no value.
    pub fn bare(kind: RuleKind) -> Rule
        ensures { result ≡ bare_rule kind }
    {
        Rule {
            kind,
            line: 0,
            a: 0,
            b: 0,
        }
    }

    /// A rule that is broken at a line or record of a file, counted from 1. 0 is the whole file.
    pub fn at_line(kind: RuleKind, line: u32) -> Rule
        ensures { result ≡ rule_at_line kind line }
    {
        Rule {
            line,
            ..Rule::bare(kind)
        }
    }

    /// A rule that names one value: the number of what is there or missing, a tag, a largest.
    pub fn naming(kind: RuleKind, a: u64) -> Rule
        ensures { result ≡ rule_naming kind a }
    {
        Rule::naming_both(kind, a, 0)
    }

    /// A rule that names two values.
    pub fn naming_both(kind: RuleKind, a: u64, b: u64) -> Rule
        ensures { result ≡ rule_naming_both kind a b }
    {
        Rule {
            a,
            b,
            ..Rule::bare(kind)
        }
    }

    /// The same rule, broken at this line or record of a file, counted from 1.
    pub fn with_line(self, line: u32) -> Rule
        ensures { result ≡ rule_with_line self line }
    {
        Rule { line, ..self }
    }

    /// PageLimit, with sides in pixels that a page may not have.
    pub fn page_limit(width: u32, height: u32) -> Rule
        ensures { result ≡ page_limit_rule width height }
    {
        Rule::naming_both(RuleKind::PageLimit, u64::from(width), u64::from(height))
    }

    /// BatesFull, with the largest number under the prefix.
    pub fn bates_full(largest: u64) -> Rule
        ensures { result ≡ bates_full_rule largest }
    {
        Rule::naming(RuleKind::BatesFull, largest)
    }

    /// CheckGap at a line of an OPT file, counted from 1: the number that is due in its label, which
    /// is one more than that of the line before, and the number that was found.
    pub fn check_gap(line: u32, due: u64, found: u64) -> Rule
        ensures { result ≡ check_gap_rule line due found }
    {
        Rule::naming_both(RuleKind::CheckGap, due, found).with_line(line)
    }

    /// NotListed, with the place of the file among those of the volume, counted from 0.
    pub fn not_listed(place: u64) -> Rule
        ensures { result ≡ not_listed_rule place }
    {
        Rule::naming(RuleKind::NotListed, place)
    }

    /// NotProduced, with the record of a notice, counted from 1, and the document that it names.
    pub fn not_produced(place: u32, doc: DocNo) -> Rule
        ensures { result ≡ not_produced_rule place doc.0 }
    {
        Rule::naming(RuleKind::NotProduced, u64::from(doc.0)).with_line(place)
    }

    /// NoticeTwice, with the record of a notice, counted from 1, and the document that it names.
    pub fn notice_twice(place: u32, doc: DocNo) -> Rule
        ensures { result ≡ notice_twice_rule place doc.0 }
    {
        Rule::naming(RuleKind::NoticeTwice, u64::from(doc.0)).with_line(place)
    }

    /// The number of the rule.
    pub fn number(&self) -> u16
        ensures { result ≡ rule_number self.now.kind }
    {
        number_and_name(self.kind).0
    }

    /// The name of the rule, in ASCII.
    pub fn name(&self) -> &'static str
        ensures { result.now ≡ rule_name self.now.kind }
    {
        number_and_name(self.kind).1
    }
}

/// Number, name, line and the two values, with a space between.
impl fmt::Display for Rule {
    ghost use Rattle.std.specs.Prelude.{Some};
    ghost use Rattle.bp_core.specs.Rules.{rule_text};

    ghost output = { λ rule. Some (rule_text rule) };

    fn fmt<W: fmt::Write>(&self, f: &mut fmt::Formatter<W>) -> fmt::Result {
        let number = self.number();
        let name = self.name();
        let line = self.line;
        let a = self.a;
        let b = self.b;
        write!(f, "{number} {name} {line}")?;
        write!(f, " {a} {b}")
    }
}

// The one table of numbers and names.
fn number_and_name(kind: RuleKind) -> (u16, &'static str)
    ensures number { result.0 ≡ rule_number kind }
    ensures name { result.1.now ≡ rule_name kind }
{
    match kind {
        RuleKind::KeyUnknown => (9, "KeyUnknown"),
        RuleKind::NoDocument => (10, "NoDocument"),
        RuleKind::NoPage => (11, "NoPage"),
        RuleKind::RoleRefused => (12, "RoleRefused"),
        RuleKind::BoxOutside => (13, "BoxOutside"),
        RuleKind::BoxShape => (14, "BoxShape"),
        RuleKind::WrongTreatment => (15, "WrongTreatment"),
        RuleKind::BoxesRemain => (16, "BoxesRemain"),
        RuleKind::BadBasis => (17, "BadBasis"),
        RuleKind::NotCalled => (18, "NotCalled"),
        RuleKind::SamePerson => (19, "SamePerson"),
        RuleKind::NothingRedacted => (20, "NothingRedacted"),
        RuleKind::EntryMissing => (21, "EntryMissing"),
        RuleKind::NoField => (22, "NoField"),
        RuleKind::TextRefused => (23, "TextRefused"),
        RuleKind::RangeEmpty => (24, "RangeEmpty"),
        RuleKind::SplitFamily => (25, "SplitFamily"),
        RuleKind::Unsettled => (26, "Unsettled"),
        RuleKind::NothingResponsive => (27, "NothingResponsive"),
        RuleKind::RequestDiffers => (28, "RequestDiffers"),
        RuleKind::BadPrefix => (29, "BadPrefix"),
        RuleKind::PrefixDiffers => (30, "PrefixDiffers"),
        RuleKind::BatesFull => (31, "BatesFull"),
        RuleKind::BadVolume => (32, "BadVolume"),
        RuleKind::NoProduction => (33, "NoProduction"),
        RuleKind::BatchDiffers => (34, "BatchDiffers"),
        RuleKind::MatterFull => (35, "MatterFull"),
        RuleKind::StaffThere => (36, "StaffThere"),
        RuleKind::NoFile => (38, "NoFile"),
        RuleKind::FieldChoice => (40, "FieldChoice"),
        RuleKind::VolumeTaken => (41, "VolumeTaken"),
        RuleKind::MatterThere => (42, "MatterThere"),
        RuleKind::NoMatter => (43, "NoMatter"),
        RuleKind::DatShape => (50, "DatShape"),
        RuleKind::DatEncoding => (51, "DatEncoding"),
        RuleKind::DatColumns => (52, "DatColumns"),
        RuleKind::OptShape => (53, "OptShape"),
        RuleKind::FileAbsent => (54, "FileAbsent"),
        RuleKind::FileTooLong => (55, "FileTooLong"),
        RuleKind::WordShape => (57, "WordShape"),
        RuleKind::WordOutside => (58, "WordOutside"),
        RuleKind::WordsPage => (59, "WordsPage"),
        RuleKind::FamilyBroken => (60, "FamilyBroken"),
        RuleKind::DocBreaks => (61, "DocBreaks"),
        RuleKind::PageLimit => (62, "PageLimit"),
        RuleKind::PathRefused => (63, "PathRefused"),
        RuleKind::T6ShortData => (70, "T6ShortData"),
        RuleKind::T6EarlyEnd => (71, "T6EarlyEnd"),
        RuleKind::T6Extension => (72, "T6Extension"),
        RuleKind::T6BadCode => (73, "T6BadCode"),
        RuleKind::T6BadPlace => (74, "T6BadPlace"),
        RuleKind::TiffHead => (80, "TiffHead"),
        RuleKind::TiffBounds => (81, "TiffBounds"),
        RuleKind::TiffMissing => (82, "TiffMissing"),
        RuleKind::TiffType => (83, "TiffType"),
        RuleKind::TiffCompression => (84, "TiffCompression"),
        RuleKind::TiffMeaning => (85, "TiffMeaning"),
        RuleKind::TiffManyPages => (86, "TiffManyPages"),
        RuleKind::TiffStrips => (87, "TiffStrips"),
        RuleKind::KeptRowBad => (90, "KeptRowBad"),
        RuleKind::CheckColumns => (110, "CheckColumns"),
        RuleKind::CheckLabel => (111, "CheckLabel"),
        RuleKind::CheckGap => (112, "CheckGap"),
        RuleKind::CheckBreaks => (113, "CheckBreaks"),
        RuleKind::CheckCount => (114, "CheckCount"),
        RuleKind::ManifestShape => (115, "ManifestShape"),
        RuleKind::DigestDiffers => (116, "DigestDiffers"),
        RuleKind::NotListed => (117, "NotListed"),
        RuleKind::NoticeShape => (120, "NoticeShape"),
        RuleKind::NoticeEmpty => (121, "NoticeEmpty"),
        RuleKind::NotProduced => (122, "NotProduced"),
        RuleKind::NoticeTwice => (123, "NoticeTwice"),
        RuleKind::NotReceiver => (130, "NotReceiver"),
        RuleKind::GrantShape => (131, "GrantShape"),
        RuleKind::TermRefused => (140, "TermRefused"),
    }
}
