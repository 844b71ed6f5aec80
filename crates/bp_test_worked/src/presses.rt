// Presses: two matters that differ in what is covered, and a press that stops.
use crate::scripts::are_told;

// Below the box of document 1 its pixels and words differ, its field is held back, and document 2 is
// withheld, of one page and of three: both volumes are the same.
const TWO_MATTERS: &str = "files
file V/load.dat þBEGDOCþ%14þBEGATTACHþ%14þAUTHORþ%0aþA1þ%14þþ%14þSmithþ%0aþA2þ%14þþ%14þþ%0a
file V/load.opt A1,,a.tif,Y%0aA2,,b.tif,Y%0a
file V/words.csv A1,1,8,8,16,8,Smith%0a
image V/a.tif plain 200 64 32 8 8 8 8
image V/b.tif plain 200 8 1 0 0 0 0
begin 1
call 1 AddStaff Ito second 2 = staff 2
import V = 2 2
call 1 SetCall 1 yes redact - = done
call 1 PutBox 1 1 1 8 8 16 8 PI = done
call 1 HoldField 1 AUTHOR PI = done
call 2 Confirm 1 = done
call 1 SetCall 2 yes WP - = done
call 1 PutEntry 2 2019-03-04 Ng Ortiz Note = done
call 2 Confirm 2 = done
call 1 Freeze R V1 AB- 4 1 2 AUTHOR = produced 1:1-1 2:2-2
press R = 8 files
# Each file as it was computed apart: the digest of the list of their digests.
manifest = 0ccf14e895fc12e8d0090ccc0177afd6fb35c76bc2f267db656faa69c15dd594
path 1 = V1/IMAGES/0001/AB-0001.TIF
path 2 = V1/TEXT/0001/AB-0001.TXT
path 3 = V1/IMAGES/0001/AB-0002.TIF
path 4 = V1/TEXT/0001/AB-0002.TXT
path 5 = V1/DATA/V1.DAT
path 6 = V1/DATA/V1.OPT
path 7 = V1/DATA/V1-LOG.CSV
path 8 = V1/MANIFEST.TXT
path 9 = none
text V1/TEXT/0001/AB-0001.TXT = %0c
text V1/TEXT/0001/AB-0002.TXT = DOCUMENT_WITHHELD_-_WP%0d%0a%0c
text V1/DATA/V1.OPT = AB-0001,V1,V1\\IMAGES\\0001\\AB-0001.TIF,Y,,,1%0d%0aAB-0002,V1,V1\\IMAGES\\0001\\AB-0002.TIF,Y,,,1%0d%0a
find R V1/TEXT/0001/AB-0001.TXT = 1
found R = yes
find R V1/TEXT/0001/AB-0003.TXT = refused 38 NoFile 0 0 0
shelve
files
file V/load.dat þBEGDOCþ%14þBEGATTACHþ%14þAUTHORþ%0aþA1þ%14þþ%14þJonesþ%0aþA2þ%14þþ%14þþ%0a
file V/load.opt A1,,a.tif,Y%0aA2,,b.tif,Y%0aA3,,b.tif%0aA4,,b.tif%0a
file V/words.csv A1,1,8,8,8,8,Jo%0aA1,1,16,8,8,8,Hart%0a
image V/a.tif plain 200 64 32 12 8 12 8
image V/b.tif plain 200 8 1 0 0 0 0
begin 1
call 1 AddStaff Ito second 2 = staff 2
import V = 2 4
call 1 SetCall 1 yes redact - = done
call 1 PutBox 1 1 1 8 8 16 8 PI = done
call 1 HoldField 1 AUTHOR PI = done
call 2 Confirm 1 = done
call 1 SetCall 2 yes WP - = done
call 1 PutEntry 2 2019-03-04 Ng Ortiz Note = done
call 2 Confirm 2 = done
call 1 Freeze R V1 AB- 4 1 2 AUTHOR = produced 1:1-1 2:2-2
press R = 8 files
alike = yes
";

#[test]
fn what_is_covered_changes_no_file(rt: HostRuntime) {
    are_told(&rt, rt.alloc(), TWO_MATTERS);
}

// The jobs of the two images of the first matter, of which each waits for the other to begin. Each
// enters once.
const TWO_IMAGES: &str = "files
file V/load.dat þBEGDOCþ%14þBEGATTACHþ%14þAUTHORþ%0aþA1þ%14þþ%14þSmithþ%0aþA2þ%14þþ%14þþ%0a
file V/load.opt A1,,a.tif,Y%0aA2,,b.tif,Y%0a
file V/words.csv A1,1,8,8,16,8,Smith%0a
image V/a.tif plain 200 64 32 8 8 8 8
image V/b.tif plain 200 8 1 0 0 0 0
begin 1
call 1 AddStaff Ito second 2 = staff 2
import V = 2 2
call 1 SetCall 1 yes redact - = done
call 1 PutBox 1 1 1 8 8 16 8 PI = done
call 1 HoldField 1 AUTHOR PI = done
call 2 Confirm 1 = done
call 1 SetCall 2 yes WP - = done
call 1 PutEntry 2 2019-03-04 Ng Ortiz Note = done
call 2 Confirm 2 = done
call 1 Freeze R V1 AB- 4 1 2 AUTHOR = produced 1:1-1 2:2-2
meet R 2 = 2 0000000000000011
";

#[test]
fn two_images(rt: HostRuntime) {
    are_told(&rt, rt.alloc(), TWO_IMAGES);
}

// The jobs of twenty images. Sixteen are made at a time: each of these waits until all sixteen have
// begun. The last four come behind them, and begin with 0 again. Each enters once.
const TWENTY_IMAGES: &str = "files
file V/load.dat þBEGDOCþ%14þBEGATTACHþ%0aþA01þ%14þþ%0a
file V/load.opt A01,,b.tif,Y%0aA02,,b.tif%0aA03,,b.tif%0aA04,,b.tif%0aA05,,b.tif%0aA06,,b.tif%0aA07,,b.tif%0aA08,,b.tif%0aA09,,b.tif%0aA10,,b.tif%0aA11,,b.tif%0aA12,,b.tif%0aA13,,b.tif%0aA14,,b.tif%0aA15,,b.tif%0aA16,,b.tif%0aA17,,b.tif%0aA18,,b.tif%0aA19,,b.tif%0aA20,,b.tif%0a
file V/words.csv -
image V/b.tif plain 200 8 1 0 0 0 0
begin 1
import V = 1 20
call 1 SetCall 1 yes produce - = done
call 1 Freeze R V1 AB- 4 1 1 = produced 1:1-20
meet R 16 = 20 1111111111112222
press R = 25 files
found R = yes
find R V1/TEXT/0001/AB-0002.TXT = refused 38 NoFile 0 0 0
find R V1/IMAGES/0002/AB-0020.TIF = refused 38 NoFile 0 0 0
";

#[test]
fn sixteen_images(rt: HostRuntime) {
    are_told(&rt, rt.alloc(), TWENTY_IMAGES);
}

// The same, where the fifth append fails.
const STOPPED: &str = "files
file V/load.dat þBEGDOCþ%14þBEGATTACHþ%14þAUTHORþ%0aþA1þ%14þþ%14þSmithþ%0aþA2þ%14þþ%14þþ%0a
file V/load.opt A1,,a.tif,Y%0aA2,,b.tif,Y%0a
file V/words.csv A1,1,8,8,16,8,Smith%0a
image V/a.tif plain 200 64 32 8 8 8 8
image V/b.tif plain 200 8 1 0 0 0 0
begin 1
call 1 AddStaff Ito second 2 = staff 2
import V = 2 2
call 1 SetCall 1 yes redact - = done
call 1 PutBox 1 1 1 8 8 16 8 PI = done
call 1 HoldField 1 AUTHOR PI = done
call 2 Confirm 1 = done
call 1 SetCall 2 yes WP - = done
call 1 PutEntry 2 2019-03-04 Ng Ortiz Note = done
call 2 Confirm 2 = done
call 1 Freeze R V1 AB- 4 1 2 AUTHOR = produced 1:1-1 2:2-2
press R = 8 files
shelve
press R 13 = folder fault
part = 5 4
left = 5
";

#[test]
fn a_press_that_stops_leaves_a_first_part(rt: HostRuntime) {
    are_told(&rt, rt.alloc(), STOPPED);
}
