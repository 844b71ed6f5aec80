// A label: the prefix, and the number with leading zeros.
ghost use Rattle.std.specs.Prelude.{◌≡◌, ℕ, ◌≤◌, ◌<◌, ◌++◌, List, drop, length, IsTrue};
ghost use Rattle.bp_bates.specs.Prefixes.{is_good_prefix};
ghost use Rattle.bp_bates.specs.Spans.{largest_of};
ghost use Rattle.bp_bates.specs.Labels.{bates_label, padded, IsSameLabel};

use crate::prefixes::Prefix;

/// Writes the prefix, and the number in the prefix's width with leading zeros, in ASCII; the bytes after
/// them stay. Answers how many bytes the label has.
pub fn label_into(prefix: &Prefix, number: u64, into: &mut [u8; 22]) -> usize
    requires good { IsTrue (is_good_prefix prefix.now.text prefix.now.width) }
    requires from { 1 ≤ number }
    requires to { number ≤ largest_of prefix.now.width }
    ensures length { result ≡ length (bates_label prefix.now.text prefix.now.width number) }
    ensures label { let label = bates_label prefix.now.text prefix.now.width number in
        into.new ≡ label ++ drop (length label) into.old }
{
    let text = prefix_bytes(prefix);
    let start = text.len();
    let end = start + usize::from(prefix.width);
    into[..start].copy_from_slice(text);
    write_digits(&mut into[start..end], number);
    end
}

// The text of a good prefix, which is ASCII.
fn prefix_bytes(prefix: &Prefix) -> &[u8]
    requires { IsTrue (is_good_prefix prefix.now.text prefix.now.width) }
    ensures text { result.now ≡ prefix.now.text }
    ensures short { length result.now ≤ 12 }
    ensures narrow { prefix.now.width ≤ 10 }
{
    prefix.text.as_str().as_bytes()
}

// Writes the last decimal digits of the number, as many as there is room for.
fn write_digits(into: &mut [u8], number: u64)
    ensures { into.new ≡ padded (length into.old) number }
{
    let mut rest = number;
    for place in (0..into.len()).rev() {
        into[place] = b'0' + (rest % 10) as u8;
        rest /= 10;
    }
}

/// Labels that are equal were made of equal prefixes, equal widths and equal numbers.
pub fn labels_tell_apart()
    ensures { (p q : List ℕ) (v w m n : ℕ)
        → IsTrue (is_good_prefix p v)
        → IsTrue (is_good_prefix q w)
        → m ≤ largest_of v
        → n ≤ largest_of w
        → bates_label p v m ≡ bates_label q w n
        → IsSameLabel p q v w m n }
{}
