// Tables from what stands in print.

// Codes, each as a string of 0 and 1; or glyphs, eight side by side and each as its rows of bits
// from the top down.
macro_rules! rows_in_print {
    ($($code:literal)*) => {
        [$(printed($code)),*]
    };
    ($(eight: $(
        $a:literal $b:literal $c:literal $d:literal $e:literal $f:literal $g:literal $h:literal
    )*);*) => {
        [$(
            [$($a),*], [$($b),*], [$($c),*], [$($d),*],
            [$($e),*], [$($f),*], [$($g),*], [$($h),*]
        ),*]
    };
}

pub(crate) use rows_in_print;
