// The codes of modes, of runs and of the end, put as bits (ITU-T T.6, tables 1 to 3).
ghost use Rattle.std.specs.Prelude.{◌≡◌, ◌<◌, ◌≤◌, ◌+◌, ◌-◌, ◌^◌, ◌++◌, Bool, List, [], OnOk, length, if◌then◌else◌, not, true};
ghost use Rattle.bp_codes.specs.CodeLists.{white_codes, black_codes, mode_codes, end_of_block};
ghost use Rattle.bp_t6.specs.Modes.{code, run_bits_in, run_codes};
ghost use Rattle.bp_t6.specs.Gathered.{AreShort};
ghost use Rattle.bp_t6.specs.Marks.{Continues};
ghost use Rattle.bp_t6.specs.Written.{written_run};

use crate::bit_writer::BitWriter;
use crate::lengths::{BEFORE_MAKE_UPS, MAKE_UP_STEP, MAKE_UPS};
use bp_codes::{Code, CodeTable, black, modes, white};
use std::alloc::AllocError;

/// The run of the longest make-up code, in pixels.
const LONGEST_MAKE_UP: u32 = MAKE_UP_STEP * MAKE_UPS;

/// The three tables.
#[derive(Drop)]
pub struct CodeTables {
    white: CodeTable<104>,
    black: CodeTable<104>,
    modes: CodeTable<9>,
    ghost white_is: { white ≡ white_codes },
    ghost black_is: { black ≡ black_codes },
    ghost modes_is: { modes ≡ mode_codes },
}

impl CodeTables {
    pub fn new() -> CodeTables {
        CodeTables {
            white: white(),
            black: black(),
            modes: modes(),
        }
    }

    #[inline(always)]
    pub fn run_table(&self, is_black: bool) -> &CodeTable<104>
        ensures is { result.now ≡ run_codes is_black }
        ensures short { AreShort result.now ≡ true }
    {
        if is_black { &self.black } else { &self.white }
    }

    #[inline(always)]
    pub fn mode_table(&self) -> &CodeTable<9>
        ensures is { result.now ≡ mode_codes }
        ensures short { AreShort result.now ≡ true }
    {
        &self.modes
    }

    /// The code of a row of the mode table goes out.
    #[inline(always)]
    pub fn put_mode(&self, out: &mut BitWriter, row: usize) -> Result<(), AllocError>
        requires { row < 9 }
        ensures put { OnOk result (out.new ≡ out.old ++ code mode_codes row) }
        ensures begins { Continues out.old out.new }
    {
        put_code(out, self.mode_table(), row)
    }

    /// The codes of a run go out.
    #[inline(always)]
    pub fn put_run(&self, out: &mut BitWriter, is_black: bool, run: u32) -> Result<(), AllocError>
        ensures put { let bits = run_bits_in (run_codes is_black) (written_run run) in
            OnOk result (out.new ≡ out.old ++ bits) }
        ensures begins { Continues out.old out.new }
    {
        put_run(out, self.run_table(is_black), run)
    }
}

/// The end of the facsimile block goes out: twice the end-of-line code (ITU-T T.6, EOFB).
pub fn put_end_of_block(out: &mut BitWriter) -> Result<(), AllocError>
    ensures put { OnOk result (out.new ≡ out.old ++ end_of_block) }
    ensures begins { Continues out.old out.new }
{
    let end = Code { bits: 1, len: 12 };
    out.put(end)?;
    out.put(end)
}

// The codes of a run: make-up codes as many as it takes, and a terminating code.
#[inline(always)]
fn put_run(out: &mut BitWriter, codes: &CodeTable<104>, run: u32) -> Result<(), AllocError>
    requires { AreShort codes.now ≡ true }
    ensures put { OnOk result (out.new ≡ out.old ++ run_bits_in codes.now (written_run run)) }
    ensures begins { Continues out.old out.new }
{
    for _ in 0..run / LONGEST_MAKE_UP {
        put_code(out, codes, BEFORE_MAKE_UPS + MAKE_UPS as usize)?;
    }
    let rest = run % LONGEST_MAKE_UP;
    if rest >= MAKE_UP_STEP {
        put_code(out, codes, BEFORE_MAKE_UPS + (rest / MAKE_UP_STEP) as usize)?;
    }
    put_code(out, codes, (run % MAKE_UP_STEP) as usize)
}

// The code of a row of a table goes out.
#[inline(always)]
fn put_code<const N: usize>(
    out: &mut BitWriter,
    codes: &CodeTable<N>,
    row: usize,
) -> Result<(), AllocError>
    requires within { row < N }
    requires short { AreShort codes.now ≡ true }
    ensures put { OnOk result (out.new ≡ out.old ++ code codes.now row) }
    ensures begins { Continues out.old out.new }
{
    out.put(codes.code_of(row))
}
