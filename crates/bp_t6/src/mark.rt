// A place among the bits of a writer.
ghost use Rattle.std.specs.Prelude.{◌≡◌, ◌<◌, ◌%◌, ◌^◌};

/// A place to which a writer of bits can go back: how many whole bytes were out, and the bits that
/// waited for more.
#[derive(Clone, Copy)]
pub struct Mark {
    pub bytes: usize,
    pub held: u64,
    pub fill: u32,
    ghost words: { bytes % 4 ≡ 0 },
    ghost few: { fill < 32 },
    ghost small: { held < 2 ^ fill },
}
