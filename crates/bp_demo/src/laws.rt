// What holds of every demo.
ghost use Rattle.bp_demo.specs.Answered.{FreezesResponsive, NoStepIsRefused};

/// No step of a demo breaks a rule: staff 2 comes, the batch comes in, and each call is done. Its
/// freeze is refused for nothing but that no document is responsive. The function does nothing: its
/// contract is the law.
pub fn demo_law()
    ensures steps { NoStepIsRefused }
    ensures freeze { FreezesResponsive }
{}
