//! Facts about the bodies of benches, worked by hand from the definitions in words.

ghost use Rattle.case_reply.specs.WorkedLoop.{LoopRows};

/// The two loops that the law over runs speaks of are bodies of bench P, where the operand of `e1` is `t`.
pub fn worked_loop()
    ensures { LoopRows }
{}
