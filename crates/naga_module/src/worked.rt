//! Facts about a small module, worked by hand from the definitions in words.

ghost use Rattle.naga_module.specs.WorkedChain.{ChainRows};

/// A chain of two calls: the infos of its three functions are vetted, and the last reaches the first.
pub fn worked_chain()
    ensures { ChainRows }
{}
