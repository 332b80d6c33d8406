//! A sentence for each rule that the types of expressions keep.

/// What is wrong with an expression that breaks the rule with this number, the n of `Lower(n)`; `None` where there is no such
/// rule.
pub(crate) fn sentence_of(number: u32) -> Option<&'static str> {
    let sentence = match number {
        1 =>
            "the type, constant, override, argument, variable or function that it names isn't there",
        2 => "the function whose result it is returns nothing",
        3 => "what is accessed has no items; by a number, no members either",
        4 => "the index isn't an integer scalar",
        5 => "the number of the item or member is too large",
        6 =>
            "only what is pointed to can be loaded, and no array of dynamic size, image or sampler",
        7 =>
            "`detail` stands for nothing of this kind of expression, or asks for another number of operands",
        8 => "only a scalar can be splatted",
        9 => "only a vector that has each component of the pattern can be swizzled",
        10 => "Negate takes floats and signed integers, LogicalNot bools, BitwiseNot integers",
        11 => "the operator doesn't take operands of these types",
        12 =>
            "a Select is between two scalars or vectors of one type, by a bool or by as many bools",
        13 => "only floats have derivatives",
        14 => "All and Any take bools, IsNan and IsInf floats",
        15 => "the function doesn't take arguments of these types, or not so many",
        16 => "there is no such conversion, and no such bitcast",
        17 =>
            "the image isn't a global, an argument or an item of a binding array, or can't be used so",
        18 =>
            "the sampler isn't one, or it compares and there is no depth reference, or the other way round",
        19 =>
            "the coordinate isn't of the image's dimension: floats for a sample, integers for a load",
        20 =>
            "there is an array index and the image isn't arrayed, or the other way round, or it is no integer",
        21 =>
            "the offset isn't of signed integers of the image's dimension, or the image is a cube",
        22 => "the level isn't of the right type, or can't be given here, or is missing",
        23 => "the depth reference isn't an f32",
        24 =>
            "there is a sample and the image isn't multisampled, or the other way round, or it is no integer",
        25 => "only an array of dynamic size behind a pointer has a length that is asked for",
        26 => "the IR has no type for what a ray query answers",
        27 =>
            "only scalars behind a pointer are loaded, and only cooperative matrices multiplied and added",
        _ => return None,
    };
    Some(sentence)
}
