//! What a case is, and the cases of bodies, by name. The letters are those of the bench that the names are shared with:
//! a straight bodies, b nesting, c blocks and switches; d stands in `wholes`.

use crate::bodies::{Holder, Shape};

/// What is judged.
#[derive(Clone, Copy)]
pub(crate) enum Workload {
    /// A function of a shape.
    Body(Shape),
    /// The same, by a validator that judged one of a million expressions before.
    AfterLarge(Shape),
    /// The first such function after one of a million expressions.
    FirstAfterLarge(Shape),
    /// So many functions of a shape, one after the other.
    Functions(Shape, u32),
    /// An entry point that takes in varyings, from a location on, and uses globals.
    Entry {
        location: u32,
        varyings: u32,
        globals: u32,
    },
}

/// A case. A Switch's statements are those of its cases and its own, and an entry point counts as one.
#[derive(Clone, Copy)]
pub(crate) struct Case {
    pub name: &'static str,
    pub statements: usize,
    pub workload: Workload,
}

/// The case of a body: its name, its statements and its shape.
macro_rules! body {
    ($name:expr, $statements:expr, $shape:expr) => {
        Case {
            name: $name,
            statements: $statements,
            workload: Workload::Body($shape),
        }
    };
}

/// Lists that hold each other 200 deep, each so wide.
macro_rules! nest {
    ($name:expr, $statements:expr, $holder:expr, $width:expr) => {
        body!($name, $statements, Shape::Nest { holder: $holder, depth: 200, width: $width })
    };
}

/// The cases of bodies.
pub(crate) static BODIES: [Case; 50] = [
    body!("a emit 1000", 1000, Shape::Emits(1000)),
    body!("a emit 10000", 10000, Shape::Emits(10000)),
    body!("a emit 100000", 100000, Shape::Emits(100000)),
    body!("a emit 1000000", 1000000, Shape::Emits(1000000)),
    body!("a store 1000", 1000, Shape::Stores(1000)),
    body!("a store 10000", 10000, Shape::Stores(10000)),
    body!("a store 100000", 100000, Shape::Stores(100000)),
    body!("a store 1000000", 1000000, Shape::Stores(1000000)),
    body!("a call 1000", 1000, Shape::Calls(1000)),
    body!("a call 10000", 10000, Shape::Calls(10000)),
    body!("a call 100000", 100000, Shape::Calls(100000)),
    body!("a call 1000000", 1000000, Shape::Calls(1000000)),
    body!("a mix 1000", 1000, Shape::Mix(1000)),
    body!("a mix 10000", 10000, Shape::Mix(10000)),
    body!("a mix 100000", 100000, Shape::Mix(100000)),
    body!("a mix 1000000", 1000000, Shape::Mix(1000000)),
    nest!("b block depth 200 width 100", 40400, Holder::Block, 100),
    nest!("b if depth 200 width 100", 40400, Holder::If, 100),
    nest!("b loop depth 200 width 100", 40400, Holder::Loop, 100),
    nest!("b mix depth 200 width 100", 40400, Holder::Mix, 100),
    nest!("b block depth 200 width 2", 1004, Holder::Block, 2),
    nest!("b block depth 200 width 25", 10250, Holder::Block, 25),
    nest!("b block depth 200 width 250", 100700, Holder::Block, 250),
    nest!("b block depth 200 width 2500", 1005200, Holder::Block, 2500),
    nest!("b if depth 200 width 2", 1004, Holder::If, 2),
    nest!("b if depth 200 width 25", 10250, Holder::If, 25),
    nest!("b if depth 200 width 250", 100700, Holder::If, 250),
    nest!("b if depth 200 width 2500", 1005200, Holder::If, 2500),
    nest!("b loop depth 200 width 2", 1004, Holder::Loop, 2),
    nest!("b loop depth 200 width 25", 10250, Holder::Loop, 25),
    nest!("b loop depth 200 width 250", 100700, Holder::Loop, 250),
    nest!("b loop depth 200 width 2500", 1005200, Holder::Loop, 2500),
    nest!("b mix depth 200 width 2", 1004, Holder::Mix, 2),
    nest!("b mix depth 200 width 25", 10250, Holder::Mix, 25),
    nest!("b mix depth 200 width 250", 100700, Holder::Mix, 250),
    nest!("b mix depth 200 width 2500", 1005200, Holder::Mix, 2500),
    body!(
        "c own 10000 blocks of 10",
        30000,
        Shape::Own {
            blocks: 10000,
            loads: 10
        }
    ),
    body!(
        "c own 333 blocks of 10",
        999,
        Shape::Own {
            blocks: 333,
            loads: 10
        }
    ),
    body!(
        "c own 3333 blocks of 10",
        9999,
        Shape::Own {
            blocks: 3333,
            loads: 10
        }
    ),
    body!(
        "c own 33333 blocks of 10",
        99999,
        Shape::Own {
            blocks: 33333,
            loads: 10
        }
    ),
    body!(
        "c own 333333 blocks of 10",
        999999,
        Shape::Own {
            blocks: 333333,
            loads: 10
        }
    ),
    body!(
        "c stores 10000 blocks of 10",
        110000,
        Shape::Blocks {
            blocks: 10000,
            stores: 10
        }
    ),
    body!("c switch 1000", 1002, Shape::Switch(1000)),
    body!("c switch 10000", 10002, Shape::Switch(10000)),
    body!("c switch 100000", 100002, Shape::Switch(100000)),
    body!("c switch 1000000", 1000002, Shape::Switch(1000000)),
    body!("c scattered switch 1000", 1002, Shape::Scattered(1000)),
    body!("c scattered switch 10000", 10002, Shape::Scattered(10000)),
    body!(
        "c scattered switch 100000",
        100002,
        Shape::Scattered(100000)
    ),
    body!(
        "c scattered switch 1000000",
        1000002,
        Shape::Scattered(1000000)
    ),
];
