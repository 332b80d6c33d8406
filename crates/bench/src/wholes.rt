//! The cases of whole functions, entry points and modules, by name: those with the letter d.

use crate::bodies::Shape;
use crate::cases::{Case, Workload};

/// The cases of whole functions, entry points and modules.
pub(crate) static WHOLES: [Case; 8] = [
    Case {
        name: "d whole function",
        statements: 1001,
        workload: Workload::Body(Shape::Whole(1000)),
    },
    Case {
        name: "d small after large",
        statements: 1000,
        workload: Workload::AfterLarge(Shape::Mix(1000)),
    },
    Case {
        name: "d first after large",
        statements: 1000,
        workload: Workload::FirstAfterLarge(Shape::Mix(1000)),
    },
    Case {
        name: "d small alone",
        statements: 1000,
        workload: Workload::Body(Shape::Mix(1000)),
    },
    Case {
        name: "d module of 10000 functions",
        statements: 80000,
        workload: Workload::Functions(Shape::Mix(8), 10000),
    },
    Case {
        name: "d entry 32 varyings 100 globals",
        statements: 1,
        workload: Workload::Entry {
            location: 0,
            varyings: 32,
            globals: 100,
        },
    },
    Case {
        name: "d entry location 0",
        statements: 1,
        workload: Workload::Entry {
            location: 0,
            varyings: 1,
            globals: 0,
        },
    },
    Case {
        name: "d entry location 4294967295",
        statements: 1,
        workload: Workload::Entry {
            location: 4294967295,
            varyings: 1,
            globals: 0,
        },
    },
];
