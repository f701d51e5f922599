/// A source, an input, and the output that gcc's code of the source has on it, as files.
#[derive(Clone, Copy)]
pub(crate) struct Example {
    pub(crate) source: &'static str,
    pub(crate) input: &'static str,
    pub(crate) output: &'static str,
}

pub(crate) const EXAMPLES: [Example; 10] = [
    Example {
        source: "crc16.c",
        input: "crc16.in",
        output: "crc16.out",
    },
    Example {
        source: "lights.c",
        input: "lights.in",
        output: "lights.out",
    },
    Example {
        source: "average.c",
        input: "average.in",
        output: "average.out",
    },
    Example {
        source: "calculator.c",
        input: "calculator.in",
        output: "calculator.out",
    },
    Example {
        source: "base64.c",
        input: "base64.in",
        output: "base64.out",
    },
    Example {
        source: "median.c",
        input: "median.in",
        output: "median.out",
    },
    Example {
        source: "sha256.c",
        input: "sha256.in",
        output: "sha256.out",
    },
    Example {
        source: "unpack.c",
        input: "unpack.in",
        output: "unpack.out",
    },
    Example {
        source: "lock.c",
        input: "lock.in",
        output: "lock.out",
    },
    Example {
        source: "records.c",
        input: "records.in",
        output: "records.out",
    },
];
