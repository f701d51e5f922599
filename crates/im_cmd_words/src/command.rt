/// What the words of a command line ask for. Files are given by the names that the words have.
#[derive(Clone, Copy, PartialEq, Eq, Debug)]
pub enum Command<'a> {
    /// Build the source, and store the image under the second name.
    Build {
        source: &'a str,
        image: &'a str,
        building: BuildOptions,
    },
    /// Build and store, and then run the stored image.
    Run {
        source: &'a str,
        image: &'a str,
        building: BuildOptions,
        options: RunOptions<'a>,
    },
    /// Run an image, from its own first memory or from the memory of the file that is named for it.
    Exec {
        image: &'a str,
        options: RunOptions<'a>,
        resume: Option<&'a str>,
    },
    /// Show what an image holds.
    Dump {
        image: &'a str,
    },
    /// Store the image or the memory of the first name under the second, in version 2.
    Upgrade {
        old: &'a str,
        new: &'a str,
    },
    /// Build the source, and tell what was built.
    Report {
        source: &'a str,
        building: BuildOptions,
    },
    /// Evaluate what the source means, with the frames of the same build.
    Eval {
        source: &'a str,
        building: BuildOptions,
        options: EvalOptions<'a>,
    },
    /// Build a made source of so many functions, 1 to 300, and run its image.
    Gen {
        count: u32,
    },
    /// Tell where and why the source isn't compiled, or nothing.
    Check {
        source: &'a str,
    },
}

/// How a source is built.
#[derive(Clone, Copy, PartialEq, Eq, Debug)]
pub struct BuildOptions {
    /// Bytes of the image's stack, 256 to 1048576.
    pub stack: u32,
    /// Bytes of output that the image has room for, 0 to 1048576.
    pub out_cap: u32,
    /// The longest gap that is asked for, 160 to 1000000 instructions. Where none is, any will do.
    pub max_gap: Option<u32>,
}

/// How a source is evaluated.
#[derive(Clone, Copy, PartialEq, Eq, Debug)]
pub struct EvalOptions<'a> {
    /// The file that the program reads. Where none is named its input is empty.
    pub input: Option<&'a str>,
    /// Units of fuel. A call, a turn of a loop, a byte read and a byte written take one each.
    pub fuel: u32,
    /// Whether the variables are shown at the end.
    pub vars: bool,
}

/// How an image is run.
#[derive(Clone, Copy, PartialEq, Eq, Debug)]
pub struct RunOptions<'a> {
    /// The file that the program reads. Where none is named its input is empty.
    pub input: Option<&'a str>,
    /// The file that tells the periods of power.
    pub trace: Option<&'a str>,
    /// The instructions of the one period that there is without a trace.
    pub steps: u32,
    /// Whether the variables are shown at the end.
    pub vars: bool,
    /// The file that gets the last memory. Where none is named it is stored nowhere.
    pub save: Option<&'a str>,
}
