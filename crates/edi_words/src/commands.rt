//! Commands with their operands and options.

/// Where the choices of a run come from.
#[derive(Clone, Copy, PartialEq, Eq)]
pub enum ChoicesFrom<'a> {
    /// There are none: the first ready process is always taken.
    Nowhere,
    /// From the file of this name.
    File(&'a str),
    /// A seed generates them.
    Seed(u16),
}

/// How a run is to go.
#[derive(Clone, Copy, PartialEq, Eq)]
pub struct Options<'a> {
    /// The bound on the turns, 1 to 1,000,000,000.
    pub turns: u32,
    /// Where the choices come from.
    pub choices: ChoicesFrom<'a>,
    /// The name of the file that is to keep the choices that the run drew.
    pub record_file: Option<&'a str>,
}

/// What is kept of a run beside its record, and under which name.
#[derive(Clone, Copy, PartialEq, Eq)]
pub enum Account<'a> {
    /// A timeline of its stints, as lines and as a picture.
    Timeline(&'a str),
    /// A dump: who stands where at its end.
    Dump(&'a str),
}

/// How an exploration is to go.
#[derive(Clone, Copy, PartialEq, Eq)]
pub struct ExploreOptions<'a> {
    /// How many states are kept at most, 1 to 100,000,000.
    pub states: u32,
    /// The bound on the turns of a stint, 1 to 1,000,000,000.
    pub turns: u32,
    /// The name of the files that are to keep the choices of the endings.
    pub record_file: Option<&'a str>,
    /// How many endings are told at most where endings with other output are others, 1 to 1,000; none where output is not looked at.
    pub shown: Option<u32>,
}

/// A command. Its names of files and titles are texts of the words.
#[derive(Clone, Copy, PartialEq, Eq)]
pub enum Command<'a> {
    /// `run FILE`: runs the program of a text.
    Run {
        file: &'a str,
        options: Options<'a>,
    },
    /// `replay FILE CHOICES`: runs it with the choices of a file.
    Replay {
        file: &'a str,
        choices: &'a str,
        turns: u32,
    },
    /// `exec CODEFILE`: runs the program of a code file.
    Exec {
        file: &'a str,
        options: Options<'a>,
    },
    /// `boot`: holds a session.
    Boot {
        options: Options<'a>,
    },
    /// `compile FILE OUT`: keeps the code of a text in a code file.
    Compile {
        file: &'a str,
        out: &'a str,
    },
    /// `newdisk BLOCKS`: formats the drive with this number of blocks, 64 to 4096, perhaps with the files of an image of version 1.
    NewDisk {
        blocks: u16,
        old: Option<&'a str>,
    },
    /// `put FILE TITLE`: stores a file of the host on the disk, under a title of its files.
    Put {
        file: &'a str,
        title: &'a str,
    },
    /// `get TITLE FILE`: keeps the file of this title of the disk as one of the host.
    Get {
        title: &'a str,
        file: &'a str,
    },
    /// `list CODEFILE`: shows the instructions of a code file.
    List {
        file: &'a str,
    },
    /// `demo N`: runs a text of this number of procedures, 1 to 1000, made for the purpose.
    Demo {
        n: u16,
        options: Options<'a>,
    },
    /// `check FILE`: reports which branches of a text are disjoint.
    Check {
        file: &'a str,
    },
    /// `explain FILE`: shows what is wrong with a text, or that it is accepted.
    Explain {
        file: &'a str,
    },
    /// `walk FILE CHOICES`: runs a text step by step by the order of a file.
    Walk {
        file: &'a str,
        choices: &'a str,
        turns: u32,
    },
    /// `watch FILE STOPS OUT`: runs a text and keeps a log of the points of a file.
    Watch {
        file: &'a str,
        stops: &'a str,
        out: &'a str,
        options: Options<'a>,
    },
    /// `explore FILE`: shows in which ways a text may end, whatever the choices are.
    Explore {
        file: &'a str,
        options: ExploreOptions<'a>,
    },
    /// `run FILE` and `replay FILE CHOICES` with `--timeline OUT` or `--dump OUT`: runs the program of a text and keeps an account of the run.
    RunWith {
        file: &'a str,
        account: Account<'a>,
        options: Options<'a>,
    },
    /// `exec CODEFILE` with one of these: runs the program of a code file and keeps an account of the run.
    ExecWith {
        file: &'a str,
        account: Account<'a>,
        options: Options<'a>,
    },
    /// `demo N` with one of these: runs a text of this number of procedures, 1 to 1000, and keeps an account of the run.
    DemoWith {
        n: u16,
        account: Account<'a>,
        options: Options<'a>,
    },
}
