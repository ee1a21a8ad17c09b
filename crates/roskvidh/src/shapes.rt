//! The arguments of the commands, and how each is written.

/// An argument of a command.
#[derive(Clone, Copy)]
pub(crate) enum Argument {
    WordList,
    Output,
    NewReduced,
    Unordered,
    Strict,
    Progress,
    File,
    Word,
    Limit,
    Text,
    Prefix,
    Most,
    Best,
    Within,
    From,
    ListedPrefix,
    ShownPrefix,
    Dot,
    TextFile,
    Sign,
    Cheapest,
    Costs,
    Unknown,
    OnlyLongest,
    Color,
    Pairs,
    StrictPairs,
    Store,
    Other,
    OldFormat,
    Chart,
    Reduced,
    Default,
    Damaged,
    Fresh,
}

/// What an argument looks like.
#[derive(Clone, Copy)]
pub(crate) struct Shape {
    pub id: &'static str,
    pub form: Form,
    pub help: &'static str,
}

/// How an argument is written. An option is named after the argument's id.
#[derive(Clone, Copy)]
pub(crate) enum Form {
    /// A value at its place, with this name in help texts, which may be left out.
    Place(&'static str),
    /// One that has to be there.
    Required(&'static str),
    /// One value or more at their place.
    Several(&'static str),
    /// An option without a value.
    Flag,
    /// One that excludes another option.
    FlagWithout(&'static str),
    /// One of a group, of which one option at most is given.
    FlagOf(&'static str),
    /// An option with a value of this name in help texts.
    Value(&'static str, Kind),
}

/// The value of an option.
#[derive(Clone, Copy)]
pub(crate) enum Kind {
    /// A text.
    Text,
    /// One whose option excludes another one.
    TextWithout(&'static str),
    /// One that is this if not said, and a letter for the option's name.
    TextOr(&'static str, char),
    /// One that has to be there, and a letter for the option's name.
    Required(char),
    /// A count, and a letter for the option's name.
    Count(char),
    /// A count, whose option excludes another one.
    CountWithout(&'static str),
    /// One of these texts.
    OneOf(&'static [&'static str]),
    /// A text whose option is one of a group, of which one option at most is given.
    TextOf(&'static str),
    /// A text whose option needs one of a group.
    TextWith(&'static str),
    /// A size in memory.
    Size,
}

/// What an argument looks like.
pub(crate) fn shape_of(argument: Argument) -> Shape {
    match argument {
        Argument::WordList => WORD_LIST,
        Argument::Output => OUTPUT,
        Argument::NewReduced => NEW_REDUCED,
        Argument::Unordered => UNORDERED,
        Argument::Strict => STRICT,
        Argument::Progress => PROGRESS,
        Argument::File => FILE,
        Argument::Word => WORD,
        Argument::Limit => LIMIT,
        Argument::Text => TEXT,
        Argument::Prefix => PREFIX,
        Argument::Most => MOST,
        Argument::Best => BEST,
        Argument::Within => WITHIN,
        Argument::From => FROM,
        Argument::ListedPrefix => LISTED_PREFIX,
        Argument::ShownPrefix => SHOWN_PREFIX,
        Argument::Dot => DOT,
        Argument::TextFile => TEXT_FILE,
        Argument::Sign => SIGN,
        Argument::Cheapest => CHEAPEST,
        Argument::Costs => COSTS,
        Argument::Unknown => UNKNOWN,
        Argument::OnlyLongest => ONLY_LONGEST,
        Argument::Color => COLOR,
        Argument::Pairs => PAIRS,
        Argument::StrictPairs => STRICT_PAIRS,
        Argument::Store => STORE,
        Argument::Other => OTHER,
        Argument::OldFormat => OLD_FORMAT,
        Argument::Chart => CHART,
        Argument::Reduced => REDUCED,
        Argument::Default => DEFAULT,
        Argument::Damaged => DAMAGED,
        Argument::Fresh => FRESH,
    }
}

/// The word list that is read.
const WORD_LIST: Shape = Shape {
    id: "words",
    form: Form::Place("WORDS"),
    help: "The word list, a line each: a word, or a word, a tab and its number. Without one, or with -, it is standard input",
};

/// Where the dictionary is saved.
const OUTPUT: Shape = Shape {
    id: "output",
    form: Form::Value("FILE", Kind::Required('o')),
    help: "The dictionary's file. What is there is replaced once the new one is whole",
};

const NEW_REDUCED: Shape = Shape {
    id: "reduced",
    form: Form::Flag,
    help: "Make it of the reduced layout, which takes fewer slots",
};

const UNORDERED: Shape = Shape {
    id: "unordered",
    form: Form::Flag,
    help: "Put new labels first: lists then aren't sorted",
};

/// Whether a bad line ends it.
const STRICT: Shape = Shape {
    id: "strict",
    form: Form::Flag,
    help: "Leave the file as it is where a line is told to be bad or repeated",
};

/// Whether it is reported how far a list or a text is read.
const PROGRESS: Shape = Shape {
    id: "progress",
    form: Form::Flag,
    help: "Tell on standard error each second how much is read; on a terminal that is told unasked",
};

/// The dictionary's file.
const FILE: Shape = Shape {
    id: "file",
    form: Form::Required("FILE"),
    help: "The dictionary's file, of either layout, or a store",
};

const WORD: Shape = Shape {
    id: "word",
    form: Form::Several("WORD"),
    help: "The words to look up",
};

/// How much memory a load may allocate.
const LIMIT: Shape = Shape {
    id: "limit",
    form: Form::Value("BYTES", Kind::Size),
    help: "How much memory the dictionary may ask for; 536870912 if not said",
};

const TEXT: Shape = Shape {
    id: "text",
    form: Form::Required("TEXT"),
    help: "The text",
};

const PREFIX: Shape = Shape {
    id: "prefix",
    form: Form::Required("PREFIX"),
    help: "What the words begin with",
};

const MOST: Shape = Shape {
    id: "most",
    form: Form::Value("N", Kind::Count('n')),
    help: "List so many at most",
};

const BEST: Shape = Shape {
    id: "best",
    form: Form::Value("N", Kind::CountWithout("most")),
    help: "List so many at most, those with the highest numbers, and these first",
};

/// How many edits the prefix may be away.
const WITHIN: Shape = Shape {
    id: "within",
    form: Form::Value("EDITS", Kind::OneOf(EDITS)),
    help: "List also words that begin with a text so many edits from PREFIX: a character put in, taken out or changed",
};

/// So many edits may be forgiven.
const EDITS: &[&str] = &["1", "2"];

const FROM: Shape = Shape {
    id: "from",
    form: Form::Value("WORD", Kind::TextWithout("prefix")),
    help: "Begin with this word, or the next one by bytes; not of a dictionary that was built --unordered",
};

const LISTED_PREFIX: Shape = Shape {
    id: "prefix",
    form: Form::Value("PREFIX", Kind::Text),
    help: "List only words that begin so",
};

const SHOWN_PREFIX: Shape = Shape {
    id: "prefix",
    form: Form::Place("PREFIX"),
    help: "Show only words that begin so",
};

const DOT: Shape = Shape {
    id: "dot",
    form: Form::Flag,
    help: "Write a drawing in the language of Graphviz, a node for each byte, in place of text",
};

/// The text that is read.
const TEXT_FILE: Shape = Shape {
    id: "text",
    form: Form::Place("TEXTFILE"),
    help: "The text. Without one, or with -, it is standard input",
};

const SIGN: Shape = Shape {
    id: "sign",
    form: Form::Value("SIGN", Kind::TextOr(" ", 's')),
    help: "What to write between two words",
};

/// The options that say what words cost.
const COSTING: &str = "costing";

const CHEAPEST: Shape = Shape {
    id: "cheapest",
    form: Form::FlagOf(COSTING),
    help: "Cut each line so that its words' numbers have the least sum",
};

const COSTS: Shape = Shape {
    id: "costs",
    form: Form::Value("COSTS", Kind::TextOf(COSTING)),
    help: "The same by the costs that this file has of each number, a line each, from 0 on; a tab and a note may follow a cost",
};

const UNKNOWN: Shape = Shape {
    id: "unknown",
    form: Form::Value("COST", Kind::TextWith(COSTING)),
    help: "What a character costs that no word has, 4294967295 if not said; by class or class=COST, what a run of one class costs",
};

const ONLY_LONGEST: Shape = Shape {
    id: "only-longest",
    form: Form::Flag,
    help: "Of words that overlap tell only the first and longest",
};

const COLOR: Shape = Shape {
    id: "color",
    form: Form::Flag,
    help: "Write the lines in which those stand, with each of them marked in colour, as grep does",
};

const PAIRS: Shape = Shape {
    id: "pairs",
    form: Form::Required("PAIRS"),
    help: "The file of the words, a line each: a word, a tab, and what is written in its place",
};

const STRICT_PAIRS: Shape = Shape {
    id: "strict",
    form: Form::Flag,
    help: "Replace nothing where a line is told to be bad or repeated",
};

const STORE: Shape = Shape {
    id: "store",
    form: Form::Flag,
    help: "Make the file a store if it is missing or empty; a file of another kind is refused",
};

/// The second dictionary.
const OTHER: Shape = Shape {
    id: "other",
    form: Form::Required("OTHER"),
    help: "The second dictionary's file, of either layout, or a store",
};

/// Whether it is saved in format 1.0.
const OLD_FORMAT: Shape = Shape {
    id: "v1-0",
    form: Form::Flag,
    help: "Save it in format 1.0, which older programs read",
};

const CHART: Shape = Shape {
    id: "chart",
    form: Form::Flag,
    help: "Add a line for each length of word in bytes: how many words have it, and a bar",
};

const REDUCED: Shape = Shape {
    id: "reduced",
    form: Form::FlagWithout("default"),
    help: "Make it of the reduced layout",
};

const DEFAULT: Shape = Shape {
    id: "default",
    form: Form::Flag,
    help: "Make it of the default layout",
};

/// The store whose records are taken.
const DAMAGED: Shape = Shape {
    id: "file",
    form: Form::Required("FILE"),
    help: "The file of the damaged store",
};

/// The store that is made of them.
const FRESH: Shape = Shape {
    id: "new",
    form: Form::Required("NEW"),
    help: "The file of the new store. Nothing may be there",
};
