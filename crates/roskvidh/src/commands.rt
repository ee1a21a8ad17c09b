//! The commands, what is said of them, and which arguments each takes.

use crate::shapes::Argument;

/// A command.
#[derive(Clone, Copy)]
pub(crate) enum Name {
    Build,
    Get,
    Prefixes,
    Complete,
    Count,
    List,
    Show,
    Cut,
    Scan,
    Replace,
    Add,
    Remove,
    Merge,
    Diff,
    Check,
    Stats,
    Convert,
    Recover,
}

/// The commands, as the help text lists them.
pub(crate) const COMMANDS: [Name; 18] = [
    Name::Build,
    Name::Get,
    Name::Prefixes,
    Name::Complete,
    Name::Count,
    Name::List,
    Name::Show,
    Name::Cut,
    Name::Scan,
    Name::Replace,
    Name::Add,
    Name::Remove,
    Name::Merge,
    Name::Diff,
    Name::Check,
    Name::Stats,
    Name::Convert,
    Name::Recover,
];

/// What is said of a command.
#[derive(Clone, Copy)]
pub(crate) struct Said {
    pub name: &'static str,
    pub about: &'static str,
    /// What follows its options.
    pub notes: &'static str,
}

/// What is said of a command.
pub(crate) fn said_of(name: Name) -> Said {
    match name {
        Name::Build => BUILD,
        Name::Get => GET,
        Name::Prefixes => PREFIXES,
        Name::Complete => COMPLETE,
        Name::Count => COUNT,
        Name::List => LIST,
        Name::Show => SHOW,
        Name::Cut => CUT,
        Name::Scan => SCAN,
        Name::Replace => REPLACE,
        Name::Add => ADD,
        Name::Remove => REMOVE,
        Name::Merge => MERGE,
        Name::Diff => DIFF,
        Name::Check => CHECK,
        Name::Stats => STATS,
        Name::Convert => CONVERT,
        Name::Recover => RECOVER,
    }
}

/// The arguments of a command, as its help text lists them.
pub(crate) fn arguments_of(name: Name) -> &'static [Argument] {
    match name {
        Name::Build => &BUILD_TAKES,
        Name::Get => &GET_TAKES,
        Name::Prefixes => &PREFIXES_TAKES,
        Name::Complete => &COMPLETE_TAKES,
        Name::Count => &COUNT_TAKES,
        Name::List => &LIST_TAKES,
        Name::Show => &SHOW_TAKES,
        Name::Cut => &CUT_TAKES,
        Name::Scan => &SCAN_TAKES,
        Name::Replace => &REPLACE_TAKES,
        Name::Add => &ADD_TAKES,
        Name::Remove => &REMOVE_TAKES,
        Name::Merge => &MERGE_TAKES,
        Name::Diff => &DIFF_TAKES,
        Name::Check => &CHECK_TAKES,
        Name::Stats => &STATS_TAKES,
        Name::Convert => &CONVERT_TAKES,
        Name::Recover => &RECOVER_TAKES,
    }
}

const BUILD: Said = Said {
    name: "build",
    about: "Make a dictionary of a word list",
    notes: BUILD_NOTES,
};

const BUILD_TAKES: [Argument; 6] = [
    Argument::WordList,
    Argument::Output,
    Argument::NewReduced,
    Argument::Unordered,
    Argument::Strict,
    Argument::Progress,
];

const BUILD_NOTES: &str = "\
A line without a number has its own number in the list, from 1. Empty lines are passed over. A bad line is told on standard error and
passed over; a word's second line is told, and its number counts.

Example:
  printf 'net\\t7\\nten\\t2\\n' | roskvidh build -o words.cedar";

const GET: Said = Said {
    name: "get",
    about: "Look words up",
    notes: "A word that isn't there has no line, and the status is then 1.\n\nExample:\n  roskvidh get words.cedar net ten",
};

const GET_TAKES: [Argument; 3] = [Argument::File, Argument::Word, Argument::Limit];

const PREFIXES: Said = Said {
    name: "prefixes",
    about: "List the words that a text begins with, the shortest first",
    notes: "Example:\n  roskvidh prefixes words.cedar network",
};

const PREFIXES_TAKES: [Argument; 3] = [Argument::File, Argument::Text, Argument::Limit];

const COMPLETE: Said = Said {
    name: "complete",
    about: "List the words that begin with a prefix",
    notes: COMPLETE_NOTES,
};

const COMPLETE_NOTES: &str = "\
Words with the same number come in the order of bytes where --best puts them in order.

Example:
  roskvidh complete words.cedar ne -n 5
  roskvidh complete words.cedar ne --best 10 --within 1";

const COMPLETE_TAKES: [Argument; 6] = [
    Argument::File,
    Argument::Prefix,
    Argument::Most,
    Argument::Best,
    Argument::Within,
    Argument::Limit,
];

const COUNT: Said = Said {
    name: "count",
    about: "Count the words that begin with a prefix",
    notes: "The status is 1 where there is none.\n\nExample:\n  roskvidh count words.cedar ne",
};

const COUNT_TAKES: [Argument; 3] = [Argument::File, Argument::Prefix, Argument::Limit];

const LIST: Said = Said {
    name: "list",
    about: "List the words of a dictionary",
    notes: "Example:\n  roskvidh list words.cedar --from net > words.tsv",
};

const LIST_TAKES: [Argument; 4] = [
    Argument::File,
    Argument::From,
    Argument::ListedPrefix,
    Argument::Limit,
];

const SHOW: Said = Said {
    name: "show",
    about: "Show the words of a dictionary as a tree",
    notes: SHOW_NOTES,
};

const SHOW_TAKES: [Argument; 4] = [
    Argument::File,
    Argument::ShownPrefix,
    Argument::Dot,
    Argument::Limit,
];

const SHOW_NOTES: &str = "\
A line for each word, with a tab and its number behind it. Blanks stand in place of the characters that it shares with the word
before it. The status is 1 where there is no such word.

Example:
  roskvidh show words.cedar ne
  roskvidh show words.cedar ne --dot | dot -Tsvg > words.svg";

const CUT: Said = Said {
    name: "cut",
    about: "Cut a text into words",
    notes: CUT_NOTES,
};

const CUT_TAKES: [Argument; 8] = [
    Argument::File,
    Argument::TextFile,
    Argument::Sign,
    Argument::Cheapest,
    Argument::Costs,
    Argument::Unknown,
    Argument::Progress,
    Argument::Limit,
];

const CUT_NOTES: &str = "\
Each line is cut by itself: at each position into the longest word that begins there, or else one character.
With --unknown class or class=COST a run that no word is costs so much as a whole, if it has 24 characters or fewer: of letters (Latin,
Greek, Cyrillic), of digits, of Han, Hiragana, Katakana or Hangul. Where one of its characters is in no word, it takes the words beside
that one too.

Example:
  echo networks | roskvidh cut words.cedar -s '|'
  echo networks | roskvidh cut words.cedar --costs costs.tsv --unknown class";

const SCAN: Said = Said {
    name: "scan",
    about: "Find the words of a dictionary in a text",
    notes: SCAN_NOTES,
};

const SCAN_TAKES: [Argument; 6] = [
    Argument::File,
    Argument::TextFile,
    Argument::OnlyLongest,
    Argument::Color,
    Argument::Progress,
    Argument::Limit,
];

const SCAN_NOTES: &str = "\
A line for each: the line and the column where it begins, both from 1, the word, and its number, with tabs between them. A column
counts characters. The status is 1 where there is none.

Example:
  echo 'the heroes' | roskvidh scan words.cedar --only-longest";

const REPLACE: Said = Said {
    name: "replace",
    about: "Replace the words of a list in a text",
    notes: REPLACE_NOTES,
};

const REPLACE_TAKES: [Argument; 4] = [
    Argument::Pairs,
    Argument::TextFile,
    Argument::StrictPairs,
    Argument::Progress,
];

const REPLACE_NOTES: &str = "\
Of words that overlap the first and longest is replaced. What is written isn't looked at again, and the rest of the text stays as it
is. A bad line of the list is told on standard error and passed over; of a word's lines the last one counts.

Example:
  printf 'colour\\tcolor\\n' > spellings.tsv
  echo 'two colours' | roskvidh replace spellings.tsv";

const ADD: Said = Said {
    name: "add",
    about: "Add the words of a list to a dictionary's file",
    notes: ADD_NOTES,
};

const ADD_TAKES: [Argument; 6] = [
    Argument::File,
    Argument::WordList,
    Argument::Store,
    Argument::Strict,
    Argument::Progress,
    Argument::Limit,
];

const ADD_NOTES: &str = "\
A list is as of build. A word that is there gets the list's number, and is told.

A store keeps each change behind those before it, and every command reads it. A list is stored as one change: at status 0 it is on the
disk, and a crash leaves all of it or none. --limit says nothing of a store. It is locked while it is changed: another program that would
change it meanwhile ends with status 4 and changes nothing. The commands that only look at it don't mind.

Example:
  printf 'nest\\t4\\n' | roskvidh add words.cedar
  printf 'nest\\t4\\n' | roskvidh add words.store --store";

const REMOVE: Said = Said {
    name: "remove",
    about: "Take the words of a list out of a dictionary's file",
    notes: REMOVE_NOTES,
};

const REMOVE_TAKES: [Argument; 4] = [
    Argument::File,
    Argument::WordList,
    Argument::Progress,
    Argument::Limit,
];

const REMOVE_NOTES: &str = "\
Numbers in the list don't count. The status is 1 where a word wasn't there; the others are taken out. Of a store they are taken out as
one change, as add stores them.

Example:
  echo nest | roskvidh remove words.cedar";

const MERGE: Said = Said {
    name: "merge",
    about: "Make a dictionary of the words of two",
    notes: MERGE_NOTES,
};

const MERGE_TAKES: [Argument; 5] = [
    Argument::File,
    Argument::Other,
    Argument::Output,
    Argument::OldFormat,
    Argument::Limit,
];

const MERGE_NOTES: &str = "\
Of a word that both have the second one's number counts. The new file has the layout and the order of the first.

Example:
  roskvidh merge words.cedar more.cedar -o all.cedar";

const DIFF: Said = Said {
    name: "diff",
    about: "List what two dictionaries hold differently",
    notes: DIFF_NOTES,
};

const DIFF_TAKES: [Argument; 3] = [Argument::File, Argument::Other, Argument::Limit];

const DIFF_NOTES: &str = "\
First the lines of the first one that the second doesn't have, behind a -, and then the second's, behind a +. The status is 1
where there is one.

Example:
  roskvidh diff old.cedar words.cedar";

const CHECK: Said = Said {
    name: "check",
    about: "Test a dictionary's file, and tell of what kind it is",
    notes: CHECK_NOTES,
};

const CHECK_NOTES: &str = "\
Of a damaged store the place of the first bad record is told, in bytes from the file's beginning; see recover.

Example:
  roskvidh check words.cedar";

const CHECK_TAKES: [Argument; 2] = [Argument::File, Argument::Limit];

const STATS: Said = Said {
    name: "stats",
    about: "Tell a dictionary's figures, a line each: a name, a tab, and what it is",
    notes: "Example:\n  roskvidh stats words.cedar --chart",
};

const STATS_TAKES: [Argument; 3] = [Argument::File, Argument::Chart, Argument::Limit];

const CONVERT: Said = Said {
    name: "convert",
    about: "Save a dictionary in another format or layout",
    notes: "Example:\n  roskvidh convert words.cedar -o small.cedar --reduced",
};

const CONVERT_TAKES: [Argument; 6] = [
    Argument::File,
    Argument::Output,
    Argument::Reduced,
    Argument::Default,
    Argument::OldFormat,
    Argument::Limit,
];

const RECOVER: Said = Said {
    name: "recover",
    about: "Make a new store of what is whole in a damaged one",
    notes: RECOVER_NOTES,
};

const RECOVER_TAKES: [Argument; 2] = [Argument::Damaged, Argument::Fresh];

const RECOVER_NOTES: &str = "\
The records in front of the first bad one are taken, and each one behind it that is whole, with its sum. How many are taken is told, a
line for each kind, and how many bytes belong to none of them. A change that isn't taken is lost: look at what comes of it. The damaged
file is only read. Records of version 1 have no sums: of such a file only those in front of the first bad one are taken.

Example:
  roskvidh recover words.store saved.store";
